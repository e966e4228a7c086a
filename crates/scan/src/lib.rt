// What one frame of a stack adds to the roots: its slots that hold pointers, the callee-save registers behind it, and their codes in a list.
#![tactic(auto)]

ghost use Rattle.std.specs.Prelude.{◌≡◌, ◌^◌, ◌<◌, ◌&&◌, [], ◌∷◌, length, if◌then◌else◌, Some, MatchOption, nat_lt};
ghost use Rattle.frame_map.specs.Rows.{Lawful};
ghost use Rattle.scan.specs.Masks.{registers_by, saved_mask};
ghost use Rattle.scan.specs.Writing.{Coded, Steps, Uncoded, Wrote};

mod laws;

use frame_map::Row;
pub use laws::scan_is_exact;
use words::has_bit;

// What the scan learns of one frame.
#[derive(Clone, Copy, PartialEq, Eq, Debug)]
pub struct Scanned {
    // Roots among the frame's slots: bit i stands for slot i.
    pub roots: u32,
    // Callee-save registers that hold pointers behind the frame: bit k stands for register 8 + k.
    pub held: u8,
}

// The bit of the slot in which a register was saved, where that register held a pointer; slot 0 stands for none.
fn saved_bit(slot: u8, holds: bool) -> u32
    ensures { slot < 32 → result ≡ (if holds && nat_lt 0 slot then 2 ^ slot else 0) }
{
    if !holds || slot == 0 || u32::from(slot) >= u32::BITS {
        return 0;
    }
    1 << slot
}

// The slots in which a frame saved registers that held pointers at its entry.
fn saved_roots(row: &Row, held: u8) -> u32
    ensures { Lawful row.now → result ≡ saved_mask row.now held 8 }
{
    let mut roots = 0;
    for (k, slot) in row.saved.iter().enumerate() {
        roots |= saved_bit(*slot, has_bit(u32::from(held), k as u32));
    }
    roots
}

// One frame's step, from the callee-save registers that held pointers at its entry.
pub fn scan_frame(row: &Row, held: u8) -> Scanned
    ensures { Lawful row.now → Steps row.now held result.roots result.held }
{
    Scanned {
        roots: row.slots | saved_roots(row, held),
        held: (row.registers >> 8) as u8 | row.untouched & held,
    }
}

// The registers that are roots where a frame with this row runs, with these callee-save registers holding pointers: bit k stands for register k.
pub fn root_registers(row: &Row, held: u8) -> u16
    ensures { result ≡ registers_by (Some row.now) held }
{
    row.registers % 256 + 256 * u16::from(held)
}

// Writes a code at place `at` where it is wanted, and answers the place behind. Both outcomes are one fact, `Wrote`, so the loop has no branch.
fn write_code(out: &mut [u32], at: usize, code: u32, wanted: bool) -> usize
    requires { at < length out.old }
    ensures { Wrote (if wanted then code ∷ [] else []) at out.old out.new result }
{
    if !wanted {
        return at;
    }
    out[at] = code;
    at + 1
}

// Writes base + i for each bit i of the mask below `count`, rising, from place `at` on, and answers the place behind.
// The buffer is the caller's, since a scan allocates nothing. Nothing is written where `count` words have no room there, a mask has not that many bits, or a word cannot hold that many codes.
pub fn write_codes(out: &mut [u32], at: usize, base: u32, mask: u32, count: u32) -> Option<usize>
    ensures { MatchOption result (Uncoded base count at out.old out.new) (λ behind. Coded base mask count at out.old out.new behind) }
{
    if count > u32::BITS || u64::from(base) + u64::from(count) > 0x1_0000_0000 {
        return None;
    }
    if at > out.len() || out.len() - at < count as usize {
        return None;
    }
    let mut place = at;
    // By number: bit i stands for the code base + i.
    for i in 0..count {
        place = write_code(out, place, base + i, has_bit(mask, i));
    }
    Some(place)
}

#[cfg(test)]
mod tests {
    use super::*;

    // A frame waits with a pointer in r9 and in its slot 1; the frame above it saved r9 in slot 1.
    #[test]
    fn saved_pointer_is_a_root(rt: HostRuntime) {
        let waiting = Row {
            size: 4,
            slots: 1 << 1,
            saved: [0; 8],
            registers: 1 << 9,
            untouched: 0,
        };
        let running = Row {
            size: 3,
            slots: 0,
            saved: [0, 1, 0, 0, 0, 0, 0, 0],
            registers: 1,
            untouched: 1,
        };
        let below = scan_frame(&waiting, 0);
        let above = scan_frame(&running, below.held);
        let mut out = [9; 32];
        assert!(rt; write_codes(&mut out, 0, 0, below.roots, 4) == Some(1));
        assert!(rt; write_codes(&mut out, 1, 4, above.roots, 3) == Some(2));
        let registers = u32::from(root_registers(&running, above.held));
        assert!(rt; write_codes(&mut out, 2, 65536, registers, 16) == Some(3));
        assert!(rt; [out[0], out[1], out[2], out[3]] == [1, 5, 65536, 9]);
        assert!(rt; write_codes(&mut out, 31, 4, above.roots, 3) == None);
    }
}
