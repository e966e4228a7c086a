// Writing a row's code against the row before it.
#![tactic(auto)]

ghost use Rattle.std.specs.Prelude.{◌≡◌, ◌+◌, ◌^◌, ◌<◌, ◌≤◌, [], ◌∷◌, length, MatchOption};
ghost use Rattle.delta_layout.specs.Bytes.{bytes};
ghost use Rattle.delta_layout.specs.Fields.{bit_of};
ghost use Rattle.delta_layout.specs.Codes.{flag, changed, resized, moved_mask, resaved, step_code, code_bits, code};
ghost use Rattle.delta_writer.specs.Writing.{made, Added, Wrote, Unwritten};

use arrayvec::ArrayVec;
use delta_layout::{Field, NARROW_END};
use frame_map::Entry;

// The code of a row as far as it is made. Each part asks for the room that it takes, and these differ, so no invariant says it for all.
#[derive(Drop)]
struct RowCode {
    bytes: ArrayVec<u8, 20>,
}

// The bit of a field where a fact stands.
fn flag_bit(field: Field, present: bool) -> u8
    ensures { result ≡ flag (bit_of field) present }
{
    if present { 1 << field.bit() } else { 0 }
}

// The callee-save registers whose saved slots differ.
#[tactic(auto, using(crate::proofs::WriterLaws::mask_fits, crate::proofs::WriterLaws::mask_begin, crate::proofs::WriterLaws::mask_more))]
fn moved_registers(was: &[u8; 8], saved: &[u8; 8]) -> u8
    ensures { result ≡ moved_mask was.now saved.now }
{
    let mut mask = 0;
    for (k, (old, new)) in was.iter().zip(saved).enumerate() {
        if old != new {
            mask += 1 << k;
        }
    }
    mask
}

// The bit map byte: which fields differ, and whether the step takes two bytes.
fn bit_map(before: &Entry, entry: &Entry) -> u8
    ensures { result ≡ code_bits before.now entry.now }
{
    let was = &before.row;
    let row = &entry.row;
    let step = entry.point.saturating_sub(before.point);
    flag_bit(Field::Size, was.size != row.size)
        + flag_bit(Field::Slots, was.slots != row.slots)
        + flag_bit(Field::Registers, was.registers != row.registers)
        + flag_bit(Field::Untouched, was.untouched != row.untouched)
        + flag_bit(Field::Saved, moved_registers(&was.saved, &row.saved) != 0)
        + flag_bit(Field::Wide, u32::from(step) > NARROW_END)
}

// A row and the one before it stay two arguments: each function takes them apart at once.
impl RowCode {
    // The code of a row against the row before it.
    #[tactic(auto, using(crate::proofs::WriterLaws::part_lengths))]
    fn new(before: &Entry, entry: &Entry) -> RowCode
        ensures { made result ≡ code before.now entry.now }
    {
        let was = &before.row;
        let row = &entry.row;
        let mut made = RowCode {
            bytes: ArrayVec::new(),
        };
        made.push(bit_map(before, entry));
        made.stepped(entry.point.saturating_sub(before.point));
        made.resized(was.size, row.size);
        made.changed(4, was.slots, row.slots);
        made.changed(2, u32::from(was.registers), u32::from(row.registers));
        made.changed(1, u32::from(was.untouched), u32::from(row.untouched));
        made.resaved(&was.saved, &row.saved);
        made
    }

    fn push(&mut self, byte: u8)
        requires { length (made self.old) < 20 }
        ensures { Added (byte ∷ []) self.old self.new }
    {
        self.bytes.push(byte);
    }

    // A number in `count` bytes, low byte first.
    #[tactic(auto, using(crate::proofs::WriterLaws::low_bytes))]
    fn number(&mut self, count: usize, value: u32)
        requires short { count ≤ 4 }
        requires room { length (made self.old) + count ≤ 20 }
        ensures { Added (bytes count value) self.old self.new }
    {
        self.bytes
            .try_extend_from_slice(&value.to_le_bytes()[..count])
            .unwrap();
    }

    // A field in `count` bytes, where it differs.
    fn changed(&mut self, count: usize, was: u32, value: u32)
        requires short { count ≤ 4 }
        requires room { length (made self.old) + count ≤ 20 }
        ensures { Added (changed count was value) self.old self.new }
    {
        if was == value {
            return;
        }
        self.number(count, value);
    }

    // The size difference as a signed byte, where the sizes differ.
    fn resized(&mut self, was: u8, size: u8)
        requires { length (made self.old) < 20 }
        ensures { Added (resized was size) self.old self.new }
    {
        if was == size {
            return;
        }
        self.push(size.wrapping_sub(was));
    }

    // The step, in two bytes only where one does not do.
    fn stepped(&mut self, step: u16)
        requires { length (made self.old) + 2 ≤ 20 }
        ensures { Added (step_code step) self.old self.new }
    {
        let count = if u32::from(step) <= NARROW_END { 1 } else { 2 };
        self.number(count, u32::from(step));
    }

    // The saved slots that differ: a bit for each, then the slots.
    #[tactic(auto, using(crate::proofs::WriterLaws::part_lengths, delta_layout::proofs::CodeLaws::slots_length), unfolding(delta_layout::specs::Codes::moved_slots, delta_layout::specs::Bytes::bytes))]
    fn resaved(&mut self, was: &[u8; 8], saved: &[u8; 8])
        requires { length (made self.old) + 9 ≤ 20 }
        ensures { Added (resaved was.now saved.now) self.old self.new }
    {
        let moved = moved_registers(was, saved);
        if moved == 0 {
            return;
        }
        self.push(moved);
        for (old, new) in was.iter().zip(saved) {
            self.changed(1, u32::from(*old), u32::from(*new));
        }
    }
}

// How many bytes the code of a row takes against the row before it.
pub fn row_length(before: &Entry, entry: &Entry) -> usize
    ensures { result ≡ length (code before.now entry.now) }
{
    RowCode::new(before, entry).bytes.len()
}

// Writes the code of a row against the row before it from `at` on, and answers the place behind it.
// Where it does not fit, nothing is written.
pub fn write_row(out: &mut [u8], at: usize, before: &Entry, entry: &Entry) -> Option<usize>
    ensures { MatchOption result (Unwritten (code before.now entry.now) at out.old out.new) (Wrote (code before.now entry.now) at out.old out.new) }
{
    let row = RowCode::new(before, entry).bytes;
    let end = at.checked_add(row.len())?;
    if end > out.len() {
        return None;
    }
    // By a range: of what is written through `get_mut`, a proof knows only the length.
    out[at..end].copy_from_slice(row.as_slice());
    Some(end)
}
