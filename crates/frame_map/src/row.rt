// What a frame that stands at a point holds, and when such a description is lawful.
ghost use Rattle.std.specs.Prelude.{◌≤◌, MatchBool, MatchOption};
ghost use Rattle.frame_map.specs.Rows.{Sized, Slotted, Saved, Masked, Lawful};
ghost use Rattle.frame_map.specs.Taking.{Takes, Untakable};

use words::has_bit;

// A frame has at most this many words.
pub const MAX_SIZE: u8 = 32;
// A map's image has at most this many rows.
pub const MAX_ROWS: usize = 1024;

// A frame at a point. Registers r0 to r7 are scratch (caller-save), r8 to r15 callee-save.
#[derive(Clone, Copy, PartialEq, Eq, Debug)]
pub struct Row {
    // Words in the frame. Word 0 holds the return address; slots are words 1 to size - 1.
    pub size: u8,
    // Pointer slots: bit i stands for slot i.
    pub slots: u32,
    // For r8 to r15, the slot in which this frame saved the register at entry, or 0 for none.
    pub saved: [u8; 8],
    // Registers that hold pointers: bit k stands for register k.
    pub registers: u16,
    // Callee-save registers that still have their value from entry: bit k stands for register 8 + k.
    pub untouched: u8,
}

// A row with the point that it describes.
#[derive(Clone, Copy, PartialEq, Eq, Debug)]
pub struct Entry {
    pub point: u16,
    pub row: Row,
}

impl Row {
    fn has_fair_size(&self) -> bool
        ensures { MatchBool result (Sized self.now) (Sized self.now → ⊥) }
    {
        (1..=MAX_SIZE).contains(&self.size)
    }

    // Nothing stands at bit 0 or from bit `size` on.
    fn has_fair_slots(&self) -> bool
        ensures { MatchBool result (Slotted self.now) (Slotted self.now → ⊥) }
    {
        if has_bit(self.slots, 0) {
            return false;
        }
        u64::from(self.slots) >> self.size.min(MAX_SIZE) == 0
    }

    fn has_fair_registers(&self) -> bool
        ensures { MatchBool result (Masked self.now) (Masked self.now → ⊥) }
    {
        (self.registers >> 8) & self.untouched as u16 == 0
    }

    // The taken slots with one saved slot more, or nothing where that is no slot or is taken already.
    fn taking(&self, taken: u32, slot: u8) -> Option<u32>
        requires { self.now.size ≤ 32 }
        ensures { MatchOption result (Untakable self.now taken slot) (λ more. Takes self.now taken slot more) }
    {
        if slot == 0 {
            return Some(taken);
        }
        if slot >= self.size || has_bit(taken, u32::from(slot)) {
            return None;
        }
        Some(taken | 1 << slot)
    }

    #[tactic(auto, using(crate::proofs::RowLaws::fair_skip, crate::proofs::RowLaws::fair_take))]
    fn has_fair_saved(&self) -> bool
        requires { self.now.size ≤ 32 }
        ensures { MatchBool result (Saved self.now) (Saved self.now → ⊥) }
    {
        let mut taken = self.slots;
        for slot in &self.saved {
            let Some(more) = self.taking(taken, *slot) else {
                return false;
            };
            taken = more;
        }
        true
    }

    // Whether the row keeps every rule of a row.
    pub fn is_lawful(&self) -> bool
        ensures { MatchBool result (Lawful self.now) (Lawful self.now → ⊥) }
    {
        self.has_fair_size()
            && self.has_fair_slots()
            && self.has_fair_saved()
            && self.has_fair_registers()
    }
}
