// The line that shows an entry.
ghost use Rattle.std.specs.Prelude.{Some};
ghost use Rattle.frame_map.specs.Texts.{slots_text, entry_text};

use crate::row::Entry;
use std::fmt;

// The saved slots of r8 to r15, each behind a space, - for none.
#[derive(Clone, Copy)]
struct Slots([u8; 8]);

impl fmt::Display for Slots {
    ghost output = { λ s. Some (slots_text s) };

    fn fmt<W: fmt::Write>(&self, f: &mut fmt::Formatter<W>) -> fmt::Result {
        for slot in &self.0 {
            match slot {
                0 => f.write_str(" -")?,
                _ => write!(f, " {slot}")?,
            }
        }
        Ok(())
    }
}

// As `point 20 size 3 slots 0x00000000 registers 0x0001 untouched 0x01 saved - 1 - - - - - -`,
// with the saved slots of r8 to r15.
impl fmt::Display for Entry {
    ghost output = { λ e. Some (entry_text e) };

    fn fmt<W: fmt::Write>(&self, f: &mut fmt::Formatter<W>) -> fmt::Result {
        let point = self.point;
        let size = self.row.size;
        let slots = self.row.slots;
        let registers = self.row.registers;
        let untouched = self.row.untouched;
        let saved = Slots(self.row.saved);
        write!(
            f,
            "point {point} size {size} slots 0x{slots:08x} registers 0x{registers:04x} untouched 0x{untouched:02x} saved{saved}"
        )
    }
}
