// Reading rows, each against the row before it.
ghost use Rattle.std.specs.Prelude.{◌≡◌, ◌≤◌, MatchResult};
ghost use Rattle.delta_layout.specs.Fields.{bit_of};
ghost use Rattle.delta_layout.specs.Parsing.{stands, byte_in, number_in, changed_in, step_in, size_in, saved_in, row_in, entry_in};
ghost use Rattle.delta_code.specs.Reading.{Took, GotRow, NoRow};

use super::{Reader, ReaderFault};
use delta_layout::{Field, NARROW_END};
use frame_map::{Entry, Row};
use words::has_bit;

// No bit of the bit map byte stands from here on.
const FLAGS_END: u8 = 64;

fn has_flag(flags: u8, field: Field) -> bool
    ensures { result ≡ stands flags (bit_of field) }
{
    has_bit(u32::from(flags), u32::from(field.bit()))
}

impl Reader<'_> {
    fn byte(&mut self) -> Option<u8>
        ensures { Took byte_in result self.old self.new }
    {
        let byte = *self.image.get(self.at)?;
        self.at += 1;
        Some(byte)
    }

    // A number of `bytes` bytes, low byte first. A recursion: `get(self.at..)?.get(..n)?` and a fold over these bytes would take as many lines.
    #[tactic(auto, unfolding(delta_layout::specs::Parsing::number_in))]
    fn number(&mut self, bytes: u8) -> Option<u32>
        requires { bytes ≤ 4 }
        ensures { Took (number_in bytes) result self.old self.new }
    {
        if bytes == 0 {
            return Some(0);
        }
        let low = self.byte()?;
        let high = self.number(bytes - 1)?;
        Some(u32::from(low) + 256 * high)
    }

    // A field of `bytes` bytes that was `was`: another value where its bit stands, else the same.
    #[tactic(auto, unfolding(delta_layout::specs::Parsing::changed_in))]
    fn changed(&mut self, present: bool, bytes: u8, was: u32) -> Option<u32>
        requires { bytes ≤ 4 }
        ensures { Took (changed_in bytes present was) result self.old self.new }
    {
        if !present {
            return Some(was);
        }
        let value = self.number(bytes)?;
        if value == was {
            return None;
        }
        Some(value)
    }

    // The step from point to point: two bytes only where one does not do.
    #[tactic(auto, unfolding(delta_layout::specs::Parsing::step_in))]
    fn step(&mut self, wide: bool) -> Option<u16>
        ensures { Took (step_in wide) result self.old self.new }
    {
        let (bytes, most) = if wide { (2, NARROW_END) } else { (1, 0) };
        let step = self.number(bytes)?;
        if step <= most {
            return None;
        }
        Some(step as u16)
    }

    // The size, by a signed difference.
    #[tactic(auto, unfolding(delta_layout::specs::Parsing::size_in))]
    fn size(&mut self, present: bool, was: u8) -> Option<u8>
        ensures { Took (size_in present was) result self.old self.new }
    {
        if !present {
            return Some(was);
        }
        let difference = self.byte()?;
        if difference == 0 {
            return None;
        }
        was.checked_add_signed(difference.cast_signed())
    }

    // The saved slots: a byte with a bit for each that differs, then these.
    #[tactic(auto, unfolding(delta_layout::specs::Parsing::saved_in, delta_layout::specs::Parsing::slots_in))]
    fn saved(&mut self, present: bool, was: [u8; 8]) -> Option<[u8; 8]>
        ensures { Took (saved_in present was) result self.old self.new }
    {
        if !present {
            return Some(was);
        }
        let moved = self.byte()?;
        if moved == 0 {
            return None;
        }
        let mut saved = was;
        for (k, slot) in saved.iter_mut().enumerate() {
            let read = self.changed(has_bit(u32::from(moved), k as u32), 1, u32::from(*slot))?;
            *slot = read as u8;
        }
        Some(saved)
    }

    // The row's fields, by their bits.
    #[tactic(auto, unfolding(delta_layout::specs::Parsing::row_in))]
    fn row(&mut self, flags: u8, before: &Row) -> Option<Row>
        ensures { Took (row_in flags before.now) result self.old self.new }
    {
        let size = self.size(has_flag(flags, Field::Size), before.size)?;
        let slots = self.changed(has_flag(flags, Field::Slots), 4, before.slots)?;
        let registers = self.changed(
            has_flag(flags, Field::Registers),
            2,
            u32::from(before.registers),
        )?;
        let untouched = self.changed(
            has_flag(flags, Field::Untouched),
            1,
            u32::from(before.untouched),
        )?;
        let saved = self.saved(has_flag(flags, Field::Saved), before.saved)?;
        Some(Row {
            size,
            slots,
            saved,
            registers: registers as u16,
            untouched: untouched as u8,
        })
    }

    // A row with its point, whether the row is lawful or not.
    #[tactic(auto, unfolding(delta_layout::specs::Parsing::entry_in, delta_layout::specs::Parsing::fields_in))]
    fn entry(&mut self, before: &Entry) -> Option<Entry>
        ensures { Took (entry_in before.now) result self.old self.new }
    {
        let flags = self.byte()?;
        if flags >= FLAGS_END {
            return None;
        }
        let step = self.step(has_flag(flags, Field::Wide))?;
        let point = before.point.checked_add(step)?;
        let row = self.row(flags, &before.row)?;
        Some(Entry { point, row })
    }

    // Goes back to where a bad row begins.
    fn fault(&mut self, start: usize) -> ReaderFault
        ensures { (result.byte ≡ start) × ((self.new.at ≡ start) × (self.new.image.now ≡ self.old.image.now)) }
    {
        let fault = ReaderFault { byte: start };
        self.at = start;
        fault
    }

    // Reads the next row, coded against the row before it, and goes on behind it.
    // Where no lawful row with a higher point is coded, the fault tells its first byte, and the reader stays there.
    pub fn next_row(&mut self, before: &Entry) -> Result<Entry, ReaderFault>
        ensures { MatchResult result (GotRow before.now self.old self.new) (NoRow before.now self.old self.new) }
    {
        let start = self.at;
        match self.entry(before) {
            Some(entry) if entry.row.is_lawful() => Ok(entry),
            _ => Err(self.fault(start)),
        }
    }
}
