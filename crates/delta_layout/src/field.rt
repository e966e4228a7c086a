// What the bit map byte of a row tells.
ghost use Rattle.std.specs.Prelude.{◌≡◌};
ghost use Rattle.delta_layout.specs.Fields.{bit_of};

// The bits of a row's bit map byte, from bit 0 on: each of the first five tells that a field differs, the last that the step takes two bytes.
#[derive(Clone, Copy, PartialEq, Eq, Debug)]
pub enum Field {
    Size,
    Slots,
    Registers,
    Untouched,
    Saved,
    Wide,
}

impl Field {
    // The bit that tells it.
    pub fn bit(self) -> u8
        ensures { result ≡ bit_of self }
    {
        self as u8
    }
}
