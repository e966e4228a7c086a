// How a row of a compact map image is coded against the row before it.
#![tactic(auto)]

ghost use Rattle.std.specs.Prelude.{◌≡◌};
ghost use Rattle.delta_layout.specs.Codes.{origin};

use frame_map::{Entry, Row};

mod field;

pub use field::Field;

// The largest step that takes one byte.
pub const NARROW_END: u32 = 255;

// What the first row of a bucket is coded against.
pub fn first_before() -> Entry
    ensures { result ≡ origin }
{
    Entry {
        point: 0,
        row: Row {
            size: 1,
            slots: 0,
            saved: [0; 8],
            registers: 0,
            untouched: 0,
        },
    }
}
