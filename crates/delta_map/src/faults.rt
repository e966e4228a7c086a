// A fault in a delta image travels up: the reader's, the map's, the refusal.
ghost use Rattle.std.specs.Prelude.{◌≡◌};
ghost use Rattle.refusal.specs.declared.Refusal.TheVariants.{BadImage};
ghost use Rattle.delta_map.specs.Faults.{delta_fault};

use delta_code::ReaderFault;
use refusal::{ImageFault, Place, Refusal};

// The first bad start or row: its row, counted from 0 over the whole image, and the byte at which it begins.
#[derive(Clone, Copy, Debug)]
pub struct MapFault {
    pub row: usize,
    pub byte: usize,
}

// The reader tells the byte; the map adds the row.
impl From<(usize, ReaderFault)> for MapFault {
    ghost from_gives = { λ f r. (r.row ≡ f.0) × (r.byte ≡ f.1.byte) };

    fn from(f: (usize, ReaderFault)) -> MapFault {
        let (row, ReaderFault { byte }) = f;
        MapFault { row, byte }
    }
}

impl From<MapFault> for Refusal {
    ghost from_gives = { λ f r. r ≡ BadImage (delta_fault f.row f.byte) };

    fn from(f: MapFault) -> Refusal {
        let MapFault { row, byte } = f;
        let place = Place::Byte(byte);
        Refusal::BadImage(ImageFault { row, place })
    }
}
