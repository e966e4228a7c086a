// The interface of a frame map. Code above is generic over it and knows no map in particular.
ghost use Rattle.std.specs.Prelude.{◌≡◌, ℕ, ◌+◌, ◌%◌, ◌^◌, ◌<◌, IfOk, Some, OnOk};
ghost use Rattle.frame_map.specs.Maps.{Rows, Point, LookedUp, entries_below};
ghost use Rattle.frame_map.specs.Rows.{Lawful};
ghost use Rattle.frame_map.specs.declared.row.Row.{Row};

use crate::row::{Entry, Row};
use std::alloc::{AllocError, Global};

// A map from points to rows that counts how often it was asked.
pub trait FrameMap {
    // The row of each point, or none.
    ghost rows: { Self → Rows };

    // How many lookups there were, modulo 2^32.
    ghost count: { Self → ℕ };

    // The row of a point. Any word may be asked for; one that is no point has no row.
    fn lookup(&mut self, point: u32) -> Option<Row>
        ensures { LookedUp (rows self.old) (rows self.new) (count self.old) (count self.new) point result };

    // The lookup count.
    fn lookups(&self) -> u32
        ensures { result ≡ count self.now };

    ghost lawful: { (m : Self) (p : ℕ) (r : Row) → rows m p ≡ Some r → Lawful r };

    ghost pointed: { (m : Self) (p : ℕ) (r : Row) → rows m p ≡ Some r → Point p };

    ghost small: { (m : Self) → count m < 2 ^ 32 };
}

// Every row of a map, by rising point.
pub fn entries<M: FrameMap>(map: &mut M, heap: Global) -> Result<Vec<Entry>, AllocError>
    ensures same { M.rows map.new ≡ M.rows map.old }
    ensures counted { OnOk result (M.count map.new ≡ (M.count map.old + 2 ^ 16) % 2 ^ 32) }
    ensures listed { IfOk result (λ v. v.items ≡ entries_below (M.rows map.old) (2 ^ 16)) }
{
    let mut found = Vec::new(heap);
    for point in 0..1u32 << 16 {
        if let Some(row) = map.lookup(point) {
            let point = point as u16;
            found.push(Entry { point, row })?;
        }
    }
    Ok(found)
}
