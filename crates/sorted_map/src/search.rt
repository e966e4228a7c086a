// Finding a point's row by halving.
ghost use Rattle.std.specs.Prelude.{◌≡◌};
ghost use Rattle.frame_map.specs.Tables.{Table, row_for};
ghost use Rattle.sorted_map.specs.Decoding.{entries_of};

use crate::check::{ROW_WORDS, entry_of};
use frame_map::Row;

// The row of a point. The stretch that may hold it is halved at each turn, so of 1,024 rows at most 11 are looked at.
// By hand and not by `binary_search_by_key`: that goes on where it has found the row, and does not choose its way by branches, which took two to four times as long in small maps.
pub(crate) fn find(rows: &[[u32; ROW_WORDS]], point: u32) -> Option<Row>
    requires { Table (entries_of rows.now) }
    ensures { result ≡ row_for point (entries_of rows.now) }
{
    let mut low = 0;
    let mut high = rows.len();
    while low < high {
        let middle = (low + high) / 2;
        let entry = entry_of(&rows[middle]);
        let here = u32::from(entry.point);
        if here == point {
            return Some(entry.row);
        }
        if here < point {
            low = middle + 1;
        } else {
            high = middle;
        }
    }
    None
}
