// Finding a point's row in its bucket.
ghost use Rattle.std.specs.Prelude.{◌≡◌, List};
ghost use Rattle.frame_map.specs.Tables.{row_for};
ghost use Rattle.frame_map.specs.declared.row.Entry.{Entry};
ghost use Rattle.delta_image.specs.Buckets.{DeltaMeans};

use crate::rows::BucketRows;
use delta_image::bucket;
use frame_map::Row;

// The row of a point: only its bucket is read, up to the point or the first beyond it.
pub(crate) fn find(image: &[u8], point: u16) -> Option<Row>
    requires { (es : List Entry) × DeltaMeans image.now es }
    ensures { (es : List Entry) → DeltaMeans image.now es → result ≡ row_for point es }
{
    let mut rows = BucketRows::new(image, bucket(point));
    while let Ok(Some(entry)) = rows.next_row() {
        if entry.point == point {
            return Some(entry.row);
        }
        if entry.point > point {
            return None;
        }
    }
    None
}
