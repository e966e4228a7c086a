// The check of a whole delta image, bucket by bucket and row by row.
ghost use Rattle.std.specs.Prelude.{suc, ◌<◌, MatchResult};
ghost use Rattle.delta_image.specs.Images.{start_in, GoodFront, BadRow};
ghost use Rattle.delta_map.specs.Faults.{RefusedDelta, HasDeltaRows};

use crate::faults::MapFault;
use crate::rows::BucketRows;
use crate::starts::{BUCKETS, check_starts};
use delta_image::bucket;
use frame_map::MAX_ROWS;
use refusal::Refusal;

// Checks the rows of a bucket, behind `count` rows of earlier buckets, and answers how many there are then.
fn check_bucket(image: &[u8], place: usize, mut count: usize) -> Result<usize, MapFault>
    requires inside { place < 64 }
    requires front { GoodFront image.now place (start_in image.now place) count }
    ensures { MatchResult result (GoodFront image.now (suc place) (start_in image.now (suc place))) (λ f. BadRow image.now f.row f.byte) }
{
    let mut rows = BucketRows::new(image, place);
    loop {
        let byte = rows.at();
        let row = rows
            .next_row()
            .map_err(|fault| MapFault::from((count, fault)))?;
        let Some(entry) = row else {
            return Ok(count);
        };
        if count >= MAX_ROWS || bucket(entry.point) != place {
            return Err(MapFault { row: count, byte });
        }
        count += 1;
    }
}

// Checks a delta image and answers how many rows it has. A bad one is refused with its first bad start or row.
pub fn check_delta(image: &[u8]) -> Result<usize, Refusal>
    ensures { MatchResult result (HasDeltaRows image.now) (RefusedDelta image.now) }
{
    check_starts(image)?;
    let mut rows = 0;
    // By number, since a row must have a point of its bucket.
    for place in 0..BUCKETS {
        rows = check_bucket(image, place, rows)?;
    }
    Ok(rows)
}
