// The starts of a delta image.
ghost use Rattle.std.specs.Prelude.{◌≡◌, ◌+◌, ◌*◌, ◌≤◌, length, MatchOption, MatchResult};
ghost use Rattle.delta_image.specs.Images.{start_in, GoodStarts};
ghost use Rattle.delta_map.specs.Faults.{StartFault};
ghost use Rattle.delta_map.specs.Starting.{NextStart};

use crate::faults::MapFault;

// An image has 64 buckets.
pub const BUCKETS: usize = 64;
// The rows begin behind 65 starts of two bytes.
pub const FIRST_START: usize = 130;

// Start `k`: where the rows of bucket `k` begin. By index: its callers know that the bytes are there, and a `get` among pairs of bytes would ask them what to do where they are not.
pub(crate) fn start_at(image: &[u8], k: usize) -> usize
    requires { 2 * k + 2 ≤ length image.now }
    ensures { result ≡ start_in image.now k }
{
    usize::from(u16::from_le_bytes([image[2 * k], image[2 * k + 1]]))
}

// Start `k`, if it keeps the rules behind a start at `last`.
fn next_start(image: &[u8], k: usize, last: usize) -> Option<usize>
    requires { k ≤ 64 }
    ensures { MatchOption result (NextStart image.now k last → ⊥) (λ s. NextStart image.now k last × (s ≡ start_in image.now k)) }
{
    if image.len() < 2 * k + 2 {
        return None;
    }
    let start = start_at(image, k);
    if k == 0 && start != FIRST_START {
        return None;
    }
    if k > 0 && start < last {
        return None;
    }
    if k == BUCKETS && start != image.len() {
        return None;
    }
    Some(start)
}

// Checks the 65 starts; a bad one is told by its first byte, at row 0.
pub(crate) fn check_starts(image: &[u8]) -> Result<(), MapFault>
    ensures { MatchResult result (λ _. GoodStarts image.now 65) (λ f. StartFault image.now f.row f.byte) }
{
    let mut last = 0;
    // By number: a start that a short image lacks has to be told too, and an iterator over the image's pairs of bytes would end before it.
    for k in 0..=BUCKETS {
        last = next_start(image, k, last).ok_or(MapFault {
            row: 0,
            byte: 2 * k,
        })?;
    }
    Ok(())
}
