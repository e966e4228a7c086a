// The row at which the running frame stands.
ghost use Rattle.frames.specs.Standing.{FittingRow};

use frame_map::{FrameMap, Row};
use refusal::Refusal;

// The row of a point for a frame of `size` words, by one lookup: refused by 8 where there is none, by 9 where it describes a frame of another size.
pub fn fitting_row<M: FrameMap>(map: &mut M, point: u32, size: usize) -> Result<Row, Refusal>
    ensures { FittingRow (M.rows map.old) (M.rows map.new) (M.count map.old) (M.count map.new) point size result }
{
    let row = map.lookup(point).ok_or(Refusal::NoRow)?;
    if usize::from(row.size) != size {
        return Err(Refusal::OtherSize);
    }
    Ok(row)
}
