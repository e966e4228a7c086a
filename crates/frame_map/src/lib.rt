// Frame maps: what a frame that stands at a point of the script's code holds.
#![tactic(auto)]

mod map;
mod row;
mod show;

pub use map::{FrameMap, entries};
pub use row::{Entry, MAX_ROWS, MAX_SIZE, Row};
