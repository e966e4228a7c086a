// The sorted map: an image of rows by rising point, searched by halving.
#![tactic(auto)]

mod check;
mod load;
mod map;
mod methods;
mod search;

pub use check::{ROW_WORDS, check_sorted};
pub use frame_map::MAX_ROWS;
pub use load::{LoadError, load_sorted};
pub use map::SortedMap;
