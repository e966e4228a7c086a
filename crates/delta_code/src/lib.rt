// A reader of the rows of a compact map image, each coded against the row before it.
#![tactic(auto)]

mod reader;

pub use reader::{Reader, ReaderFault};
