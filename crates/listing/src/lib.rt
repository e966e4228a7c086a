// Decoding the frames of a stack by the map's rows.
#![tactic(auto)]

mod decode;

pub use decode::decode_from;
