// The delta map: compact images of rows in buckets.
#![tactic(auto)]

mod check;
mod faults;
mod map;
mod methods;
mod rows;
mod search;
mod starts;

pub use check::check_delta;
pub use faults::MapFault;
pub use map::DeltaMap;
