// A heap of objects with pointer fields and plain fields, collected by copying.
#![tactic(auto)]

mod buffers;
mod collect;
mod copy;
mod halves;
mod objects;
mod queries;
mod state;

pub use state::Heap;
