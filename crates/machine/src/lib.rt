// A machine: frames, handlers and registers of a running script, over any frame map and any stack memory.
#![tactic(auto)]

mod access;
mod handlers;
mod machine;
mod stack;
mod start;
mod tokens;

pub use machine::Machine;
pub use tokens::Pass;
