// The state of a machine: its frames, registers, handlers, markers and what was learned of its frames; and the model that it stands for.
#![tactic(auto)]

mod falls;
mod fitting;
mod memory;
mod records;
mod rows;
mod state;
mod table;
mod tables;

pub use fitting::fitting_row;
pub use memory::{lay_frame, return_address};
pub use records::{Handler, Marker, Record};
pub use rows::Framed;
pub use state::{Phase, State};
pub use table::Table;
