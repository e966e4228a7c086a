// The state of a machine, but for its frame map and its stack memory.
ghost use Rattle.std.specs.Prelude.{◌≡◌, ◌≤◌, length};

use crate::records::{Handler, Marker, Record};
use crate::table::Table;

#[derive(Clone, Copy, PartialEq, Eq, Debug)]
pub enum Phase {
    Unstarted,
    // The script runs.
    Running,
    // A collection has listed the roots.
    Opened,
    // A collection has moved the objects.
    Carried,
}

#[derive(Drop)]
pub struct State {
    pub phase: Phase,
    // Every so many frames a collection puts a marker.
    pub spacing: usize,
    // Where each frame begins in the stack memory, and last where the next would.
    pub edges: Table<u16, 257>,
    pub registers: [u32; 16],
    pub handlers: Table<Handler, 64>,
    // No frame below this one has run since the last collection was closed.
    pub level: usize,
    pub markers: Table<Marker, 64>,
    pub records: Table<Record, 256>,
    ghost some: { 1 ≤ length edges },
    ghost deep: { length edges ≤ 257 },
    ghost sixteen: { length registers ≡ 16 },
    ghost spaced: { 1 ≤ spacing },
}
