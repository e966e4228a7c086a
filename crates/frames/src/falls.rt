// What the state keeps when frames are gone.
ghost use Rattle.std.specs.Prelude.{◌≡◌, ◌-◌, MatchBool, ◌≢◌, slice_index};
ghost use Rattle.frames.specs.Falling.{Fell, NewestOf};
ghost use Rattle.frames.specs.Fresh.{Fresh};
ghost use Rattle.frames.specs.Tables.{records, depth};
ghost use Rattle.frames.specs.declared.state.Phase.TheVariants.{Unstarted, Running};

use crate::records::{Handler, Marker, Record};
use crate::state::{Phase, State};
use crate::table::Table;

impl State {
    // A state in this phase with one frame of `size` words and empty tables; a spacing of 0 counts as 1.
    pub fn new(phase: Phase, spacing: usize, size: u16) -> State
        ensures { Fresh phase spacing size result }
    {
        let mut edges = Table::new(0);
        let _ = edges.push(0);
        let _ = edges.push(size);
        State {
            phase,
            spacing: spacing.max(1),
            edges,
            registers: [0; 16],
            handlers: Table::new(Handler::default()),
            level: 0,
            markers: Table::new(Marker::default()),
            records: Table::new(Record::default()),
        }
    }

    // Whether the script runs.
    pub fn is_running(&self) -> bool
        ensures { MatchBool result (self.now.phase ≡ Running) (self.now.phase ≢ Running) }
    {
        self.phase == Phase::Running
    }

    // Whether a start was accepted before.
    pub fn is_started(&self) -> bool
        ensures { MatchBool result (self.now.phase ≢ Unstarted) (self.now.phase ≡ Unstarted) }
    {
        self.phase != Phase::Unstarted
    }

    // Whether the newest handler is one of this frame.
    pub fn has_handler(&self, frame: usize) -> bool
        ensures { NewestOf (records self.now.handlers) frame result }
    {
        self.handlers
            .newest()
            .is_some_and(|handler| handler.frame == frame)
    }

    // How many frames there are.
    pub fn depth(&self) -> usize
        ensures { result ≡ depth self.now }
    {
        self.edges.len() - 1
    }

    // The number of the running frame, or 0 where there is none.
    pub fn newest(&self) -> usize
        ensures { result ≡ depth self.now - 1 }
    {
        self.depth().saturating_sub(1)
    }

    // Where the running frame begins.
    pub fn base(&self) -> u16
        ensures { result ≡ slice_index self.now.edges (depth self.now - 1) }
    {
        self.edges.entries()[self.newest()]
    }

    // Where the next frame would begin.
    pub fn top(&self) -> u16
        ensures { result ≡ slice_index self.now.edges (depth self.now) }
    {
        self.edges.entries()[self.depth()]
    }

    // How many words the running frame has.
    pub fn size(&self) -> usize
        ensures { result ≡ slice_index self.now.edges (depth self.now) - slice_index self.now.edges (depth self.now - 1) }
    {
        usize::from(self.top().saturating_sub(self.base()))
    }

    // Removes every frame above `frame`, with what was kept of it, and lowers the low-water mark to `frame`.
    pub fn fall_to(&mut self, frame: usize)
        ensures { Fell frame self.old self.new }
    {
        self.edges.truncate(frame.saturating_add(2));
        self.level = self.level.min(frame);
        self.handlers.drop_above(frame);
        self.markers.drop_above(frame);
        self.records.drop_above(frame);
    }
}
