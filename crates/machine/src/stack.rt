// Frames enter and leave.
ghost use Rattle.std.specs.Prelude.{◌≡◌, MatchOption};
ghost use Rattle.frames.specs.Reasons.{FairSize};
ghost use Rattle.machine.specs.Promises.{view_of, Enters, Leaves};

use crate::machine::Machine;
use crate::tokens::Pass;
use frame_map::{FrameMap, MAX_SIZE};
use frames::{fitting_row, lay_frame, return_address};
use refusal::Refusal;
use stack_memory::StackMemory;

// How many words a frame has, where a frame may have so many.
pub(crate) fn frame_size(size: u32) -> Option<u8>
    ensures { MatchOption result (FairSize size → ⊥) (λ words. (words ≡ size) × FairSize size) }
{
    if !(1..=u32::from(MAX_SIZE)).contains(&size) {
        return None;
    }
    Some(size as u8)
}

impl<M: FrameMap, S: StackMemory> Machine<M, S> {
    // Makes the running frame wait at `point`, and a frame of `size` words run, its slots 0.
    pub fn enter(&mut self, _pass: &Pass, point: u32, size: u32) -> Result<(), Refusal>
        ensures { let view = view_of M.rows M.count S.words in Enters (view self.old) (view self.new) point size result }
    {
        self.running()?;
        let size = frame_size(size).ok_or(Refusal::OutOfRange)?;
        let top = self.state.top();
        let end = usize::from(top) + usize::from(size);
        if self.state.edges.is_full() || end > self.memory.len() {
            return Err(Refusal::NoRoom);
        }
        fitting_row(&mut self.map, point, self.state.size())?;
        lay_frame(&mut self.memory, top, size, point);
        let _ = self.state.edges.push(end as u16);
        Ok(())
    }

    // Removes the running frame, and answers the point where the frame before it waited.
    pub fn leave(&mut self, _pass: &Pass) -> Result<u32, Refusal>
        ensures { let view = view_of M.rows M.count S.words in Leaves (view self.old) (view self.new) result }
    {
        self.running()?;
        let frame = self.state.newest();
        if frame < 1 {
            return Err(Refusal::NothingThere);
        }
        if self.state.has_handler(frame) {
            return Err(Refusal::HandlerStands);
        }
        let point = return_address(&self.memory, &self.state, frame).ok_or(Refusal::NothingThere)?;
        let _ = self.map.lookup(point);
        self.state.fall_to(frame - 1);
        Ok(point)
    }
}
