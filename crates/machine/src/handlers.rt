// Handlers of exceptions.
ghost use Rattle.machine.specs.Promises.{view_of, Tries, Untries, Raises};

use crate::machine::Machine;
use crate::tokens::Pass;
use frame_map::FrameMap;
use frames::{Handler, fitting_row};
use refusal::Refusal;
use stack_memory::StackMemory;

impl<M: FrameMap, S: StackMemory> Machine<M, S> {
    // Adds a handler of the running frame: a raise makes it run on at `point`.
    pub fn try_at(&mut self, _pass: &Pass, point: u32) -> Result<(), Refusal>
        ensures { let view = view_of M.rows M.count S.words in Tries (view self.old) (view self.new) point result }
    {
        self.running()?;
        if self.state.handlers.is_full() {
            return Err(Refusal::NoRoom);
        }
        fitting_row(&mut self.map, point, self.state.size())?;
        let frame = self.state.newest();
        let _ = self.state.handlers.push(Handler { frame, point });
        Ok(())
    }

    // Removes the newest handler, which must be the running frame's.
    pub fn untry(&mut self, _pass: &Pass) -> Result<(), Refusal>
        ensures { let view = view_of M.rows M.count S.words in Untries (view self.old) (view self.new) result }
    {
        self.running()?;
        if !self.state.has_handler(self.state.newest()) {
            return Err(Refusal::NothingThere);
        }
        self.state.handlers.pop();
        Ok(())
    }

    // Removes the newest handler and every frame above its frame, which runs on at the handler's point.
    pub fn raise(&mut self, _pass: &Pass) -> Result<Handler, Refusal>
        ensures { let view = view_of M.rows M.count S.words in Raises (view self.old) (view self.new) result }
    {
        self.running()?;
        let handler = self.state.handlers.pop().ok_or(Refusal::NothingThere)?;
        self.state.fall_to(handler.frame);
        Ok(handler)
    }
}
