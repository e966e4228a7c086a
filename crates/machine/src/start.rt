// Making and starting a machine.
ghost use Rattle.std.specs.Prelude.{◌≡◌};
ghost use Rattle.frames.specs.declared.state.Phase.TheVariants.{Unstarted};
ghost use Rattle.machine.specs.Promises.{view_of, Starts};

use crate::machine::Machine;
use crate::stack::frame_size;
use crate::tokens::Pass;
use frame_map::FrameMap;
use frames::{Phase, State, lay_frame};
use refusal::Refusal;
use stack_memory::StackMemory;

// Markers stand so many frames apart.
const MIN_SPACING: u32 = 4;

const MAX_SPACING: u32 = 64;

impl<M: FrameMap, S: StackMemory> Machine<M, S> {
    // A machine that is not started. It owns its map and its memory.
    pub fn new(map: M, memory: S) -> Machine<M, S>
        ensures map_is { result.map ≡ map }
        ensures memory_is { result.memory ≡ memory }
        ensures fresh { result.state.phase ≡ Unstarted }
    {
        let state = State::new(Phase::Unstarted, 4, 0);
        Machine { map, memory, state }
    }

    // Starts the script: one frame of `size` words and the registers, all 0.
    pub fn start(&mut self, spacing: u32, size: u32) -> Result<Pass, Refusal>
        ensures { let view = view_of M.rows M.count S.words in Starts (view self.old) (view self.new) spacing size result }
    {
        if self.state.is_started() {
            return Err(Refusal::WrongPhase);
        }
        if !(MIN_SPACING..=MAX_SPACING).contains(&spacing) {
            return Err(Refusal::OutsideLimits);
        }
        let size = frame_size(size).ok_or(Refusal::OutsideLimits)?;
        if usize::from(size) > self.memory.len() {
            return Err(Refusal::OutsideLimits);
        }
        lay_frame(&mut self.memory, 0, size, 0);
        self.state = State::new(Phase::Running, spacing as usize, u16::from(size));
        Ok(Pass { collections: 0 })
    }
}
