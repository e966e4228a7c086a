// Slots of the running frame, and registers.
ghost use Rattle.std.specs.Prelude.{◌≡◌, ◌<◌, MatchResult};
ghost use Rattle.refusal.specs.declared.Refusal.TheVariants.{OutOfRange};
ghost use Rattle.machine.specs.Promises.{view_of, SlotPlace, Gets, Puts, GetsRegister, PutsRegister};

use crate::machine::Machine;
use crate::tokens::Pass;
use frame_map::FrameMap;
use refusal::Refusal;
use stack_memory::StackMemory;

const REGISTERS: u32 = 16;

// The place of a register among all. Asked for by number and not by `get_mut`, which says nothing of what the registers end as.
fn register_place(register: u32) -> Result<usize, Refusal>
    ensures { MatchResult result (λ place. (place ≡ register) × (register < 16)) (λ e. (e ≡ OutOfRange) × (register < 16 → ⊥)) }
{
    if register >= REGISTERS {
        return Err(Refusal::OutOfRange);
    }
    Ok(register as usize)
}

impl<M, S> Machine<M, S> {
    // The place of a slot of the running frame in the memory: slots are 1 to its size - 1.
    fn slot_place(&self, slot: u32) -> Result<usize, Refusal>
        ensures { SlotPlace self.now.state slot result }
    {
        let place = usize::from(self.state.base()) + slot as usize;
        if slot < 1 || place >= usize::from(self.state.top()) {
            return Err(Refusal::OutOfRange);
        }
        Ok(place)
    }
}

impl<M: FrameMap, S: StackMemory> Machine<M, S> {
    // The word in a slot of the running frame.
    pub fn slot(&self, _pass: &Pass, slot: u32) -> Result<u32, Refusal>
        ensures { let view = view_of M.rows M.count S.words in Gets (view self.now) (view self.now) slot result }
    {
        self.running()?;
        let place = self.slot_place(slot)?;
        self.memory.read(place)
    }

    // Puts a word into a slot of the running frame.
    pub fn set_slot(&mut self, _pass: &Pass, slot: u32, word: u32) -> Result<(), Refusal>
        ensures { let view = view_of M.rows M.count S.words in Puts (view self.old) (view self.new) slot word result }
    {
        self.running()?;
        let place = self.slot_place(slot)?;
        self.memory.write(place, word)
    }

    // The word in a register, r0 to r15.
    pub fn register(&self, _pass: &Pass, register: u32) -> Result<u32, Refusal>
        ensures { let view = view_of M.rows M.count S.words in GetsRegister (view self.now) (view self.now) register result }
    {
        self.running()?;
        let place = register_place(register)?;
        Ok(self.state.registers[place])
    }

    // Puts a word into a register.
    pub fn set_register(&mut self, _pass: &Pass, register: u32, word: u32) -> Result<(), Refusal>
        ensures { let view = view_of M.rows M.count S.words in PutsRegister (view self.old) (view self.new) register word result }
    {
        self.running()?;
        let place = register_place(register)?;
        self.state.registers[place] = word;
        Ok(())
    }
}
