// The calls of a live memory.
ghost use Rattle.std.specs.Prelude.{MatchResult};
ghost use Rattle.stack_memory.specs.Making.{MadeLive, NoLive};
ghost use Rattle.stack_memory.specs.Meaning.{live_words};

use super::LiveMemory;
use crate::{MOST_WORDS, StackMemory};
use refusal::Refusal;

impl LiveMemory {
    // A memory of these words as they are; refused by 2 exactly if there are none or more than 8,192.
    pub fn new(words: Vec<u32>) -> Result<LiveMemory, Refusal>
        ensures { MatchResult result (MadeLive words.items) (NoLive words.items) }
    {
        if !(1..=MOST_WORDS).contains(&words.len()) {
            return Err(Refusal::OutsideLimits);
        }
        Ok(LiveMemory { cells: words })
    }
}

impl StackMemory for LiveMemory {
    ghost words = { live_words };

    ghost some = { λ m. m.fitting.some };

    ghost few = { λ m. m.fitting.few };

    ghost small = { λ m. m.small };

    fn len(&self) -> usize {
        self.cells.len()
    }

    fn read(&self, index: usize) -> Result<u32, Refusal> {
        self.cells.get(index).copied().ok_or(Refusal::OutOfRange)
    }

    fn write(&mut self, index: usize, word: u32) -> Result<(), Refusal> {
        let Some(cell) = self.cells.get_mut(index) else {
            return Err(Refusal::OutOfRange);
        };
        *cell = word;
        Ok(())
    }
}
