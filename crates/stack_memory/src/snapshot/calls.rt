// The calls of a snapshot.
ghost use Rattle.std.specs.Prelude.{◌≡◌, MatchResult};
ghost use Rattle.stack_memory.specs.Making.{MadeSnapshot, NoSnapshot};
ghost use Rattle.stack_memory.specs.Meaning.{snapshot_words};
ghost use Rattle.stack_memory.specs.Parts.{Stored, Kept};
ghost use Rattle.stack_memory.specs.Promises.{Changed, Unchanged};
ghost use Rattle.std.proofs.Common.{arith};
ghost use Rattle.stack_memory.specs.SnapshotSizes.{length_snapshot, words_now_small};

use super::SnapshotMemory;
use crate::{MOST_WORDS, StackMemory};
use refusal::Refusal;
use words::{has_bit, word_at};

impl SnapshotMemory {
    // A memory of the image's words, with a buffer for as many words and a bit map of a bit for each.
    // Refused by 2 if the image is not whole words or has none or more than 8,192, else by 6 if the buffer or the bit map is too short.
    pub fn new(
        image: Vec<u8>,
        buffer: Vec<u32>,
        mut written: Vec<u32>,
    ) -> Result<SnapshotMemory, Refusal>
        ensures { MatchResult result (MadeSnapshot image.items buffer.items written.items) (NoSnapshot image.items buffer.items written.items) }
    {
        let length = image.len() / 4;
        if image.len() % 4 != 0 || !(1..=MOST_WORDS).contains(&length) {
            return Err(Refusal::OutsideLimits);
        }
        let map_length = length.div_ceil(32);
        if buffer.len() < length || written.len() < map_length {
            return Err(Refusal::BadBuffer);
        }
        written[0..map_length].fill(0);
        Ok(SnapshotMemory {
            image,
            buffer,
            written,
        })
    }

    // The image, which is the one that was given.
    pub fn image(&self) -> &[u8]
        ensures { result.now ≡ self.now.image.items }
    {
        self.image.as_slice()
    }

    // The words that were written, each in its place, among others that were given.
    pub fn buffer(&self) -> &[u32]
        ensures { result.now ≡ self.now.buffer.items }
    {
        self.buffer.as_slice()
    }

    // The bit map of the words that were written, low bit first.
    pub fn written(&self) -> &[u32]
        ensures { result.now ≡ self.now.written.items }
    {
        self.written.as_slice()
    }
}

#[tactic(auto, using(crate::specs::SnapshotSizes::length_snapshot))]
impl StackMemory for SnapshotMemory {
    ghost words = { snapshot_words };

    // The sizes that the parts keep bound the words.
    ghost some = { λ m. omega (arith, length_snapshot m, m.imaging.fitting.some, m.image.ok.0) };

    ghost few = { λ m. omega (arith, length_snapshot m, m.imaging.fitting.few, m.image.ok.0) };

    ghost small = { λ m. words_now_small m.image.items m.buffer.items m.written.items m.image_small m.buffer_small };

    fn len(&self) -> usize {
        self.image.len() / 4
    }

    fn read(&self, index: usize) -> Result<u32, Refusal> {
        let original = word_at(self.image.as_slice(), index).ok_or(Refusal::OutOfRange)?;
        if has_bit(self.written[index / 32], (index % 32) as u32) {
            return Ok(self.buffer[index]);
        }
        Ok(original)
    }

    fn write(&mut self, index: usize, word: u32) -> Result<(), Refusal>
        ensures words { MatchResult result (λ _. Changed (snapshot_words self.old) index word (snapshot_words self.new)) (λ e. Unchanged (snapshot_words self.old) index e (snapshot_words self.new)) }
        ensures parts { MatchResult result (λ _. Stored self.old index word self.new) (λ _. Kept self.old self.new) }
    {
        if index >= self.len() {
            return Err(Refusal::OutOfRange);
        }
        // By index and not by `get_mut`: the range is the image's, and the buffer may be longer.
        self.buffer[index] = word;
        self.written[index / 32] |= 1 << (index % 32);
        Ok(())
    }
}
