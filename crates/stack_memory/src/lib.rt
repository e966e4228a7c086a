// Stack memories: a fixed number of words of 32 bits, 1 to 8,192, that are read and written one at a time.
#![tactic(auto)]

ghost use Rattle.std.specs.Prelude.{◌≡◌, ℕ, ◌^◌, ◌<◌, ◌≤◌, List, length, MatchResult, slice_index};
ghost use Rattle.stack_memory.specs.Promises.{Found, NoWord, Changed, Unchanged};

use refusal::Refusal;

mod live;
mod snapshot;

pub use live::LiveMemory;
pub use snapshot::SnapshotMemory;

// The most words that a memory has.
pub const MOST_WORDS: usize = 8192;

pub trait StackMemory {
    // The words, word 0 first. Their number never changes.
    ghost words: { Self → List ℕ };

    // How many words there are.
    fn len(&self) -> usize
        ensures { result ≡ length (words self.now) };

    // Word `index`, or refusal 5 where there is none.
    fn read(&self, index: usize) -> Result<u32, Refusal>
        ensures { MatchResult result (Found (words self.now) index) (NoWord (words self.now) index) };

    // Puts `word` into place `index`, or refuses by 5 where there is none.
    fn write(&mut self, index: usize, word: u32) -> Result<(), Refusal>
        ensures { MatchResult result (λ _. Changed (words self.old) index word (words self.new)) (λ e. Unchanged (words self.old) index e (words self.new)) };

    ghost some: { (m : Self) → 1 ≤ length (words m) };

    ghost few: { (m : Self) → length (words m) ≤ 8192 };

    ghost small: { (m : Self) (i : ℕ) → slice_index (words m) i < 2 ^ 32 };
}

#[cfg(test)]
mod tests {
    use super::*;
    use std::alloc::{AllocError, Global};
    use std::test::Fail;

    const PAST: Result<u32, Refusal> = Err(Refusal::OutOfRange);

    #[test]
    fn live_words(rt: HostRuntime) -> Result<(), Fail> {
        let mut memory = LiveMemory::new(vec![in rt.alloc(); 7, 8]?)?;
        assert_eq!(rt; memory.write(2, 1), Err(Refusal::OutOfRange));
        memory.write(1, 9)?;
        assert_eq!(rt;
            [memory.read(0), memory.read(1), memory.read(2)],
            [Ok(7), Ok(9), PAST]
        );
        Ok(())
    }

    #[test]
    fn snapshot_words(rt: HostRuntime) -> Result<(), Fail> {
        let heap = rt.alloc();
        let image = [1, 2, 3, 4, 5, 6, 7, 8].to_vec(heap)?;
        let mut memory = SnapshotMemory::new(image, vec![in heap; 0; 2]?, vec![in heap; 3]?)?;
        let before = memory.read(0);
        memory.write(0, 9)?;
        let after = [before, memory.read(0), memory.read(1), memory.read(2)];
        assert_eq!(rt; after, [Ok(0x0403_0201), Ok(9), Ok(0x0807_0605), PAST]);
        assert_eq!(rt; memory.image(), [1, 2, 3, 4, 5, 6, 7, 8].as_slice());
        Ok(())
    }

    // The number of the reason for which these words are no live memory.
    fn refused(words: Vec<u32>) -> Option<u8> {
        LiveMemory::new(words).err().map(|reason| reason.number())
    }

    #[test]
    fn live_limits(rt: HostRuntime) -> Result<(), Fail> {
        assert_eq!(rt; refused(vec![in rt.alloc(); 0; 8193]?), Some(2));
        assert_eq!(rt; refused(vec![in rt.alloc(); 0; 8192]?), None);
        assert_eq!(rt; refused(vec![in rt.alloc()]?), Some(2));
        Ok(())
    }

    // The number of the reason for which an image of so many bytes, with buffers of so many words, is no snapshot.
    fn barred(
        heap: Global,
        bytes: usize,
        count: usize,
        bits: usize,
    ) -> Result<Option<u8>, AllocError> {
        let image = vec![in heap; 0; bytes]?;
        let made = SnapshotMemory::new(image, vec![in heap; 0; count]?, vec![in heap; 0; bits]?);
        Ok(made.err().map(|reason| reason.number()))
    }

    #[test]
    fn snapshot_limits(rt: HostRuntime) -> Result<(), Fail> {
        assert_eq!(rt; barred(rt.alloc(), 5, 2, 1)?, Some(2));
        assert_eq!(rt; barred(rt.alloc(), 132, 32, 2)?, Some(6));
        assert_eq!(rt; barred(rt.alloc(), 132, 33, 1)?, Some(6));
        Ok(())
    }
}
