// What a heap holds, looked at.
ghost use Rattle.std.specs.Prelude.{◌≡◌, take, MatchBool};
ghost use Rattle.heap_model.specs.Objects.{Place, Pointer, Gapless};
ghost use Rattle.heap.specs.Content.{content, room};

use crate::state::Heap;

impl Heap {
    // How many words the objects take.
    pub fn used(&self) -> usize
        ensures { result ≡ (content self.now).used }
    {
        self.halves.used
    }

    // How many words there is room for.
    pub fn capacity(&self) -> usize
        ensures { result ≡ room self.now }
    {
        self.halves.words.len()
    }

    // The used words: the objects one behind the other, from index 0 and without gaps.
    pub fn words(&self) -> &[u32]
        ensures value { result.now ≡ take (content self.now).used (content self.now).words }
        ensures gapless { Gapless (content self.now) }
    {
        &self.halves.words[..self.halves.used]
    }

    // Whether a word is an object's place.
    pub fn is_place(&self, word: u32) -> bool
        ensures { MatchBool result (Place (content self.now) word) (Place (content self.now) word → ⊥) }
    {
        word != 0 && word as usize <= self.halves.used && self.halves.starts[word as usize - 1]
    }

    // Whether a word may stand in a pointer field or in a root: it is 0 or an object's place.
    pub(crate) fn is_pointer(&self, word: u32) -> bool
        ensures { MatchBool result (Pointer (content self.now) word) (Pointer (content self.now) word → ⊥) }
    {
        word == 0 || self.is_place(word)
    }
}
