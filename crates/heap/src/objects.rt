// Objects in a heap: made, read and written by place.
ghost use Rattle.std.specs.Prelude.{vec_len};
ghost use Rattle.heap.specs.Calls.{NewAnswer, MakeAnswer, FindAnswer, LoadAnswer, StoreAnswer};

use crate::buffers::write_object;
use crate::halves::Halves;
use crate::state::Heap;
use heap_model::{refs_of, size_of};
use refusal::Refusal;

// A heap has at least and at most so many words.
const LEAST: usize = 16;

const MOST: usize = 16_384;

// An object has at most so many fields of each kind.
const MOST_FIELDS: u32 = 255;

impl Heap {
    // An empty heap in two buffers of equal length; `starts` has a flag for each word.
    pub fn new(first: Vec<u32>, second: Vec<u32>, starts: Vec<bool>) -> Result<Heap, Refusal>
        ensures { NewAnswer (vec_len first) (vec_len second) (vec_len starts) result }
    {
        if !(LEAST..=MOST).contains(&first.len()) {
            return Err(Refusal::OutsideLimits);
        }
        if second.len() != first.len() || starts.len() != first.len() {
            return Err(Refusal::BadBuffer);
        }
        let halves = Halves {
            words: first,
            idle: second,
            starts,
            used: 0,
        };
        Ok(Heap { halves })
    }

    // Makes an object with fields 0 behind the others, and answers its place.
    pub fn make(&mut self, refs: u32, plain: u32) -> Result<u32, Refusal>
        ensures { MakeAnswer self.old self.new refs plain result }
    {
        if refs > MOST_FIELDS || plain > MOST_FIELDS {
            return Err(Refusal::OutOfRange);
        }
        let at = self.halves.used;
        let size = 1 + (refs as usize + plain as usize);
        if size > self.halves.words.len() - at {
            return Err(Refusal::HeapFull);
        }
        write_object(&mut self.halves.words, at, size, refs * 65536 + plain, 0);
        write_object(&mut self.halves.starts, at, size, true, false);
        self.halves.used = at + size;
        Ok(at as u32 + 1)
    }

    // Where field `field` of the object at `place` stands.
    fn find(&self, place: u32, field: u32) -> Result<usize, Refusal>
        ensures { FindAnswer self.now place field result }
    {
        if !self.is_place(place) {
            return Err(Refusal::NoObject);
        }
        if field as usize + 1 >= size_of(self.halves.words[place as usize - 1]) {
            return Err(Refusal::OutOfRange);
        }
        Ok(place as usize + field as usize)
    }

    // Field `field` of the object at `place`; its pointer fields come first.
    pub fn load(&self, place: u32, field: u32) -> Result<u32, Refusal>
        ensures { LoadAnswer self.now place field result }
    {
        let at = self.find(place, field)?;
        Ok(self.halves.words[at])
    }

    // Writes a field of the object at `place`; a pointer field takes 0 or an object's place.
    pub fn store(&mut self, place: u32, field: u32, word: u32) -> Result<(), Refusal>
        ensures { StoreAnswer self.old self.new place field word result }
    {
        let at = self.find(place, field)?;
        let refs = refs_of(self.halves.words[place as usize - 1]);
        if (field as usize) < refs && !self.is_pointer(word) {
            return Err(Refusal::NotPointer { root: None });
        }
        self.halves.words[at] = word;
        Ok(())
    }
}
