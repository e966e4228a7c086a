// Cheney's copy: objects move from one half to the other, and a moved object's old header tells its new place.
ghost use Rattle.std.specs.Prelude.{ℕ, ◌+◌, ◌<◌, List, [], ◌∷◌, ◌++◌, length, slice_index};
ghost use Rattle.heap_model.specs.Objects.{Space, Place, Pointer, size_in};
ghost use Rattle.heap_model.specs.Live.{Member};
ghost use Rattle.heap_model.specs.Moving.{Moving, Scanning, Rooting};
ghost use Rattle.heap_model.specs.Steps.{Waits, Movable, Forwarded, Scannable, Scanned, Unscanned, Finished, Unmoved, Rooted, Gathered};
ghost use Rattle.heap.specs.Buffers.{begun, moving, moved};

use crate::buffers::write_object;
use crate::halves::Halves;
use heap_model::{refs_of, size_of};

// What a moved object's old header holds above its new place.
const FORWARDED: u32 = 0x8000_0000;

impl Halves {
    // Moves the object at `place` behind the words of the copy.
    fn move_object(&mut self, place: usize)
        requires { Waits (moving self.old) place }
        ensures { (s : Space) (scan : ℕ) (ps : List ℕ) → Moving s (moving self.old) scan ps → Place s place → (Member place ps → ⊥) → Moving s (moving self.new) scan (ps ++ place ∷ []) }
    {
        let at = place - 1;
        let free = self.used;
        let size = size_of(self.words[at]);
        self.idle[free..free + size].copy_from_slice(&self.words[at..at + size]);
        write_object(&mut self.starts, free, size, true, false);
        self.words[at] = FORWARDED + free as u32 + 1;
        self.used = free + size;
    }

    // What a root word or a pointer field becomes: 0 stays, an object's place becomes its new one, and the object moves if it has not yet.
    fn forward(&mut self, word: u32) -> u32
        requires { Movable (moving self.old) word }
        ensures { (s : Space) (scan : ℕ) (ps : List ℕ) → Moving s (moving self.old) scan ps → Pointer s word → Forwarded s (moving self.new) scan ps word result }
    {
        if word == 0 {
            return 0;
        }
        let header = self.words[word as usize - 1];
        if header >= FORWARDED {
            return header - FORWARDED;
        }
        let place = self.used as u32 + 1;
        self.move_object(word as usize);
        place
    }

    // Forwards the pointer fields of the copied object whose header stands at `scan`.
    // By index, since forwarding a field writes to the buffer that the fields stand in.
    fn scan_object(&mut self, scan: usize)
        requires { Scannable (moving self.old) scan }
        ensures { (s : Space) (roots ps : List ℕ) (k : ℕ) → Scanning s roots (moving self.old) scan ps k → k < length ps → Scanned s roots ps (moving self.new) (scan + size_in (slice_index self.old.idle.items scan)) (k + 1) }
    {
        let refs = refs_of(self.idle[scan]);
        for at in scan + 1..scan + 1 + refs {
            let word = self.idle[at];
            self.idle[at] = self.forward(word);
        }
    }

    // Scans every object of the copy in turn, those too that move meanwhile, so by an index up to an end that rises.
    fn scan_all(&mut self)
        requires { Unscanned (moving self.old) }
        ensures { (s : Space) (roots ps : List ℕ) → Scanning s roots (moving self.old) 0 ps 0 → Finished s roots ps (moving self.new) }
    {
        let mut scan = 0;
        while scan < self.used {
            let size = size_of(self.idle[scan]);
            self.scan_object(scan);
            scan += size;
        }
    }

    // Forwards every root word in turn. By index, as fields are: where a loop begins is then a number, and an edit of it is refused for what it leaves out.
    fn forward_roots(&mut self, roots: &mut [u32])
        requires { Unmoved (moving self.old) roots.old }
        ensures { (s : Space) → Rooting s roots.old roots.old (moving self.old) [] 0 → Rooted s roots.old roots.new (moving self.new) (length roots.old) }
    {
        for i in 0..roots.len() {
            roots[i] = self.forward(roots[i]);
        }
    }

    // Copies the objects that the root words reach, renames the root words, and exchanges the halves.
    pub(crate) fn copy_live(&mut self, roots: &mut [u32])
        requires { Unmoved (begun self.old) roots.old }
        ensures { (s : Space) → Rooting s roots.old roots.old (begun self.old) [] 0 → Gathered s roots.old roots.new (moved self.new) }
    {
        self.used = 0;
        self.forward_roots(roots);
        self.scan_all();
        std::mem::swap(&mut self.words, &mut self.idle);
    }
}
