// A collection: the live objects are packed into the idle buffer, in the order in which they are first mentioned.
ghost use Rattle.std.specs.Option.{MatchOption};
ghost use Rattle.heap.specs.Content.{content};
ghost use Rattle.heap.specs.Calls.{Pointers, FirstBad, CollectAnswer};

use crate::state::Heap;
use refusal::Refusal;

impl Heap {
    // The first root word that is neither 0 nor an object's place.
    fn first_bad(&self, roots: &[u32]) -> Option<usize>
        ensures { MatchOption result (Pointers (content self.now) roots.now) (λ i. FirstBad (content self.now) roots.now i) }
    {
        roots.iter().position(|word| !self.is_pointer(*word))
    }

    // Keeps the objects that the root words reach and no others, packed, and renames the root words with them.
    pub fn collect(&mut self, roots: &mut [u32]) -> Result<(), Refusal>
        ensures { CollectAnswer self.old self.new roots.old roots.new result }
    {
        if let Some(root) = self.first_bad(roots) {
            return Err(Refusal::NotPointer { root: Some(root) });
        }
        self.halves.copy_live(roots);
        Ok(())
    }
}
