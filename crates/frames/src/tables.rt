// What a table of records does.
ghost use Rattle.std.specs.Prelude.{◌≡◌, ◌==◌, ◌<◌, ◌≤◌, List, [], ◌∷◌, ◌++◌, length, take, MatchOption, MatchResult, slice_index_or};
ghost use Rattle.arrayvec.specs.CapacityError.{error_element};
ghost use Rattle.frames.specs.Tables.{records, Newest, DroppedAbove};

use crate::rows::Framed;
use crate::table::Table;
use arrayvec::CapacityError;

impl<R: Copy, const N: usize> Table<R, N> {
    // A table without records. The blank record fills its items and means nothing.
    pub fn new(blank: R) -> Table<R, N>
        ensures { records result ≡ [] }
    {
        Table {
            items: [blank; N],
            len: 0,
        }
    }

    // The records, the oldest first.
    pub fn entries(&self) -> &[R]
        ensures value { result.now ≡ records self.now }
        ensures fits { length result.now ≤ N }
    {
        &self.items[..self.len]
    }

    // How many records there are.
    pub fn len(&self) -> usize
        ensures value { result ≡ length (records self.now) }
        ensures fits { result ≤ N }
    {
        self.entries().len()
    }

    // Whether there is no room for one more.
    pub fn is_full(&self) -> bool
        ensures value { result ≡ (length (records self.now) == N) }
        ensures fits { length (records self.now) ≤ N }
    {
        self.len == N
    }

    // One record more, or the record back where the table is full.
    pub fn push(&mut self, record: R) -> Result<(), CapacityError<R>>
        ensures { MatchResult result (λ _. records self.new ≡ records self.old ++ «record» ∷ []) (λ e. (error_element e ≡ «record») × (length (records self.old) ≡ N) × (records self.new ≡ records self.old)) }
    {
        if self.is_full() {
            return Err(CapacityError::new(record));
        }
        self.items[self.len] = record;
        self.len += 1;
        Ok(())
    }

    // Record `index`, counted from the oldest.
    pub fn get(&self, index: usize) -> Option<R>
        ensures { MatchOption result (length (records self.now) ≤ index) (λ x. (index < length (records self.now)) × ((d : R) → x ≡ slice_index_or (records self.now) index d)) }
    {
        self.entries().get(index).copied()
    }

    // The newest record.
    pub fn newest(&self) -> Option<R>
        ensures { MatchOption result (records self.now ≡ []) (λ x. ((ys : List R) × Newest (records self.now) x ys)) }
    {
        self.entries().last().copied()
    }

    // Takes the newest record away.
    pub fn pop(&mut self) -> Option<R>
        ensures { MatchOption result ((records self.old ≡ []) × (records self.new ≡ [])) (λ x. Newest (records self.old) x (records self.new)) }
    {
        if self.len == 0 {
            return None;
        }
        self.len -= 1;
        Some(self.items[self.len])
    }

    // Only the oldest `count` records stay.
    pub fn truncate(&mut self, count: usize)
        ensures { records self.new ≡ take count (records self.old) }
    {
        self.len = self.len.min(count);
    }
}

impl<R: Framed, const N: usize> Table<R, N> {
    // Drops the records above a frame, from the newest on.
    pub fn drop_above(&mut self, frame: usize)
        ensures { DroppedAbove R.frame frame (records self.old) (records self.new) }
    {
        while let Some(newest) = self.newest() {
            if newest.frame() <= frame {
                return;
            }
            self.pop();
        }
    }
}
