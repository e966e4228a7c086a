// Making a sorted map, and its lookups.
ghost use Rattle.std.specs.Prelude.{◌≡◌, MatchResult};
ghost use Rattle.sorted_map.specs.Layout.{RefusedImage};
ghost use Rattle.sorted_map.specs.Meaning.{rows_of, count_of, MadeFrom};
ghost use Rattle.frame_map.proofs.TableLaws.{row_lawful, row_pointed};
ghost use Rattle.sorted_map.specs.Decoding.{all_entries};
ghost use Rattle.sorted_map.specs.MapTable.{table_of};

use crate::check::{ROW_WORDS, check_sorted};
use crate::map::SortedMap;
use crate::search::find;
use frame_map::{FrameMap, Row};
use refusal::Refusal;

impl SortedMap {
    // A map of the image's rows, or a refusal with the image's first bad row.
    pub fn new(image: Vec<u32>) -> Result<SortedMap, Refusal>
        ensures { MatchResult result (MadeFrom image.items) (RefusedImage image.items) }
    {
        check_sorted(image.as_slice())?;
        Ok(SortedMap { image, count: 0 })
    }
}

impl FrameMap for SortedMap {
    ghost rows = { rows_of };

    ghost count = { count_of };

    ghost lawful = { λ m p r. row_lawful p (all_entries m.image.items) r (table_of m) };

    ghost pointed = { λ m p r. row_pointed p (all_entries m.image.items) r (table_of m) };

    ghost small = { λ m. m.counted };

    fn lookup(&mut self, point: u32) -> Option<Row> {
        self.count = self.count.wrapping_add(1);
        let (rows, _rest) = self.image.as_chunks::<ROW_WORDS>();
        find(rows, point)
    }

    fn lookups(&self) -> u32 {
        self.count
    }
}
