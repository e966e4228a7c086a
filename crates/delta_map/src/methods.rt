// Making a delta map, and its lookups.
ghost use Rattle.std.specs.Prelude.{◌≡◌, MatchResult};
ghost use Rattle.delta_map.specs.Faults.{RefusedDelta};
ghost use Rattle.delta_map.specs.Meaning.{rows_of, count_of, MadeFromDelta, entries_of};
ghost use Rattle.frame_map.proofs.TableLaws.{row_lawful, row_pointed};
ghost use Rattle.delta_image.proofs.Unique.{the_table};

use crate::check::check_delta;
use crate::map::DeltaMap;
use crate::search::find;
use frame_map::{FrameMap, Row};
use refusal::Refusal;

impl DeltaMap {
    // A map of the image's rows, or a refusal with the image's first bad start or row.
    pub fn new(image: Vec<u8>) -> Result<DeltaMap, Refusal>
        ensures { MatchResult result (MadeFromDelta image.items) (RefusedDelta image.items) }
    {
        check_delta(image.as_slice())?;
        Ok(DeltaMap { image, count: 0 })
    }
}

impl FrameMap for DeltaMap {
    ghost rows = { rows_of };

    ghost count = { count_of };

    ghost lawful = { unfold entries_of in λ m p r. let t = the_table m.image.items m.table in row_lawful p t.0 r t.1.table };

    ghost pointed = { unfold entries_of in λ m p r. let t = the_table m.image.items m.table in row_pointed p t.0 r t.1.table };

    ghost small = { λ m. m.counted };

    fn lookup(&mut self, point: u32) -> Option<Row> {
        self.count = self.count.wrapping_add(1);
        let point = u16::try_from(point).ok()?;
        find(self.image.as_slice(), point)
    }

    fn lookups(&self) -> u32 {
        self.count
    }
}
