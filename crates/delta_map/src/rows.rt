// The rows of a bucket, read one after another.
ghost use Rattle.std.specs.Prelude.{◌≡◌, ℕ, suc, ◌<◌, List, MatchOption, MatchResult};
ghost use Rattle.delta_layout.specs.Codes.{origin};
ghost use Rattle.delta_image.specs.Images.{start_in, GoodStarts};
ghost use Rattle.delta_map.specs.Leaving.{Left, Read, Unread};

use crate::starts::start_at;
use delta_code::{Reader, ReaderFault};
use delta_layout::first_before;
use frame_map::Entry;

// The rows of a bucket that are left to read, and the row before them. No `Iterator`: the check asks for the byte between rows, which a `for` would keep it from, and the trait's members would say once more what `next_row` ensures.
#[derive(Drop)]
pub(crate) struct BucketRows<'a> {
    reader: Reader<'a>,
    before: Entry,
}

impl<'a> BucketRows<'a> {
    // All rows of bucket `place`.
    // Inlined into its two callers, as `next_row`: a lookup in a bucket without rows is little more than its two starts.
    #[inline(always)]
    pub(crate) fn new(image: &'a [u8], place: usize) -> BucketRows<'a>
        requires inside { place < 64 }
        requires starts { GoodStarts image.now 65 }
        ensures left { Left image.now place result }
        ensures place { result.reader.at ≡ start_in image.now place }
        ensures first { result.before ≡ origin }
    {
        let start = start_at(image, place);
        let end = start_at(image, place + 1);
        BucketRows {
            reader: Reader::new(image, start, end),
            before: first_before(),
        }
    }

    // The byte at which the next row begins.
    pub(crate) fn at(&self) -> usize
        ensures { result ≡ self.now.reader.at }
    {
        self.reader.at()
    }

    // The next row, or nothing at the bucket's end.
    #[inline(always)]
    pub(crate) fn next_row(&mut self) -> Result<Option<Entry>, ReaderFault>
        ensures { (w : List ℕ) (b : ℕ) → Left w b self.old → MatchResult result (λ o. MatchOption o (self.old.reader.at ≡ start_in w (suc b)) (Read w b self.old self.new)) (Unread w b self.old) }
    {
        if self.reader.is_done() {
            return Ok(None);
        }
        let entry = self.reader.next_row(&self.before)?;
        self.before = entry;
        Ok(Some(entry))
    }
}
