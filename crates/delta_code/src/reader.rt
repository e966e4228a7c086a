// A reader of rows: the place in an image from which it reads, and where it ends.
ghost use Rattle.std.specs.Prelude.{◌≡◌, [], take, MatchBool, ◌≢◌};
ghost use Rattle.delta_code.specs.Reading.{rest};

mod rows;

// The bytes of an image up to where the rows end, and the place of the next byte: it stands beside them, since a fault tells it.
#[derive(Drop)]
pub struct Reader<'a> {
    image: &'a [u8],
    at: usize,
}

// The byte at which a bad row begins.
#[derive(Clone, Copy, Debug)]
pub struct ReaderFault {
    pub byte: usize,
}

impl<'a> Reader<'a> {
    // Reads the image's bytes from `at` up to `end`.
    pub fn new(image: &'a [u8], at: usize, end: usize) -> Reader<'a>
        ensures cut { result.image.now ≡ take end image.now }
        ensures place { result.at ≡ at }
    {
        let end = end.min(image.len());
        Reader {
            image: &image[..end],
            at,
        }
    }

    // The place of the next byte.
    pub fn at(&self) -> usize
        ensures { result ≡ self.now.at }
    {
        self.at
    }

    // Whether no byte is left.
    pub fn is_done(&self) -> bool
        ensures { MatchBool result (rest self.now ≡ []) (rest self.now ≢ []) }
    {
        self.image.len() <= self.at
    }
}
