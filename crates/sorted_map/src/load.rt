// Reading a sorted map from the bytes of a file.
ghost use Rattle.std.specs.Prelude.{◌≡◌, MatchResult};
ghost use Rattle.sorted_map.specs.File.{MadeFromFile, LoadFailed};
ghost use Rattle.sorted_map.specs.declared.load.LoadError.TheVariants.{NoMemory, Refused};

use crate::check::{ROW_WORDS, fault};
use crate::map::SortedMap;
use refusal::Refusal;
use std::alloc::{AllocError, Global};
use words::words_from_bytes;

// Why a file gives no map.
#[derive(Debug, Drop)]
pub enum LoadError {
    NoMemory,
    Refused(Refusal),
}

impl From<AllocError> for LoadError {
    ghost from_gives = { λ _ r. r ≡ NoMemory };

    fn from(_e: AllocError) -> LoadError {
        LoadError::NoMemory
    }
}

impl From<Refusal> for LoadError {
    ghost from_gives = { λ e r. r ≡ Refused e };

    fn from(e: Refusal) -> LoadError {
        LoadError::Refused(e)
    }
}

// A map of the rows in a file of 32-bit words, low byte first.
// One to three bytes behind the last whole word are a cut row, like missing words.
pub fn load_sorted(heap: Global, bytes: &[u8]) -> Result<SortedMap, LoadError>
    ensures { MatchResult result (MadeFromFile bytes.now) (LoadFailed bytes.now) }
{
    let words = words_from_bytes(heap, bytes)?;
    let rows = words.len() / ROW_WORDS;
    let map = SortedMap::new(words)?;
    if bytes.len() % 4 != 0 {
        return Err(LoadError::Refused(fault(rows)));
    }
    Ok(map)
}
