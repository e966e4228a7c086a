// Reading the rows of a sorted image, and telling the first that is bad.
ghost use Rattle.std.specs.Prelude.{◌≡◌, ◌^◌, ◌≤◌, MatchBool, MatchResult};
ghost use Rattle.refusal.specs.declared.Refusal.TheVariants.{BadImage};
ghost use Rattle.sorted_map.specs.Checking.{Follows};
ghost use Rattle.sorted_map.specs.Decoding.{entry_in};
ghost use Rattle.sorted_map.specs.Layout.{HasRows, RefusedImage, sorted_fault};

use frame_map::{Entry, MAX_ROWS, Row};
use refusal::{ImageFault, Place, Refusal};

// A row takes five words.
pub const ROW_WORDS: usize = 5;

// The entry that a row's words spell, whatever they hold.
pub(crate) fn entry_of(words: &[u32; ROW_WORDS]) -> Entry
    ensures { result ≡ entry_in words.now 0 }
{
    let [head, slots, masks, low, high] = *words;
    let [a, b, c, d] = low.to_le_bytes();
    let [e, f, g, h] = high.to_le_bytes();
    Entry {
        point: (head / 65536) as u16,
        row: Row {
            size: (head % 256) as u8,
            slots,
            saved: [a, b, c, d, e, f, g, h],
            registers: (masks % 65536) as u16,
            untouched: (masks / 65536 % 256) as u8,
        },
    }
}

// Whether a row may follow one at the point `last`.
fn follows(words: &[u32; ROW_WORDS], last: u16) -> bool
    ensures { MatchBool result (Follows words.now 0 last) (Follows words.now 0 last → ⊥) }
{
    // A size has one byte, and above the registers stands one byte of untouched registers.
    if words[0] / 256 % 256 != 0 || words[2] >= 1 << 24 {
        return false;
    }
    let entry = entry_of(words);
    entry.point > last && entry.row.is_lawful()
}

// The fault that tells row `row`, by its first word.
pub(crate) fn fault(row: usize) -> Refusal
    requires { row ≤ 2 ^ 61 }
    ensures { result ≡ BadImage (sorted_fault row) }
{
    Refusal::BadImage(ImageFault {
        row,
        place: Place::Word(ROW_WORDS * row),
    })
}

// Checks a sorted image and answers how many rows it has.
// A bad one is refused with its first bad row: an unlawful one, one whose point does not rise, a cut one, or one too many.
pub fn check_sorted(image: &[u32]) -> Result<usize, Refusal>
    ensures { MatchResult result (HasRows image.now) (RefusedImage image.now) }
{
    let (rows, rest) = image.as_chunks::<ROW_WORDS>();
    let mut last = 0;
    for (i, row) in rows.iter().enumerate() {
        if i >= MAX_ROWS || !follows(row, last) {
            return Err(fault(i));
        }
        last = entry_of(row).point;
    }
    if !rest.is_empty() {
        return Err(fault(rows.len()));
    }
    Ok(rows.len())
}
