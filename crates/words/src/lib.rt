// Masks of bits, and words of 32 bits in images of bytes, low byte first.
#![tactic(auto)]

ghost use Rattle.std.specs.Prelude.{◌≡◌, ◌+◌, ◌*◌, ◌/◌, ◌<◌, ◌≤◌, length, IfOk, MatchBool, MatchOption};
ghost use Rattle.words.specs.Bits.{Bit};
ghost use Rattle.words.specs.Bytes.{word_in, words_of};

use std::alloc::{AllocError, Global};

// Whether bit `i` of a mask stands; a mask of 32 bits has none from 32 on.
pub fn has_bit(mask: u32, i: u32) -> bool
    ensures { MatchBool result (Bit mask i) (Bit mask i → ⊥) }
{
    if i >= u32::BITS {
        return false;
    }
    (mask >> i) % 2 == 1
}

// Word `index` of an image of bytes, or nothing where the image has no whole word there.
#[tactic(auto, using(crate::proofs::ByteLaws::piece_spells))]
pub fn word_at(bytes: &[u8], index: usize) -> Option<u32>
    ensures { MatchOption result (length bytes.now / 4 ≤ index) (λ w. (index < length bytes.now / 4) × (w ≡ word_in bytes.now index)) }
{
    let (words, _rest) = bytes.as_chunks::<4>();
    let word = words.get(index)?;
    Some(u32::from_le_bytes(*word))
}

// All whole words of an image of bytes.
pub fn words_from_bytes(heap: Global, bytes: &[u8]) -> Result<Vec<u32>, AllocError>
    ensures { IfOk result (λ v. v.items ≡ words_of bytes.now) }
{
    let (words, _rest) = bytes.as_chunks::<4>();
    words
        .iter()
        .map(|word| u32::from_le_bytes(*word))
        .collect(heap)
}
