// Objects as words: what a header tells. The meaning of a heap and of a collection, with the laws that the code rests on, is in specs/ and proofs/.
#![tactic(auto)]

ghost use Rattle.std.specs.Prelude.{◌≡◌};
ghost use Rattle.heap_model.specs.Objects.{refs_in, size_in};

// How many pointer fields an object with this header has.
pub fn refs_of(header: u32) -> usize
    ensures { result ≡ refs_in header }
{
    header as usize / 65536
}

// How many words an object with this header has.
pub fn size_of(header: u32) -> usize
    ensures { result ≡ size_in header }
{
    1 + (refs_of(header) + header as usize % 65536)
}
