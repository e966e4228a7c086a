// The sorted map's state and its invariant.
ghost use Rattle.std.specs.Prelude.{◌≡◌, ◌%◌, ◌^◌, ◌<◌, vec_len};
ghost use Rattle.frame_map.specs.Tables.{Table};
ghost use Rattle.sorted_map.specs.Decoding.{all_entries};

// A frame map over a good sorted image.
#[derive(Drop)]
pub struct SortedMap {
    pub(crate) image: Vec<u32>,
    // How many lookups there were, modulo 2^32. Each map counts for itself: a type that counts would need a contract for each of its methods to save one `wrapping_add`.
    pub(crate) count: u32,
    ghost whole: { vec_len image % 5 ≡ 0 },
    ghost counted: { count < 2 ^ 32 },
    ghost table: { ∥ Table (all_entries image.items) ∥₁ },
}
