// The delta map's state and its invariant.
ghost use Rattle.std.specs.Prelude.{◌^◌, ◌<◌, List};
ghost use Rattle.frame_map.specs.declared.row.Entry.{Entry};
ghost use Rattle.delta_image.specs.Buckets.{DeltaMeans};

// A frame map over a good delta image.
#[derive(Drop)]
pub struct DeltaMap {
    pub(crate) image: Vec<u8>,
    // How many lookups there were, modulo 2^32. Each map counts for itself: a type that counts would need a contract for each of its methods to save one `wrapping_add`.
    pub(crate) count: u32,
    ghost counted: { count < 2 ^ 32 },
    ghost table: { ∥ ((es : List Entry) × DeltaMeans image.items es) ∥₁ },
}
