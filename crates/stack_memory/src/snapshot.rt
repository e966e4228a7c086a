// A memory that begins as an image and keeps the image as it is: what is written goes into a buffer of words,
// and a bit map tells which words were written.
// Image, buffer and bit map are three buffers, and no list of cells: each is the caller's, the image stays as it was given, and nothing is allocated.
ghost use Rattle.std.specs.Prelude.{ℕ, ◌^◌, ◌<◌, slice_index};
ghost use Rattle.stack_memory.specs.Limits.{ImageFits, BuffersFit};

mod calls;

#[derive(Drop)]
pub struct SnapshotMemory {
    // The bytes of the words as they were, low byte first; never written.
    image: Vec<u8>,
    // The words that were written since, each in its place.
    buffer: Vec<u32>,
    // Bit i % 32 of word i / 32 stands if word i was written.
    written: Vec<u32>,
    ghost imaging: { ImageFits image.items },
    ghost serving: { BuffersFit image.items buffer.items written.items },
    ghost image_small: { (i : ℕ) → slice_index image.items i < 2 ^ 8 },
    ghost buffer_small: { (i : ℕ) → slice_index buffer.items i < 2 ^ 32 },
}
