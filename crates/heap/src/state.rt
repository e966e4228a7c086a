// A heap, and what always holds of its buffers.
ghost use Rattle.std.specs.Prelude.{◌≡◌, ◌≤◌, vec_len};
ghost use Rattle.heap_model.specs.Objects.{Sound};
ghost use Rattle.heap.specs.Buffers.{objects};

use crate::halves::Halves;

// A heap of objects. Half of its words are idle until the next collection.
#[derive(Drop)]
pub struct Heap {
    pub(crate) halves: Halves,
    ghost low: { 16 ≤ vec_len halves.words },
    ghost high: { vec_len halves.words ≤ 16384 },
    ghost paired: { vec_len halves.idle ≡ vec_len halves.words },
    ghost flags: { vec_len halves.starts ≡ vec_len halves.words },
    ghost fits: { halves.used ≤ vec_len halves.words },
    ghost sound: { Sound (objects halves) },
}
