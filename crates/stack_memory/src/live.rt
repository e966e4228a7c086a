// A memory whose words are the caller's, with whatever they held.
ghost use Rattle.std.specs.Prelude.{ℕ, ◌^◌, ◌<◌, length, slice_index};
ghost use Rattle.stack_memory.specs.Limits.{CountFits};

mod calls;

#[derive(Drop)]
pub struct LiveMemory {
    cells: Vec<u32>,
    ghost fitting: { CountFits (length cells.items) },
    ghost small: { (i : ℕ) → slice_index cells.items i < 2 ^ 32 },
}
