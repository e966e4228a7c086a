// Frames in a stack memory.
ghost use Rattle.std.specs.Prelude.{◌≡◌, ◌+◌, ◌-◌, ◌≤◌, List, ◌∷◌, ◌++◌, length, take, drop, replicate, Some};
ghost use Rattle.frame_map.specs.Maps.{Rows};
ghost use Rattle.scan.specs.Frames.{Frame};
ghost use Rattle.frames.specs.Layouts.{marked};
ghost use Rattle.frames.specs.Models.{Model, frames};
ghost use Rattle.frames.specs.Standing.{Kept};

use crate::state::State;
use stack_memory::StackMemory;

// Puts a frame of `size` words at place `at`: the return address, and 0 in each slot. `size` is at least 1.
pub fn lay_frame<S: StackMemory>(memory: &mut S, at: u16, size: u8, address: u32)
    ensures { 1 ≤ size → at + size ≤ length (S.words memory.old) → S.words memory.new ≡ take at (S.words memory.old) ++ ((address ∷ replicate (size - 1) 0) ++ drop (at + size) (S.words memory.old)) }
{
    let start = usize::from(at);
    // A memory takes one word at a time.
    for place in start..start + usize::from(size) {
        let _ = memory.write(place, 0);
    }
    let _ = memory.write(start, address);
}

// Whether a marker stands in a frame: in each whose number is a multiple of the spacing, up to the low-water mark.
pub fn is_marked(state: &State, frame: usize) -> bool
    ensures { result ≡ marked state.now.spacing state.now.level frame }
{
    frame > 0 && frame % state.spacing == 0 && frame <= state.level
}

// The return address of a frame: the point where the frame before it waits. A marker's replaced address is kept aside.
pub fn return_address<S: StackMemory>(memory: &S, state: &State, frame: usize) -> Option<u32>
    ensures { (rows : Rows) (s : Model) (xs fs : List Frame) (f : Frame) → Kept rows (S.words memory.now) state.now s → frames s ≡ xs ++ (f ∷ fs) → length fs ≡ frame → result ≡ Some f.back }
{
    if frame >= state.depth() {
        return None;
    }
    if is_marked(state, frame) {
        return state
            .markers
            .get(frame / state.spacing - 1)
            .map(|marker| marker.address);
    }
    memory.read(usize::from(state.edges.get(frame)?)).ok()
}
