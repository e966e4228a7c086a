// Decoding the frames of a stack, from a given one up to the running one.
// The map, the memory and the state stay parameters: a struct with a `&mut` to two of them would have each method promise, beside what it does, that both still lead to the same place.
ghost use Rattle.frames.specs.Views.{seen};
ghost use Rattle.listing.specs.Decoding.{ScannedFrame, DecodedFrame, HeldAt, DecodedWaiting, Decoded};

use frame_map::{FrameMap, Row};
use frames::{Record, State, return_address};
use scan::{Scanned, scan_frame};
use stack_memory::StackMemory;

// Scans a frame with this row, entered with pointers in the callee-save registers of the mask `held`: adds its record, and answers the mask behind it.
fn scan_into(state: &mut State, frame: usize, row: &Row, held: u8) -> u8
    ensures { ScannedFrame state.old state.new frame row.now held result }
{
    let Scanned { roots, held } = scan_frame(row, held);
    let _ = state.records.push(Record { frame, roots, held });
    held
}

// Decodes a waiting frame, entered with pointers in the callee-save registers of the mask `held`: adds its record,
// and answers the mask behind it. Only a machine that is not as it should be has no such frame or row.
fn decode_waiting<M: FrameMap, S: StackMemory>(
    map: &mut M,
    memory: &S,
    state: &mut State,
    frame: usize,
    held: u8,
) -> Option<u8>
    ensures { let view = seen M.rows M.count S.words in DecodedFrame (view map.old memory.now state.old) (view map.new memory.now state.new) frame held result }
{
    let point = return_address(memory, state, frame.saturating_add(1))?;
    let row = map.lookup(point)?;
    Some(scan_into(state, frame, &row, held))
}

// The callee-save registers that hold pointers where frame `from` was entered, by the record of the frame before it.
fn held_at(state: &State, from: usize) -> Option<u8>
    ensures { HeldAt state.now from result }
{
    if from == 0 {
        return Some(0);
    }
    state.records.get(from - 1).map(|record| record.held)
}

// Decodes the waiting frames from `from` on, and answers the mask at the running frame's entry.
fn decode_all_waiting<M: FrameMap, S: StackMemory>(
    map: &mut M,
    memory: &S,
    state: &mut State,
    from: usize,
) -> Option<u8>
    ensures { let view = seen M.rows M.count S.words in DecodedWaiting (view map.old memory.now state.old) (view map.new memory.now state.new) from result }
{
    let mut held = held_at(state, from)?;
    state.records.truncate(from);
    for frame in from..state.newest() {
        held = decode_waiting(map, memory, state, frame, held)?;
    }
    Some(held)
}

// Decodes the frames from `from` on, the running one by its row: what was learned of older ones stands.
// Answers the callee-save registers that hold pointers where the running frame stands.
pub fn decode_from<M: FrameMap, S: StackMemory>(
    map: &mut M,
    memory: &S,
    state: &mut State,
    from: usize,
    row: &Row,
) -> Option<u8>
    ensures { let view = seen M.rows M.count S.words in Decoded (view map.old memory.now state.old) (view map.new memory.now state.new) from row.now result }
{
    let entered = decode_all_waiting(map, memory, state, from)?;
    let frame = state.newest();
    Some(scan_into(state, frame, row, entered))
}
