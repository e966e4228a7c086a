// The calls on a machine and its heaps, and what accepted ones answer, as values.
#![tactic(auto)]

// One call. Calls on a heap name it by its number; the last four look and alter nothing.
#[derive(Clone, Copy, Debug)]
pub enum Call {
    Start {
        spacing: u32,
        size: u32,
    },
    Enter {
        point: u32,
        size: u32,
    },
    Leave,
    Try {
        point: u32,
    },
    Untry,
    Raise,
    Get {
        slot: u32,
    },
    Put {
        slot: u32,
        word: u32,
    },
    GetRegister {
        register: u32,
    },
    PutRegister {
        register: u32,
        word: u32,
    },
    // `room` is the length of the buffer that takes the roots.
    Survey {
        point: u32,
        room: u32,
    },
    Open {
        point: u32,
        room: u32,
    },
    GiveUp,
    Carry {
        heap: u32,
    },
    Close,
    Make {
        heap: u32,
        refs: u32,
        plain: u32,
    },
    Load {
        heap: u32,
        place: u32,
        field: u32,
    },
    Store {
        heap: u32,
        place: u32,
        field: u32,
        word: u32,
    },
    Stack,
    Words {
        from: u32,
        to: u32,
    },
    Registers,
    Objects {
        heap: u32,
    },
}

// What an accepted call answers; a refused one has a reason and no answer.
#[derive(Debug, Drop)]
pub enum Answer {
    // Accepted, with nothing to tell.
    Done,
    // A point, a word that was read, or an object's place.
    Word(u32),
    // The frame that a raise made run, and its point.
    Handler {
        frame: u32,
        point: u32,
    },
    // The roots that a survey listed.
    Roots(Vec<u32>),
    // The roots that an open listed, the depth, and from which frame on it looked frames up.
    Opened {
        roots: Vec<u32>,
        depth: u32,
        reused: u32,
    },
    // How many markers stand after a close.
    Markers(u32),
    // Words of the stack or the registers.
    Words(Vec<u32>),
    // The used words of a heap.
    Objects(Vec<u32>),
}
