// The records that a machine keeps of its frames.
use crate::rows::Framed;

// A handler of exceptions: a raise to it makes its frame run on at its point.
#[derive(Clone, Copy, PartialEq, Eq, Debug, Default)]
pub struct Handler {
    pub frame: usize,
    pub point: u32,
}

// A marked frame, and the return address that its marker replaced.
#[derive(Clone, Copy, PartialEq, Eq, Debug, Default)]
pub struct Marker {
    pub frame: usize,
    pub address: u32,
}

// What a scan learned of a frame: bit i of `roots` tells that slot i is a root, bit k of `held` that r(8 + k) holds a pointer behind the frame.
#[derive(Clone, Copy, PartialEq, Eq, Debug, Default)]
pub struct Record {
    pub frame: usize,
    pub roots: u32,
    pub held: u8,
}

// The three types share this field and nothing else, so each says where its frame's number stands.
impl Framed for Handler {
    ghost frame = { λ r. r.frame };

    fn frame(&self) -> usize {
        self.frame
    }
}

impl Framed for Marker {
    ghost frame = { λ r. r.frame };

    fn frame(&self) -> usize {
        self.frame
    }
}

impl Framed for Record {
    ghost frame = { λ r. r.frame };

    fn frame(&self) -> usize {
        self.frame
    }
}
