// Why a call says no: one list of numbered reasons for the whole library.
// Checks run in rising number, so a call that could be refused for two reasons tells the lower one.
#![tactic(auto)]

ghost use Rattle.std.specs.Prelude.{◌≡◌, Some};
ghost use Rattle.refusal.specs.Numbers.{number_of, fault_of, root_of};
ghost use Rattle.refusal.specs.Texts.{place_text, fault_text, text_of, refused_text};

use std::fmt;

// Where an image is broken, in the units of its format.
#[derive(Clone, Copy, PartialEq, Eq, Debug)]
pub enum Place {
    // An index of 32-bit words, counted from 0.
    Word(usize),
    // An index of bytes, counted from 0.
    Byte(usize),
}

// The first bad row of an image, counted from 0, and where it begins.
#[derive(Clone, Copy, PartialEq, Eq, Debug)]
pub struct ImageFault {
    pub row: usize,
    pub place: Place,
}

#[derive(Clone, Copy, PartialEq, Eq, Debug)]
pub enum Refusal {
    // 1: the machine is in another phase than the call wants, or is started a second time.
    WrongPhase,
    // 2: a memory, a heap or a start is outside its limits.
    OutsideLimits,
    // 3: an image breaks a rule of its format.
    BadImage(ImageFault),
    // 4: a field is named at a word that is no object's place.
    NoObject,
    // 5: a slot, register, field, stack word, frame size or field count is out of range.
    OutOfRange,
    // 6: a buffer is too short, or two that should be equally long are not.
    BadBuffer,
    // 7: no room on the stack, or too many frames or handlers.
    NoRoom,
    // 8: the point has no row.
    NoRow,
    // 9: the point's row describes a frame of another size.
    OtherSize,
    // 10: there is nothing to leave, to raise to or to untry.
    NothingThere,
    // 11: a handler of the running frame still stands.
    HandlerStands,
    // 12: a word that should be a pointer is neither 0 nor an object's place.
    // A collection tells the lowest root that holds such a word; a store has none to tell.
    NotPointer { root: Option<usize> },
    // 13: the heap has no room for the object.
    HeapFull,
}

impl Refusal {
    // The reason's number.
    pub fn number(&self) -> u8
        ensures { result ≡ number_of self.now }
    {
        match self {
            Refusal::WrongPhase => 1,
            Refusal::OutsideLimits => 2,
            Refusal::BadImage(_) => 3,
            Refusal::NoObject => 4,
            Refusal::OutOfRange => 5,
            Refusal::BadBuffer => 6,
            Refusal::NoRoom => 7,
            Refusal::NoRow => 8,
            Refusal::OtherSize => 9,
            Refusal::NothingThere => 10,
            Refusal::HandlerStands => 11,
            Refusal::NotPointer { root: _ } => 12,
            Refusal::HeapFull => 13,
        }
    }

    // The fault of a bad image.
    pub fn fault(&self) -> Option<ImageFault>
        ensures { result ≡ fault_of self.now }
    {
        match self {
            Refusal::BadImage(fault) => Some(*fault),
            _ => None,
        }
    }

    // The lowest root that holds no pointer, where a collection was refused.
    pub fn root(&self) -> Option<usize>
        ensures { result ≡ root_of self.now }
    {
        match self {
            Refusal::NotPointer { root } => *root,
            _ => None,
        }
    }
}

// A refusal as a program tells it: its number, and its reason in words.
#[derive(Clone, Copy, PartialEq, Eq, Debug)]
pub struct Refused(pub Refusal);

impl fmt::Display for Refused {
    ghost output = { λ r. Some (refused_text r) };

    fn fmt<W: fmt::Write>(&self, f: &mut fmt::Formatter<W>) -> fmt::Result {
        let reason = self.0;
        let number = reason.number();
        write!(f, "refused {number}: {reason}")
    }
}

impl fmt::Display for Place {
    ghost output = { λ p. Some (place_text p) };

    fn fmt<W: fmt::Write>(&self, f: &mut fmt::Formatter<W>) -> fmt::Result {
        match self {
            Place::Word(at) => write!(f, "word {at}"),
            Place::Byte(at) => write!(f, "byte {at}"),
        }
    }
}

impl fmt::Display for ImageFault {
    ghost output = { λ p. Some (fault_text p) };

    fn fmt<W: fmt::Write>(&self, f: &mut fmt::Formatter<W>) -> fmt::Result {
        let row = self.row;
        let place = self.place;
        write!(f, "image fault at row {row}, {place}")
    }
}

impl fmt::Display for Refusal {
    ghost output = { λ p. Some (text_of p) };

    fn fmt<W: fmt::Write>(&self, f: &mut fmt::Formatter<W>) -> fmt::Result {
        match self {
            Refusal::WrongPhase => f.write_str(
                "the machine is in another phase, or already started",
            ),
            Refusal::OutsideLimits => f.write_str("outside the limits"),
            Refusal::BadImage(fault) => write!(f, "{fault}"),
            Refusal::NoObject => f.write_str("no object there"),
            Refusal::OutOfRange => f.write_str("out of range"),
            Refusal::BadBuffer => f.write_str("a buffer is too short, or two are unequal"),
            Refusal::NoRoom => f.write_str("no room on the stack, or too many frames or handlers"),
            Refusal::NoRow => f.write_str("the point has no row"),
            Refusal::OtherSize => f.write_str("the row describes a frame of another size"),
            Refusal::NothingThere => f.write_str("nothing to leave, raise to or untry"),
            Refusal::HandlerStands => f.write_str("a handler of the running frame still stands"),
            Refusal::NotPointer { root: Some(code) } => write!(f, "not a pointer, in root {code}"),
            Refusal::NotPointer { root: None } => f.write_str("not a pointer"),
            Refusal::HeapFull => f.write_str("the heap is full"),
        }
    }
}
