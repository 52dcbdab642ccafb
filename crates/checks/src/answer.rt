// What a call answers where it can't serve. specs/Told.antt gives document 01's number, side and place.
ghost use Rattle.std.specs.Prelude.{◌≡◌};
ghost use Rattle.checks.specs.Answers.{refused};
ghost use Rattle.checks.specs.Reasons.{number_of_reason};
ghost use Rattle.checks.specs.Told.{told_refusal};

use std::error::Error;
use std::fmt;

// The reasons for saying no, in the order of their numbers.
#[derive(Clone, Copy, PartialEq, Eq, Debug)]
pub enum Reason {
    OffGrid,
    FlatShape,
    WrongLength,
    StartBeyondEnd,
    TooLittleRoom,
    NoSuchSlot,
    NoSuchPart,
    SlotFilled,
    SlotEmpty,
    PartAbsent,
    LeavesGrid,
    NothingToUndo,
    UnknownField,
    CutField,
    SheetTooLong,
    ShellOpen,
}

impl Reason {
    // Its number in the tables of documents 01 and 02. Arm by arm, as those tables are read.
    pub fn number(self) -> u32
        ensures { result ≡ number_of_reason self }
    {
        match self {
            Reason::OffGrid => 1,
            Reason::FlatShape => 2,
            Reason::WrongLength => 3,
            Reason::StartBeyondEnd => 4,
            Reason::TooLittleRoom => 5,
            Reason::NoSuchSlot => 6,
            Reason::NoSuchPart => 7,
            Reason::SlotFilled => 8,
            Reason::SlotEmpty => 9,
            Reason::PartAbsent => 10,
            Reason::LeavesGrid => 11,
            Reason::NothingToUndo => 12,
            Reason::UnknownField => 13,
            Reason::CutField => 14,
            Reason::SheetTooLong => 15,
            Reason::ShellOpen => 16,
        }
    }
}

// A refusal: why, the side (0 for the first or only list, 1 for the second), and the place that document 01's table names. The side is a number, since
// the checks of lengths and of the grid serve every number of a side.
#[derive(Clone, Copy, PartialEq, Eq, Debug)]
pub struct Refusal {
    pub reason: Reason,
    pub side: u32,
    pub place: usize,
}

// Each check is written out: what is asked and what is told stand in one place.
impl Refusal {
    pub fn new(reason: Reason, side: u32, place: usize) -> Refusal
        ensures { told_refusal {A = Unit {0}} result ≡ refused (number_of_reason reason) side place }
    {
        Refusal {
            reason,
            side,
            place,
        }
    }
}

impl fmt::Display for Refusal {
    fn fmt<W: fmt::Write>(&self, f: &mut fmt::Formatter<W>) -> fmt::Result {
        let number = self.reason.number();
        write!(
            f,
            "refused, number {number}, side {}, place {}",
            self.side, self.place
        )
    }
}

impl Error for Refusal {}
