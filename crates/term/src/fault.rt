ghost use Rattle.std.specs.Prelude.{◌≡◌, Some};
ghost use Rattle.term.specs.Faults.{number_of, word_of};

use std::fmt;

// Why something is refused. Each fault has a number, which reports print.
#[derive(Clone, Copy, PartialEq, Eq, Debug)]
pub enum Fault {
    TooLong,
    Ends,
    NoCommand,
    Order,
    Limit,
    Range,
    Deep,
    Sort,
    Modes,
    Trailing,
    Memory,
    NoClaim,
    NoCell,
    NoWeight,
    NotPlain,
    NotAccepted,
    NoTransition,
    Mode,
    Guard,
    // the lowest cell that lacks tokens
    Lacks(usize),
    // the lowest cell that would pass 65,535
    Full(usize),
    TrailFull,
    TrailEmpty,
    RecordingFull,
}

impl Fault {
    // The number that a report prints. A method and no From: it leaves out the cell that two of the faults name.
    pub fn number(&self) -> u8
        ensures { result ≡ number_of self.now }
    {
        match self {
            Fault::TooLong => 1,
            Fault::Ends => 2,
            Fault::NoCommand => 3,
            Fault::Order => 4,
            Fault::Limit => 5,
            Fault::Range => 6,
            Fault::Deep => 7,
            Fault::Sort => 8,
            Fault::Modes => 9,
            Fault::Trailing => 10,
            Fault::Memory => 11,
            Fault::NoClaim => 12,
            Fault::NoCell => 13,
            Fault::NoWeight => 14,
            Fault::NotPlain => 15,
            Fault::NotAccepted => 16,
            Fault::NoTransition => 17,
            Fault::Mode => 18,
            Fault::Guard => 19,
            Fault::Lacks(_) => 20,
            Fault::Full(_) => 21,
            Fault::TrailFull => 22,
            Fault::TrailEmpty => 23,
            Fault::RecordingFull => 24,
        }
    }
}

// What was being read where a fault was found.
#[derive(Clone, Copy, PartialEq, Eq, Debug)]
pub enum Stage {
    File,
    Command,
    Term,
}

// The word that a report prints.
impl fmt::Display for Stage {
    ghost output = { λ s. Some (word_of s) };

    fn fmt<W: fmt::Write>(&self, f: &mut fmt::Formatter<W>) -> fmt::Result {
        f.write_str(match self {
            Stage::File => "file",
            Stage::Command => "command",
            Stage::Term => "term",
        })
    }
}

// A fault in a file: the byte where it was found, and what was being read there.
#[derive(Clone, Copy, PartialEq, Eq, Debug)]
pub struct FileFault {
    pub fault: Fault,
    pub place: usize,
    pub stage: Stage,
}
