ghost use Rattle.format.specs.Codes.{Coded};

use domain::Kind;
use term::Arguments;

// The codes of a net file's commands.
#[derive(Clone, Copy, PartialEq, Eq, Debug)]
pub enum Code {
    Sort,
    Operation,
    BagOperation,
    Place,
    Tokens,
    Transition,
    Guard,
    InArc,
    OutArc,
    Claim,
    PlaceWeight,
    ElementWeight,
    End,
}

// Which way tokens go over an arc: taken from the place, or put there.
#[derive(Clone, Copy, PartialEq, Eq, Debug)]
pub enum Direction {
    In,
    Out,
}

// A command of a net file. Tables, terms and bags are parts of the file.
#[derive(Clone, Copy, PartialEq, Eq, Debug)]
pub enum Command<'f> {
    Sort {
        size: u8,
    },
    Operation {
        arguments: Arguments,
        result: u8,
        table: &'f [u8],
    },
    BagOperation {
        argument: u8,
        result: u8,
        table: &'f [u8],
    },
    Place {
        sort: u8,
    },
    Tokens {
        place: u8,
        element: u8,
        count: u16,
    },
    Transition {
        sorts: &'f [u8],
    },
    Guard {
        term: &'f [u8],
    },
    Arc {
        direction: Direction,
        place: u8,
        bag: &'f [u8],
    },
    Claim {
        kind: Kind,
    },
    PlaceWeight {
        place: u8,
        code: i32,
    },
    ElementWeight {
        place: u8,
        element: u8,
        code: i32,
    },
    End,
}

// A byte that stands for no command.
#[derive(Clone, Copy, PartialEq, Eq, Debug)]
pub struct NoCode(pub u8);

impl TryFrom<u8> for Code {
    type Error = NoCode;

    ghost try_from_gives = { Coded };

    // The command that a byte stands for.
    fn try_from(byte: u8) -> Result<Code, NoCode> {
        match byte {
            0x01 => Ok(Code::Sort),
            0x02 => Ok(Code::Operation),
            0x03 => Ok(Code::BagOperation),
            0x04 => Ok(Code::Place),
            0x05 => Ok(Code::Tokens),
            0x06 => Ok(Code::Transition),
            0x07 => Ok(Code::Guard),
            0x08 => Ok(Code::InArc),
            0x09 => Ok(Code::OutArc),
            0x0A => Ok(Code::Claim),
            0x0B => Ok(Code::PlaceWeight),
            0x0C => Ok(Code::ElementWeight),
            0x0F => Ok(Code::End),
            _ => Err(NoCode(byte)),
        }
    }
}
