// Want of memory, told apart as the program tells it.
ghost use Rattle.std.specs.Prelude.{◌≡◌, Some};
ghost use Rattle.report.specs.Lines.{want_line};
ghost use Rattle.report.specs.declared.memory.NoMemory.TheVariants.{Other};

use std::alloc::AllocError;
use std::error::Error;
use std::fmt;

// Why there is no report: no memory is left, for what the net file tells or for anything else.
#[derive(Clone, Copy, PartialEq, Eq, Debug)]
pub enum NoMemory {
    Net,
    Other,
}

impl From<AllocError> for NoMemory {
    ghost from_gives = { λ _ e. e ≡ Other };

    fn from(_e: AllocError) -> NoMemory {
        NoMemory::Other
    }
}

impl fmt::Display for NoMemory {
    ghost output = { λ e. Some (want_line e) };

    fn fmt<W: fmt::Write>(&self, f: &mut fmt::Formatter<W>) -> fmt::Result {
        match self {
            NoMemory::Net => write!(f, "out of memory"),
            NoMemory::Other => write!(f, "memory allocation failed"),
        }
    }
}

impl Error for NoMemory {}
