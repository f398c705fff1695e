// The commands of a trace, taken apart by a slice pattern.
ghost use Rattle.std.specs.Prelude.{◌≡◌, length};
ghost use Rattle.trace.specs.Reading.{Shorter, first_of, seen};

use crate::replays::Stop;
use term::Fault;

// What a handset did on the bench.
#[derive(Clone, Copy, PartialEq, Eq, Debug)]
pub enum Command {
    Fire { transition: u8, mode: [u8; 4] },
    Back,
    Restart,
}

// The first command of `bytes` and what follows it, or None at the end. `bytes` are the last of a trace of `ends` bytes.
pub fn first<'f>(bytes: &'f [u8], ends: usize) -> Result<Option<(Command, &'f [u8])>, Stop>
    ensures value { seen result ≡ first_of bytes.now ends }
    ensures shorter { Shorter result (length bytes.now) }
{
    let at = ends.saturating_sub(bytes.len());
    match bytes {
        [0x40, transition, a, b, c, d, rest @ ..] => Ok(Some((
            Command::Fire {
                transition: *transition,
                mode: [*a, *b, *c, *d],
            },
            rest,
        ))),
        [0x41, rest @ ..] => Ok(Some((Command::Back, rest))),
        [0x42, rest @ ..] => Ok(Some((Command::Restart, rest))),
        [0x4F] => Ok(None),
        [0x4F, _, ..] => Err(Stop::at(Fault::Trailing, at + 1)),
        [] | [0x40, ..] => Err(Stop::at(Fault::Ends, ends)),
        [_, ..] => Err(Stop::at(Fault::NoCommand, at)),
    }
}
