// A trace as it is written down, into byte memory that the caller lends at each call: so a recording has a length and
// no Vec. The two recordings are two types, since the compiler is to refuse what only the other can do.
ghost use Rattle.std.specs.Prelude.{◌<◌, ◌≤◌};
ghost use Rattle.trace.specs.Moves.{longest_trace};

mod methods;

// A recording that goes on: `len` bytes are written, of a memory of `room` bytes. One byte stays free for the end.
#[derive(Drop)]
pub struct OpenRecording {
    len: usize,
    room: usize,
    ghost free: { len < room },
    ghost short: { len < longest_trace },
}

// A recording whose end is written: `len` bytes of a memory of `room` bytes.
#[derive(Drop)]
pub struct EndedRecording {
    len: usize,
    room: usize,
    ghost within: { len ≤ room },
    ghost short: { len ≤ longest_trace },
}
