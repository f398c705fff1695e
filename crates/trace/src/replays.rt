ghost use Rattle.std.specs.Prelude.{◌≡◌};
ghost use Rattle.bench.specs.Calls.{Leads, lent};
ghost use Rattle.bench.specs.Counted.{loan};
ghost use Rattle.lent.specs.Held as list;
ghost use Rattle.trace.specs.Carrying.{CarryCalled};
ghost use Rattle.trace.specs.Moves.{move_of};
ghost use Rattle.trace.specs.Replaying.{Played, Ran, RecordingCalled, ReplayCalled, replayed};
ghost use Rattle.trace.specs.Stops.{cell_of};
ghost use Rattle.net.specs.Of.{system};

use crate::commands::{Command, first};
use crate::recording::EndedRecording;
use bench::{Counts, Firing, back_on, begin_on, fire_on, measure};
use lent::LentList;
use net::Net;
use term::Fault;

// The longest trace, by a rule of its own.
pub const LONGEST: usize = 65536;

// Where a replay stopped: the fault, and the cell or the byte that it names, else 0.
#[derive(Clone, Copy, PartialEq, Eq, Debug)]
pub struct Stop {
    pub fault: Fault,
    pub place: usize,
}

impl Stop {
    // A fault that is found at a place.
    pub fn at(fault: Fault, place: usize) -> Stop
        ensures { (result.fault ≡ fault) × (result.place ≡ place) }
    {
        Stop { fault, place }
    }
}

// A fault of the bench names its own place.
impl From<Fault> for Stop {
    ghost from_gives = { λ f s. (s.fault ≡ f) × (s.place ≡ cell_of f) };

    fn from(fault: Fault) -> Stop {
        match fault {
            Fault::Lacks(c) | Fault::Full(c) => Stop::at(fault, c),
            _ => Stop::at(fault, 0),
        }
    }
}

// How many commands were carried out, and the fault that stopped the replay, if any.
#[derive(Clone, Copy, PartialEq, Eq, Debug)]
pub struct Replayed {
    pub carried: u32,
    pub stop: Option<Stop>,
}

// Carries one command out on a bench's parts. The calls of a bench are made on the memory that the caller of a replay
// lent, and not by way of a bench: a proof does not see what a bench that goes leaves there.
fn carry_out(
    net: &Net,
    counts: &mut Counts,
    trail: &mut LentList<Firing>,
    command: Command,
) -> Result<(), Fault>
    requires leads { Leads (system net.now) (lent counts.old trail.old) }
    ensures called { CarryCalled (system net.now) (move_of command) (lent counts.old trail.old) (lent counts.new trail.new) result }
    ensures leads { Leads (system net.now) (lent counts.new trail.new) }
    ensures counts_loan { loan counts.new ≡ loan counts.old }
    ensures trail_loan { list.loan trail.new ≡ list.loan trail.old }
{
    match command {
        Command::Fire { transition, mode } => {
            let firing = Firing {
                transition: usize::from(transition),
                mode,
            };
            fire_on(net, counts, trail, firing)
        }
        Command::Back => back_on(net, counts, trail),
        Command::Restart => {
            begin_on(net, counts, trail);
            Ok(())
        }
    }
}

// Carries out the commands of `bytes` in their order, and counts them, up to the first that is turned down. The count is
// the caller's, so that it stands after a stop too.
fn carry_all(
    net: &Net,
    counts: &mut Counts,
    trail: &mut LentList<Firing>,
    bytes: &[u8],
    carried: &mut u32,
) -> Result<(), Stop>
    requires counted { carried.old ≡ 0 }
    requires leads { Leads (system net.now) (lent counts.old trail.old) }
    ensures ran { Ran (system net.now) bytes.now (lent counts.old trail.old) (lent counts.new trail.new) (replayed carried.new result) }
    ensures leads { Leads (system net.now) (lent counts.new trail.new) }
    ensures counts_loan { loan counts.new ≡ loan counts.old }
    ensures trail_loan { list.loan trail.new ≡ list.loan trail.old }
{
    if bytes.len() > LONGEST {
        return Err(Stop::at(Fault::TooLong, LONGEST));
    }
    let mut rest = bytes;
    'commands: while let Some((command, next)) = first(rest, bytes.len())? {
        carry_out(net, counts, trail, command)?;
        rest = next;
        *carried = carried.saturating_add(1);
    }
    Ok(())
}

// Replays a trace on a new bench, whose counts and trail are lent.
fn replay_on(net: &Net, counts: &mut Counts, trail: &mut LentList<Firing>, bytes: &[u8]) -> Replayed
    ensures played { Played (system net.now) bytes.now (lent counts.old trail.old) (lent counts.new trail.new) result }
    ensures counts_loan { loan counts.new ≡ loan counts.old }
    ensures trail_loan { list.loan trail.new ≡ list.loan trail.old }
{
    begin_on(net, counts, trail);
    let mut carried = 0;
    let end = carry_all(net, counts, trail, bytes, &mut carried);
    Replayed {
        carried,
        stop: end.err(),
    }
}

// Replays a trace on a new bench in lent memory.
pub fn replay(
    net: &Net,
    cells: &mut [u16],
    trail: &mut LentList<Firing>,
    bytes: &[u8],
) -> Result<Replayed, Fault>
    ensures called { ReplayCalled (system net.now) bytes.now cells.old trail.old cells.new trail.new result }
    ensures trail_loan { list.loan trail.new ≡ list.loan trail.old }
{
    measure(cells)?;
    let mut counts = Counts { cells };
    Ok(replay_on(net, &mut counts, trail, bytes))
}

// Replays a recording on a new bench in lent memory: the commands put into it, up to the first that is turned down.
pub fn replay_recording(
    net: &Net,
    cells: &mut [u16],
    trail: &mut LentList<Firing>,
    ended: &EndedRecording,
    memory: &[u8],
) -> Result<Replayed, Fault>
    ensures called { RecordingCalled (system net.now) memory.now ended.now cells.old trail.old cells.new trail.new result }
    ensures trail_loan { list.loan trail.new ≡ list.loan trail.old }
{
    let bytes = ended.trace(memory)?;
    replay(net, cells, trail, bytes)
}
