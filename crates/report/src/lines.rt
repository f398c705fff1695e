// The lines of the report.
ghost use Rattle.std.specs.Prelude.{Some};
ghost use Rattle.report.specs.Lines.{cell_line, claim_line, fault_line, replay_line};

use judge::Outcome;
use std::fmt;
use term::FileFault;
use trace::Replayed;

// A net that does not read: the fault's number, its byte, and what was being read there.
#[derive(Drop)]
pub struct FaultLine(pub FileFault);

impl fmt::Display for FaultLine {
    ghost output = { λ l. Some (fault_line l.0) };

    fn fmt<W: fmt::Write>(&self, f: &mut fmt::Formatter<W>) -> fmt::Result {
        let number = self.0.fault.number();
        let place = self.0.place;
        let stage = self.0.stage;
        write!(f, "net fault {number} {place} {stage}")
    }
}

// A claim's verdict.
#[derive(Drop)]
pub struct ClaimLine {
    pub claim: usize,
    pub outcome: Outcome,
}

impl fmt::Display for ClaimLine {
    ghost output = { λ l. Some (claim_line l.claim l.outcome) };

    fn fmt<W: fmt::Write>(&self, f: &mut fmt::Formatter<W>) -> fmt::Result {
        let claim = self.claim;
        match self.outcome {
            Ok(modes) => write!(f, "claim {claim} accepted {modes}"),
            Err(firing) => {
                let transition = firing.transition;
                let [a, b, c, d] = firing.mode;
                write!(f, "claim {claim} broken {transition} {a} {b} {c} {d}")
            }
        }
    }
}

// How many commands were carried out, and what stopped the replay, if anything.
#[derive(Drop)]
pub struct ReplayLine(pub Replayed);

impl fmt::Display for ReplayLine {
    ghost output = { λ l. Some (replay_line l.0) };

    fn fmt<W: fmt::Write>(&self, f: &mut fmt::Formatter<W>) -> fmt::Result {
        let carried = self.0.carried;
        match self.0.stop {
            None => write!(f, "replay {carried} done"),
            Some(stop) => {
                let number = stop.fault.number();
                let place = stop.place;
                write!(f, "replay {carried} stopped {number} {place}")
            }
        }
    }
}

// A cell that holds tokens, and how many.
#[derive(Drop)]
pub struct CellLine {
    pub cell: usize,
    pub count: u16,
}

impl fmt::Display for CellLine {
    ghost output = { λ l. Some (cell_line l.cell l.count) };

    fn fmt<W: fmt::Write>(&self, f: &mut fmt::Formatter<W>) -> fmt::Result {
        let cell = self.cell;
        let count = self.count;
        write!(f, "cell {cell} {count}")
    }
}
