// The text of the report, built line by line.
ghost use Rattle.std.specs.Prelude.{◌≡◌, [], ◌++◌, length, OnOk, string_bytes, slice_index, slice_index_or, Ok};
ghost use Rattle.std.specs.Fmt.{AppendsText, with_newline};
ghost use Rattle.report.specs.Lines.{claim_line, replay_line};
ghost use Rattle.lent.specs.Held.{held, memory};
ghost use Rattle.net.specs.Of.{system};
ghost use Rattle.judge.specs.Calls.{Fits, lent, net_of};
ghost use Rattle.report.specs.Report.{Adds, AreClaimLines, AreReplayLines, cell_shown, in_order, line};

use crate::lines::{CellLine, ClaimLine, ReplayLine};
use bench::Firing;
use judge::{Judge, Outcome};
use lent::LentList;
use net::{CELLS, Net};
use std::alloc::{AllocError, Global};
use std::fmt;
use trace::{Replayed, replay};

// How many claims a net has at most.
const CLAIMS: usize = 16;

// How many firings the trail can hold.
const TRAIL: usize = 8192;

// Adds a line and the line feed that ends it.
pub(crate) fn add_line<L: fmt::Display + Drop>(text: &mut String, line: L) -> Result<(), AllocError>
    ensures { OnOk result (AppendsText (string_bytes text.old) (string_bytes text.new) (with_newline (L.output line))) }
{
    writeln!(text, "{line}")
}

// Adds the line of a cell, if it holds tokens.
fn add_cell(text: &mut String, cell: usize, count: u16) -> Result<(), AllocError>
    ensures { OnOk result (string_bytes text.new ≡ string_bytes text.old ++ cell_shown cell count) }
{
    if count > 0 {
        add_line(text, CellLine { cell, count })?;
    }
    Ok(())
}

// Adds the line of a claim.
fn add_claim(text: &mut String, claim: usize, outcome: Outcome) -> Result<(), AllocError>
    ensures { OnOk result (string_bytes text.new ≡ string_bytes text.old ++ line (claim_line claim outcome)) }
{
    add_line(text, ClaimLine { claim, outcome })
}

// Adds the lines of claims with these outcomes, counted from 0.
fn add_outcomes(text: &mut String, outcomes: &[Outcome]) -> Result<(), AllocError>
    ensures { OnOk result (string_bytes text.new ≡ string_bytes text.old ++ in_order (λ i. line (claim_line i (slice_index_or outcomes.now i (Ok 0)))) (length outcomes.now)) }
{
    for (claim, outcome) in outcomes.iter().enumerate() {
        add_claim(text, claim, *outcome)?;
    }
    Ok(())
}

// Adds the lines of the cells that hold tokens.
fn add_cells(text: &mut String, counts: &[u16]) -> Result<(), AllocError>
    ensures { OnOk result (string_bytes text.new ≡ string_bytes text.old ++ in_order (λ c. cell_shown c (slice_index counts.now c)) (length counts.now)) }
{
    for (cell, count) in counts.iter().enumerate() {
        add_cell(text, cell, *count)?;
    }
    Ok(())
}

// Adds the lines of a replay that ended so and left these counts.
fn add_replayed(text: &mut String, done: Replayed, counts: &[u16]) -> Result<(), AllocError>
    ensures { OnOk result (string_bytes text.new ≡ string_bytes text.old ++ (line (replay_line done) ++ in_order (λ c. cell_shown c (slice_index counts.now c)) (length counts.now))) }
{
    add_line(text, ReplayLine(done))?;
    add_cells(text, counts)
}

// Adds the lines of all claims, judged by their kinds in one survey onto an empty sheet.
fn add_survey(
    judge: &mut Judge,
    sheet: &mut LentList<Outcome>,
    text: &mut String,
) -> Result<(), AllocError>
    requires fits { Fits (lent judge.old) }
    requires empty { held sheet.old ≡ [] }
    requires room { length (memory sheet.old) ≡ 16 }
    ensures { OnOk result (Adds (AreClaimLines (net_of judge.old)) (string_bytes text.old) (string_bytes text.new)) }
{
    match judge.survey(sheet) {
        Ok(()) => add_outcomes(text, sheet.as_slice()),
        // the memory fits and the sheet has room for all claims: no survey is refused
        Err(_) => Ok(()),
    }
}

// Adds the lines of all claims.
pub(crate) fn add_claims(net: &Net, text: &mut String) -> Result<(), AllocError>
    ensures { OnOk result (Adds (AreClaimLines (system net.now)) (string_bytes text.old) (string_bytes text.new)) }
{
    let mut codes = [0i32; CELLS];
    let mut before = [0u32; CELLS];
    let mut after = [0u32; CELLS];
    let mut judge = Judge {
        net,
        codes: &mut codes,
        before: &mut before,
        after: &mut after,
    };
    let mut outcomes: [Outcome; CLAIMS] = [Ok(0); CLAIMS];
    let mut sheet = LentList::new(&mut outcomes);
    add_survey(&mut judge, &mut sheet, text)
}

// Adds the lines of the replay of a trace on a new bench, in memory of the stated lengths: how it ended, and the cells that
// hold tokens after it.
fn add_replay(
    net: &Net,
    counts: &mut [u16],
    trail: &mut LentList<Firing>,
    trace: &[u8],
    text: &mut String,
) -> Result<(), AllocError>
    requires cells { length counts.old ≡ 1024 }
    requires room { length (memory trail.old) ≡ 8192 }
    ensures { OnOk result (Adds (AreReplayLines (system net.now) trace.now) (string_bytes text.old) (string_bytes text.new)) }
{
    match replay(net, counts, trail, trace) {
        Ok(done) => add_replayed(text, done, counts),
        // the counts are as many as there are cells: no replay is refused
        Err(_) => Ok(()),
    }
}

// Adds the lines of the replay of a trace.
pub(crate) fn add_trace(
    heap: Global,
    net: &Net,
    trace: &[u8],
    text: &mut String,
) -> Result<(), AllocError>
    ensures { OnOk result (Adds (AreReplayLines (system net.now) trace.now) (string_bytes text.old) (string_bytes text.new)) }
{
    let mut counts = [0u16; CELLS];
    let mut memory = vec![in heap; Firing {
        transition: 0,
        mode: [0; 4]
    }; TRAIL]?;
    let mut trail = LentList::new(memory.as_mut_slice());
    add_replay(net, &mut counts, &mut trail, trace, text)
}
