// The report on a net file and a trace.
#![tactic(auto)]

ghost use Rattle.std.specs.Prelude.{IfOk, string_bytes};
ghost use Rattle.report.specs.Report.{IsReport, IsTheReport};

mod build;
mod lines;
mod memory;

use build::{add_claims, add_line, add_trace};
use lines::FaultLine;
pub use memory::NoMemory;
use net::{Net, ReadError, read};
use std::alloc::Global;

// Writes the report into a new text.
fn written(heap: Global, file: &[u8], trace: &[u8]) -> Result<String, NoMemory>
    ensures { IfOk result (λ text. IsReport file.now trace.now (string_bytes text)) }
{
    let mut net = Net::new(heap)?;
    let mut text = String::new(heap);
    match read(&mut net, file) {
        Ok(()) => {
            add_claims(&net, &mut text)?;
            add_trace(heap, &net, trace, &mut text)?;
            Ok(text)
        }
        Err(ReadError::File(fault)) => {
            add_line(&mut text, FaultLine(fault))?;
            Ok(text)
        }
        Err(ReadError::Memory) => Err(NoMemory::Net),
    }
}

// The text of the report. There is none only where no memory is left.
pub fn report(heap: Global, file: &[u8], trace: &[u8]) -> Result<String, NoMemory>
    ensures { IfOk result (λ text. IsTheReport file.now trace.now (string_bytes text)) }
{
    written(heap, file, trace)
}
