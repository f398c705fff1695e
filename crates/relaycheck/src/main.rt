// Reads net.bin and trace.bin, and prints the report on them: every claim judged, and the trace replayed.
#![tactic(auto)]

use report::report;
use std::fs::File;
use std::io::{self, ErrorKind, Read};

// One byte more than the longest file: enough to see that a file is too long.
const ENOUGH: u64 = 65537;

// What a file holds, as far as it matters. One that cannot be opened or read counts as empty, unless memory is wanting.
fn contents(rt: &HostRuntime, path: &str) -> io::Result<Vec<u8>> {
    let mut bytes = Vec::new(rt.alloc());
    let Ok(file) = File::open(rt, path) else {
        return Ok(bytes);
    };
    match file.take(ENOUGH).read_to_end(&mut bytes) {
        Ok(_) => Ok(bytes),
        Err(e) if e.kind() == ErrorKind::OutOfMemory => Err(e),
        Err(_) => Ok(Vec::new(rt.alloc())),
    }
}

fn main(rt: HostRuntime) -> anyhow::Result<()> {
    let file = contents(&rt, "net.bin")?;
    let trace = contents(&rt, "trace.bin")?;
    let text = report(rt.alloc(), file.as_slice(), trace.as_slice())?;
    rt.print(text.as_str())?;
    Ok(())
}
