// Files as hexadecimal digits, in parts, and small changes of them.
ghost use Rattle.std.specs.Prelude.{◌≡◌};
ghost use Rattle.cases.specs.Digits.{hex_digit};

use net::{Firing, Net, ReadError, read};
use std::alloc::{AllocError, Global};
use term::Fault;

// Two handsets share one channel. Place 0 is quiet, 1 is sending, 2 is the free channel; transition 0 begins to
// send, transition 1 ends it and gives the channel back.
pub const SMALL: &str = "0102 0101 0401 0401 0402 0500000001 0500010001 0502000001
    060101000000 0800312000 080231210200 0901312000
    060101000000 0801312000 0900312000 090231210200
    0A010000 0B0100000001 0B0200000001 0F";

// One cell, a bag operation that gives 255 tokens, and a transition; then an out-arc of twice as many.
pub const MANY: &str = "0101 030101FF 0401 060000000000";

pub const TWICE: &str = "0900 32 3300210100 3300210100";

// Memory of a trail, before anything fires.
pub const BLANK: Firing = Firing {
    transition: 0,
    mode: [0; 4],
};

// The value of a hexadecimal digit.
fn digit(c: u8) -> Option<u8>
    ensures { result ≡ hex_digit c }
{
    match c {
        b'0'..=b'9' => Some(c - b'0'),
        b'A'..=b'F' => Some(c - b'A' + 10),
        _ => None,
    }
}

// Adds the bytes of hexadecimal digits; spaces do not count.
fn add_hex(bytes: &mut Vec<u8>, text: &str) -> Result<(), AllocError> {
    let mut high = None;
    for low in text.bytes().filter_map(digit) {
        match high.take() {
            None => high = Some(low),
            Some(h) => bytes.push(h << 4 | low)?,
        }
    }
    Ok(())
}

// The bytes of some texts, one behind the other.
pub fn joined(heap: Global, texts: &[&str]) -> Result<Vec<u8>, AllocError> {
    let mut bytes = Vec::new(heap);
    for text in texts {
        add_hex(&mut bytes, text)?;
    }
    Ok(bytes)
}

// `head`, then `unit` some times, then `tail`.
pub fn repeated(
    heap: Global,
    head: &str,
    unit: &str,
    times: usize,
    tail: &str,
) -> Result<Vec<u8>, AllocError> {
    let mut bytes = joined(heap, &[head])?;
    let unit = joined(heap, &[unit])?;
    for _ in 0..times {
        bytes.extend_from_slice(unit.as_slice())?;
    }
    add_hex(&mut bytes, tail)?;
    Ok(bytes)
}

// The small net with other bytes in place of those from `from` up to `to`.
pub fn changed(heap: Global, from: usize, to: usize, with: &str) -> Result<Vec<u8>, AllocError> {
    let small = joined(heap, &[SMALL])?;
    let from = from.min(small.len());
    let to = to.min(small.len());
    let mut bytes = Vec::from_slice(heap, &small.as_slice()[0..from])?;
    add_hex(&mut bytes, with)?;
    bytes.extend_from_slice(&small.as_slice()[to..])?;
    Ok(bytes)
}

// The net that a file reads as.
pub fn net_of(heap: Global, file: &[u8]) -> Result<Net, ReadError> {
    let mut net = Net::new(heap)?;
    read(&mut net, file)?;
    Ok(net)
}

// The number of a refusal, 0 where there is none.
pub fn number(answer: Result<(), Fault>) -> u8 {
    answer.err().map_or(0, |fault| fault.number())
}
