// Replays of traces.
use crate::ends::{Ended, ended};
use bench::Firing;
use cases::nets::{BLANK, SMALL, joined, net_of, repeated};
use lent::LentList;
use net::{CELLS, Net};
use std::alloc::Global;
use std::process::Abort;
use std::test::Fail;
use term::Fault;
use trace::replay;

// What a replay leaves: how it ends, how many firings are then on the trail, and how many tokens the cells 0, 1, 64
// and 128 then have.
pub type Left = (Ended, usize, [u16; 4]);

// Checks a replay on a trail with room for 8,192 firings.
pub fn check_replay(
    rt: &impl Abort,
    at: &str,
    heap: Global,
    net: &Net,
    bytes: &[u8],
    want: Left,
) -> Result<(), Fail> {
    let mut cells = [7; CELLS];
    let mut memory = vec![in heap; BLANK; 8192]?;
    let mut trail = LentList::new(memory.as_mut_slice());
    let replayed = replay(net, &mut cells, &mut trail, bytes);
    let tokens = [cells[0], cells[1], cells[64], cells[128]];
    assert_eq!(rt;
        replayed.map(|done| (ended(done), trail.len(), tokens)),
        Ok(want),
        "{at}"
    );
    assert_eq!(rt; (cells[2], cells[1023]), (0, 0), "{at}");
    Ok(())
}

// Where nothing is sent, and where handset 0 sends.
pub const QUIET: [u16; 4] = [1, 1, 0, 1];

pub const SENDING: [u16; 4] = [0, 1, 1, 0];

// Traces on the small net.
const TRACES: &[(&str, Left)] = &[
    ("", ((0, 2, 0), 0, QUIET)),
    ("4F", ((0, 0, 0), 0, QUIET)),
    ("400000000000 4F", ((1, 0, 0), 1, SENDING)),
    ("400000000000 400001000000 4F", ((1, 20, 128), 1, SENDING)),
    ("400000000000 41 4F", ((2, 0, 0), 0, QUIET)),
    ("400000000000 42 41 4F", ((2, 23, 0), 0, QUIET)),
    ("400000000000 42 42 4F", ((3, 0, 0), 0, QUIET)),
    ("400000000000 400100000000 41 4F", ((3, 0, 0), 1, SENDING)),
    ("400000000000", ((1, 2, 6), 1, SENDING)),
    ("40", ((0, 2, 1), 0, QUIET)),
    ("4002", ((0, 2, 2), 0, QUIET)),
    ("42 4000000000", ((1, 2, 6), 0, QUIET)),
    ("400200000000", ((0, 17, 0), 0, QUIET)),
    ("40FF00000000 4F", ((0, 17, 0), 0, QUIET)),
    ("400002000000", ((0, 18, 0), 0, QUIET)),
    ("400000010000", ((0, 18, 0), 0, QUIET)),
    ("400000000001", ((0, 18, 0), 0, QUIET)),
    ("400100000000 4F", ((0, 20, 64), 0, QUIET)),
    ("41", ((0, 23, 0), 0, QUIET)),
    ("4F4F", ((0, 10, 1), 0, QUIET)),
    ("400000000000 4F00", ((1, 10, 7), 1, SENDING)),
    ("400000000000 41 00", ((2, 3, 7), 0, QUIET)),
    ("43", ((0, 3, 0), 0, QUIET)),
    ("42 0F", ((1, 3, 1), 0, QUIET)),
];

#[test]
fn replays_on_the_small_net(rt: HostRuntime) -> Result<(), Fail> {
    let file = joined(rt.alloc(), &[SMALL])?;
    let net = net_of(rt.alloc(), file.as_slice())?;
    for &(text, want) in TRACES {
        let bytes = joined(rt.alloc(), &[text])?;
        check_replay(&rt, text, rt.alloc(), &net, bytes.as_slice(), want)?;
    }
    Ok(())
}

// Long traces: a head, some bytes so many times, and a tail.
const LONG: &[(&str, &str, usize, &str, Left)] = &[
    // as long as may be, and one longer: nothing is carried out
    ("", "42", 65535, "4F", ((65535, 0, 0), 0, QUIET)),
    ("400000000000", "42", 65530, "4F", ((0, 1, 65536), 0, QUIET)),
    ("", "00", 65537, "", ((0, 1, 65536), 0, QUIET)),
    // as many firings as the trail holds, one more, and one more after a restart or a back
    (
        "",
        "400000000000 400100000000",
        4096,
        "4F",
        ((8192, 0, 0), 8192, QUIET),
    ),
    (
        "",
        "400000000000 400100000000",
        4096,
        "400000000000 4F",
        ((8192, 22, 0), 8192, QUIET),
    ),
    (
        "",
        "400000000000 400100000000",
        4096,
        "41 400100000000 42 400000000000 4F",
        ((8196, 0, 0), 1, SENDING),
    ),
];

#[test]
fn long_traces(rt: HostRuntime) -> Result<(), Fail> {
    let file = joined(rt.alloc(), &[SMALL])?;
    let net = net_of(rt.alloc(), file.as_slice())?;
    for &(head, unit, times, tail, want) in LONG {
        let bytes = repeated(rt.alloc(), head, unit, times, tail)?;
        check_replay(&rt, tail, rt.alloc(), &net, bytes.as_slice(), want)?;
    }
    Ok(())
}

#[test]
fn replay_measures_its_memory(rt: HostRuntime) -> Result<(), Fail> {
    let file = joined(rt.alloc(), &[SMALL])?;
    let net = net_of(rt.alloc(), file.as_slice())?;
    let mut cells = [7; 1025];
    let mut memory = [BLANK; 1];
    let mut trail = LentList::new(&mut memory);
    assert_eq!(rt;
        replay(&net, &mut cells, &mut trail, b"\x4F"),
        Err(Fault::Memory)
    );
    assert_eq!(rt;
        replay(&net, &mut cells[2..], &mut trail, b"\x00"),
        Err(Fault::Memory)
    );
    assert_eq!(rt; (cells[0], cells[2], cells[1024]), (7, 7, 7));
    Ok(())
}
