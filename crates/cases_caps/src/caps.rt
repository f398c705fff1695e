// Caps by the kind of a claim, and the refusals that leave the memory.
use cases::nets::{SMALL, changed, joined, net_of};
use cases_judging::memory::{Cap, Lent, cap_of, marked};
use judge::Judge;
use net::{Net, ReadError};
use std::alloc::Global;
use std::process::Abort;
use std::test::Fail;

// The cap of a cell by claim 0.
fn first_cap(heap: Global, file: &[u8], cell: usize) -> Result<Cap, ReadError> {
    let net = net_of(heap, file)?;
    let mut lent = Lent::new();
    let mut judge = lent.judge(&net);
    Ok(cap_of(judge.cap_by_kind(0, cell)))
}

// The small net with the bytes from one place up to 73 replaced, a cell, and its cap.
const SMALL_CAPS: &[(usize, &str, usize, Cap)] = &[
    (69, "0A010000", 64, Ok(Some(1))),
    (69, "0A010000", 128, Ok(Some(1))),
    (69, "0A010000", 0, Ok(None)),
    (69, "0A010000", 2, Err(13)),
    (69, "0A010000", 129, Err(13)),
    (69, "0A010000", 192, Err(13)),
    (69, "0A010000", 1024, Err(13)),
    (69, "0A020000", 65, Ok(Some(1))),
    (69, "0A030000", 64, Err(15)),
    (69, "0A040002", 64, Err(15)),
    (69, "0A050000", 64, Err(15)),
    (69, "0A050000", 2, Err(13)),
    (69, "0A060000", 64, Ok(None)),
    // a weight below 0 elsewhere, and a channel that is kept
    (69, "0A010000 0B00FFFFFFFF", 64, Err(15)),
    (63, "0A010000", 64, Err(16)),
    (63, "0A030000", 64, Err(15)),
    (63, "0A020000", 64, Ok(Some(1))),
];

// Other nets, a cell, and its cap.
const CAPS: &[(&str, usize, Cap)] = &[
    (
        "0101 0401 0401 0500000007 0A010000 0B0000000001 0B0100000002 0F",
        64,
        Ok(Some(3)),
    ),
    (
        "0101 0401 0401 0500000007 0A010000 0B0000000001 0B0100000002 0F",
        0,
        Ok(Some(7)),
    ),
    ("0101 0401 0401 0A060000 0B0000000001 0F", 0, Ok(Some(0))),
    ("0101 0401 0401 0A060000 0B0000000001 0F", 64, Ok(None)),
    ("0101 0401 050000FFFF 0A010000 0B0000000000 0F", 0, Ok(None)),
    // later tokens and weights replace earlier ones
    (
        "0400 0500000005 0500000003 0A010000 0B0000000002 0C000000000001 0F",
        0,
        Ok(Some(3)),
    ),
    (
        "0400 0500000005 0500000003 0A010000 0B0000000002 0C000000000001 0F",
        1,
        Ok(Some(1)),
    ),
    (
        "0400 0500000005 0500000003 0A010000 0C000000000001 0B0000000002 0F",
        1,
        Ok(Some(3)),
    ),
];

#[test]
fn caps_by_kind(rt: HostRuntime) -> Result<(), Fail> {
    for &(from, with, cell, want) in SMALL_CAPS {
        let file = changed(rt.alloc(), from, 73, with)?;
        assert_eq!(rt;
            first_cap(rt.alloc(), file.as_slice(), cell)?,
            want,
            "{with} {cell}"
        );
    }
    for &(file, cell, want) in CAPS {
        let bytes = joined(rt.alloc(), &[file])?;
        assert_eq!(rt;
            first_cap(rt.alloc(), bytes.as_slice(), cell)?,
            want,
            "{file} {cell}"
        );
    }
    Ok(())
}

// A claim and a cell of the small net, the lengths of the memory, and the fault that a cap and a verdict give.
const REFUSALS: &[(usize, usize, [usize; 3], u8)] = &[
    (0, 0, [1023, 1024, 1024], 11),
    (0, 0, [1024, 1025, 1024], 11),
    (0, 0, [1024, 1024, 0], 11),
    (1, 2, [1025, 1024, 1024], 11),
    (1, 2, [1024, 1024, 1024], 12),
    (0, 2, [1024, 1024, 1024], 13),
    (0, 1024, [1024, 1024, 1024], 13),
];

// Checks that a cap and a verdict are refused and leave the memory; no verdict asks for a cell.
fn check_refused(
    rt: &impl Abort,
    at: &str,
    net: &Net,
    claim: usize,
    cell: usize,
    lengths: [usize; 3],
    number: u8,
) -> Result<(), Fail> {
    let mut codes = [7; 1025];
    let mut before = [7; 1025];
    let mut after = [7; 1025];
    let mut judge = Judge {
        net,
        codes: &mut codes[0..lengths[0].min(1025)],
        before: &mut before[0..lengths[1].min(1025)],
        after: &mut after[0..lengths[2].min(1025)],
    };
    assert_eq!(rt; cap_of(judge.cap_by_kind(claim, cell)), Err(number), "{at}");
    if number < 13 {
        assert_eq!(rt;
            judge.judge_by_kind(claim).map_err(|fault| fault.number()),
            Err(number),
            "{at}"
        );
    }
    assert_eq!(rt;
        (codes[0], codes[64], before[0], after[0]),
        (7, 7, 7, 7),
        "{at}"
    );
    Ok(())
}

#[test]
fn refusals_leave_the_memory(rt: HostRuntime) -> Result<(), Fail> {
    let small = joined(rt.alloc(), &[SMALL])?;
    let net = net_of(rt.alloc(), small.as_slice())?;
    for &(claim, cell, lengths, number) in REFUSALS {
        check_refused(
            &rt,
            format!(in rt.alloc(); "{claim} {cell} {number}")?.as_str(),
            &net,
            claim,
            cell,
            lengths,
            number,
        )?;
    }
    Ok(())
}

// The small net whose transition 1 keeps the channel, under a claim of each kind: the cap of cell 64, and how many of
// the lent counts are not 0 after asking for it, where all were 7 before.
const KINDS: &[(&str, Cap, usize)] = &[
    ("0A010000", Err(16), 1),
    ("0A020000", Ok(Some(1)), 0),
    ("0A030000", Err(15), 1024),
    ("0A040002", Err(15), 1024),
    ("0A050000", Err(15), 1024),
    ("0A060000", Ok(None), 0),
];

// Checks the cap of cell 64, and what asking for it leaves.
fn check_kept(rt: &impl Abort, at: &str, net: &Net, want: Cap, counts: usize) {
    let mut lent = Lent::new();
    let mut judge = lent.judge(net);
    assert_eq!(rt; cap_of(judge.cap_by_kind(0, 64)), want, "{at}");
    let left = (marked(&lent.before), marked(&lent.after));
    assert_eq!(rt; left, (counts, counts), "{at}");
    assert_eq!(rt; (lent.codes[64], lent.codes[66]), (1, 0), "{at}");
}

#[test]
fn caps_of_a_channel_that_is_kept(rt: HostRuntime) -> Result<(), Fail> {
    for &(claim, want, counts) in KINDS {
        let file = changed(rt.alloc(), 63, 73, claim)?;
        let net = net_of(rt.alloc(), file.as_slice())?;
        check_kept(&rt, claim, &net, want, counts);
    }
    Ok(())
}
