// Verdicts, caps, and what lent memory holds after them.
use crate::memory::{Lent, marked};
use cases::nets::{SMALL, changed, joined, net_of, number};
use judge::{Judge, Outcome};
use lent::LentList;
use net::{CELLS, Firing, Net};
use std::alloc::Global;
use std::process::Abort;
use std::test::Fail;

// A claim that breaks at a transition, in a mode.
fn broken(transition: usize, mode: [u8; 4]) -> Outcome {
    Err(Firing { transition, mode })
}

// Checks the verdict of claim 0.
fn check_answer(
    rt: &impl Abort,
    at: &str,
    heap: Global,
    file: &[u8],
    want: Outcome,
) -> Result<(), Fail> {
    let net = net_of(heap, file)?;
    let mut lent = Lent::new();
    let mut judge = lent.judge(&net);
    assert_eq!(rt; judge.judge_by_kind(0), Ok(want), "{at}");
    Ok(())
}

// Nets, and the verdict of claim 0.
const VERDICTS: &[(&str, Result<u32, (usize, [u8; 4])>)] = &[
    (SMALL, Ok(4)),
    // x is taken and its neighbours in a chain of three are put: as equal, never rises and never falls
    (
        "0103 030101000100010001000100 0401 060101000000 0800312000 090033002000 0A010000 0B0000000001 0F",
        Err((0, [1, 0, 0, 0])),
    ),
    (
        "0103 030101000100010001000100 0401 060101000000 0800312000 090033002000 0A020000 0B0000000001 0F",
        Err((0, [1, 0, 0, 0])),
    ),
    (
        "0103 030101000100010001000100 0401 060101000000 0800312000 090033002000 0A030000 0B0000000001 0F",
        Ok(3),
    ),
    // one token is taken and three are put: modulo 2, modulo 3
    (
        "0101 03010103 0401 060000000000 080031210100 09003300210100 0A040002 0B0000000001 0F",
        Ok(1),
    ),
    (
        "0101 03010103 0401 060000000000 080031210100 09003300210100 0A040003 0B0000000001 0F",
        Err((0, [0, 0, 0, 0])),
    ),
    // only the last mode of the last transition breaks; with another table none does
    (
        "0103 0202010000000000000001 0400 060000000000 060201000000
         0800312200 2000 2001 090031210000 0A010000 0C000100000001 0F",
        Err((1, [2, 1, 0, 0])),
    ),
    (
        "0103 0202010000000000000000 0400 060000000000 060201000000
         0800312200 2000 2001 090031210000 0A010000 0C000100000001 0F",
        Ok(7),
    ),
    // a claim without weights
    ("0400 060100000000 0800312000 0A010000 0F", Ok(2)),
    // a guard that is never true
    (
        "0400 060100000000 07210000 0800312000 0A010000 0B0000000001 0F",
        Ok(0),
    ),
    // x is taken and y is put: where both are true, where they are the same, where they are not
    (
        "0400 060200000000 072520002001 0800312000 0900312001 0A010000 0C000100000001 0F",
        Ok(1),
    ),
    (
        "0400 060200000000 072300 2000 2001 0800312000 0900312001 0A010000 0C000100000001 0F",
        Ok(2),
    ),
    (
        "0400 060200000000 07242300 2000 2001 0800312000 0900312001 0A010000 0C000100000001 0F",
        Err((0, [0, 1, 0, 0])),
    ),
    // no transitions
    ("0400 0A010000 0B0000000001 0F", Ok(0)),
    // as many modes as there may be; and only the last of them takes a token
    (
        "0110 0401 060401010101 0800312000 0900312000 0A010000 0B0000000001 0F",
        Ok(65536),
    ),
    (
        "0110 0401 060401010101 0725 25 2301200021010F 2301200121010F 25 2301200221010F 2301200321010F
         0800312000 0A010000 0B0000000001 0F",
        Err((0, [15, 15, 15, 15])),
    ),
];

#[test]
fn verdicts_by_kind(rt: HostRuntime) -> Result<(), Fail> {
    for &(file, want) in VERDICTS {
        let bytes = joined(rt.alloc(), &[file])?;
        let want = want.map_err(|(transition, mode)| Firing { transition, mode });
        check_answer(&rt, file, rt.alloc(), bytes.as_slice(), want)?;
    }
    let larger = changed(rt.alloc(), 1, 2, "40")?;
    check_answer(&rt, "a larger sort", rt.alloc(), larger.as_slice(), Ok(128))
}

// The small net whose transition 1 keeps the channel, under a claim of each kind: whether it is accepted.
const KINDS: &[(&str, bool)] = &[
    ("0A010000", false),
    ("0A020000", true),
    ("0A030000", false),
    ("0A040002", false),
    ("0A050000", false),
    ("0A060000", true),
];

// Checks the codes that the small net's claim leaves at the cells of each place and at the first past them.
fn check_codes(rt: &impl Abort, at: &str, codes: &[i32; CELLS]) {
    assert_eq!(rt; (codes[0], codes[1], codes[2]), (0, 0, 0), "{at}");
    assert_eq!(rt; (codes[64], codes[65], codes[66]), (1, 1, 0), "{at}");
    assert_eq!(rt; (codes[128], codes[129]), (1, 0), "{at}");
}

// Checks that one token of the channel's is left before, and one of cell 0 after, or none.
fn check_counts(rt: &impl Abort, at: &str, lent: &Lent, many: u32) {
    let before = (marked(&lent.before), lent.before[64]);
    let after = (marked(&lent.after), lent.after[0]);
    assert_eq!(rt; before, (many as usize, many), "{at}");
    assert_eq!(rt; after, (many as usize, many), "{at}");
}

// Checks what a claim of the small net is judged to be, and what it leaves.
fn check_kept(rt: &impl Abort, at: &str, net: &Net, want: Outcome, many: u32) {
    let mut lent = Lent::new();
    let mut judge = lent.judge(net);
    assert_eq!(rt; judge.judge_by_kind(0), Ok(want), "{at}");
    check_codes(rt, at, &lent.codes);
    check_counts(rt, at, &lent, many);
}

#[test]
fn a_channel_that_is_kept(rt: HostRuntime) -> Result<(), Fail> {
    for &(claim, accepted) in KINDS {
        let file = changed(rt.alloc(), 63, 73, claim)?;
        let net = net_of(rt.alloc(), file.as_slice())?;
        let (want, many) = if accepted {
            (Ok(4), 0)
        } else {
            (broken(1, [0; 4]), 1)
        };
        check_kept(&rt, claim, &net, want, many);
    }
    Ok(())
}

// A firing takes p and returns p and q. Its claims, and their verdicts.
const TAKES_AND_RETURNS: &str = "0101 0401 0401 060000000000 080031210100 090031210100 090131210100
    0A060000 0B0000000001 0B0100000001
    0A050000 0B0000000001 0B0100000001
    0A060000 0B0100000001
    0A050000 0B0100000001
    0A060000 0B0000000001
    0A010000 0B0000000001
    0A010000 0B0100000001
    0F";

const RETURNS: &[bool] = &[true, true, false, true, true, true, false];

#[test]
fn siphons_and_traps_in_a_survey(rt: HostRuntime) -> Result<(), Fail> {
    let file = joined(rt.alloc(), &[TAKES_AND_RETURNS])?;
    let net = net_of(rt.alloc(), file.as_slice())?;
    let mut lent = Lent::new();
    let mut judge = lent.judge(&net);
    let mut places: [Outcome; 9] = [Ok(9); 9];
    let mut sheet = LentList::new(&mut places);
    assert!(rt; sheet.push(Ok(8)).is_ok());
    assert!(rt; judge.survey(&mut sheet).is_ok());
    assert_eq!(rt; sheet.get(0), Some(Ok(8)));
    for (i, accepted) in RETURNS.iter().enumerate() {
        let want = if *accepted { Ok(1) } else { broken(0, [0; 4]) };
        assert_eq!(rt; sheet.get(i.saturating_add(1)), Some(want), "{}", i);
    }
    assert_eq!(rt;
        (
            marked(&lent.before),
            marked(&lent.after),
            lent.codes[0],
            lent.codes[64]
        ),
        (1, 2, 0, 1)
    );
    Ok(())
}

#[test]
fn a_survey_measures_first(rt: HostRuntime) -> Result<(), Fail> {
    let file = joined(rt.alloc(), &[TAKES_AND_RETURNS])?;
    let net = net_of(rt.alloc(), file.as_slice())?;
    let empty = net_of(rt.alloc(), &[0x0F])?;
    let mut codes = [7; CELLS];
    let mut short = [7; 1023];
    let mut before = [7; CELLS];
    let mut after = [7; CELLS];
    let mut places: [Outcome; 6] = [Ok(9); 6];
    let mut sheet = LentList::new(&mut places);
    let mut judge = Judge {
        net: &net,
        codes: &mut codes,
        before: &mut before,
        after: &mut after,
    };
    // seven places are wanted
    assert_eq!(rt; number(judge.survey(&mut sheet)), 22);
    // without claims nothing is written, but the memory is measured
    judge.net = &empty;
    assert_eq!(rt; number(judge.survey(&mut sheet)), 0);
    let mut judge = Judge {
        net: &net,
        codes: &mut short,
        before: &mut before,
        after: &mut after,
    };
    assert_eq!(rt; number(judge.survey(&mut sheet)), 11);
    judge.net = &empty;
    assert_eq!(rt; number(judge.survey(&mut sheet)), 11);
    assert_eq!(rt; (sheet.len(), codes[0], before[0], after[0]), (0, 7, 7, 7));
    Ok(())
}
