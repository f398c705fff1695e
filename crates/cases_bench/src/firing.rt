// Fires, backs and restarts on a bench.
use crate::calls::{Call, make};
use Call::{Back, Fire, Restart};
use bench::{Bench, Counts, Firing, measure};
use cases::nets::{BLANK, MANY, SMALL, TWICE, joined, net_of, repeated};
use domain::Equal;
use judge::Judge;
use lent::LentList;
use net::{CELLS, Net};
use std::process::Abort;
use std::test::Fail;
use term::Fault;

// A call, its answer, and how many tokens one cell then has.
type Step = (Call, Result<(), Fault>, usize, u16);

// Checks calls in a row on a new bench, on a trail with room for so many firings.
fn check_steps(rt: &impl Abort, at: &str, net: &Net, room: usize, steps: &[Step]) {
    let mut cells = [7; CELLS];
    let mut memory = [BLANK; 8];
    let mut trail = LentList::new(&mut memory[0..room.min(8)]);
    let mut counts = Counts { cells: &mut cells };
    let mut bench = Bench::begin(net, &mut counts, &mut trail);
    for (i, (call, answer, cell, count)) in steps.iter().enumerate() {
        assert_eq!(rt; make(&mut bench, *call), *answer, "{at} {}", i);
        assert_eq!(rt; bench.count(*cell), Ok(*count), "{at} {}", i);
    }
}

const STEPS: &[Step] = &[
    (Fire(0, [0, 0, 0, 0]), Ok(()), 64, 1),
    (Fire(0, [1, 0, 0, 0]), Err(Fault::Lacks(128)), 65, 0),
    (Fire(0, [0, 0, 0, 0]), Err(Fault::Lacks(0)), 64, 1),
    (Back, Ok(()), 64, 0),
    (Back, Err(Fault::TrailEmpty), 128, 1),
    (Fire(2, [0, 0, 0, 0]), Err(Fault::NoTransition), 0, 1),
    (Fire(255, [9, 9, 9, 9]), Err(Fault::NoTransition), 0, 1),
    (Fire(0, [2, 0, 0, 0]), Err(Fault::Mode), 0, 1),
    (Fire(0, [0, 1, 0, 0]), Err(Fault::Mode), 0, 1),
    (Fire(1, [0, 0, 1, 0]), Err(Fault::Mode), 0, 1),
    (Fire(1, [0, 0, 0, 1]), Err(Fault::Mode), 0, 1),
    (Fire(1, [1, 0, 0, 0]), Err(Fault::Lacks(65)), 1, 1),
    (Fire(0, [1, 0, 0, 0]), Ok(()), 65, 1),
    (Fire(1, [1, 0, 0, 0]), Ok(()), 65, 0),
    (Fire(0, [0, 0, 0, 0]), Ok(()), 0, 0),
    (Back, Ok(()), 0, 1),
    (Back, Ok(()), 65, 1),
    (Restart, Ok(()), 65, 0),
    (Back, Err(Fault::TrailEmpty), 1, 1),
    (Fire(0, [0, 0, 0, 0]), Ok(()), 128, 0),
    (Restart, Ok(()), 128, 1),
];

// Without room on the trail, and with room for one.
const NO_ROOM: &[Step] = &[
    (Fire(0, [0, 0, 0, 0]), Err(Fault::TrailFull), 0, 1),
    (Fire(1, [0, 0, 0, 0]), Err(Fault::Lacks(64)), 0, 1),
];

const ROOM_FOR_ONE: &[Step] = &[
    (Fire(0, [0, 0, 0, 0]), Ok(()), 64, 1),
    (Fire(1, [0, 0, 0, 0]), Err(Fault::TrailFull), 64, 1),
    (Fire(0, [1, 0, 0, 0]), Err(Fault::Lacks(128)), 64, 1),
    (Back, Ok(()), 64, 0),
    (Fire(0, [1, 0, 0, 0]), Ok(()), 65, 1),
];

#[test]
fn calls_on_the_small_net(rt: HostRuntime) -> Result<(), Fail> {
    let file = joined(rt.alloc(), &[SMALL])?;
    let net = net_of(rt.alloc(), file.as_slice())?;
    check_steps(&rt, "the small net", &net, 8, STEPS);
    check_steps(&rt, "no room", &net, 0, NO_ROOM);
    check_steps(&rt, "room for one", &net, 1, ROOM_FOR_ONE);
    Ok(())
}

// Cell 0 holds 65,534. Transition 0 puts 1 there, 1 takes 1 and puts 1, 2 takes 1 and puts 2, 3 puts 1 there and
// takes 2 from cell 64, which holds 1; 4 fires only where x is not y.
const NEARLY_FULL: &str = "0101 0401 0401 050000FFFE 0501000001
    060000000000 090031210100
    060000000000 080031210100 090031210100
    060000000000 080031210100 09003231210100 31210100
    060000000000 090031210100 08013231210100 31210100
    060200000000 072423002000 2001
    0F";

const FULL: &[Step] = &[
    (Fire(0, [0, 0, 0, 0]), Ok(()), 0, 65535),
    (Fire(0, [0, 0, 0, 0]), Err(Fault::Full(0)), 0, 65535),
    (Fire(1, [0, 0, 0, 0]), Ok(()), 0, 65535),
    (Fire(2, [0, 0, 0, 0]), Err(Fault::Full(0)), 0, 65535),
    (Fire(3, [0, 0, 0, 0]), Err(Fault::Lacks(64)), 64, 1),
    (Back, Ok(()), 0, 65535),
    (Back, Ok(()), 0, 65534),
    (Fire(2, [0, 0, 0, 0]), Ok(()), 0, 65535),
    (Fire(4, [1, 1, 0, 0]), Err(Fault::Guard), 0, 65535),
    (Fire(4, [1, 0, 0, 0]), Ok(()), 0, 65535),
    (Fire(4, [1, 2, 0, 0]), Err(Fault::Mode), 0, 65535),
];

// A firing that puts 65,535 tokens at once.
const AT_ONCE: &[Step] = &[
    (Fire(0, [0, 0, 0, 0]), Ok(()), 0, 65535),
    (Fire(0, [0, 0, 0, 0]), Err(Fault::Full(0)), 0, 65535),
    (Back, Ok(()), 0, 0),
    (Fire(0, [0, 0, 0, 0]), Ok(()), 0, 65535),
];

#[test]
fn full_cells_and_guards(rt: HostRuntime) -> Result<(), Fail> {
    let file = joined(rt.alloc(), &[NEARLY_FULL])?;
    let net = net_of(rt.alloc(), file.as_slice())?;
    check_steps(&rt, "nearly full", &net, 8, FULL);
    let file = repeated(
        rt.alloc(),
        MANY,
        TWICE,
        127,
        "0900 32 3300210100 32 3300210100 3300210100 0F",
    )?;
    let net = net_of(rt.alloc(), file.as_slice())?;
    check_steps(&rt, "at once", &net, 8, AT_ONCE);
    Ok(())
}

// Checks the counts of a new bench on the small net.
fn check_counts(rt: &impl Abort, bench: &Bench) {
    for cell in 0..2000 {
        let want = match cell {
            0 | 1 | 128 => Ok(1),
            64 | 65 => Ok(0),
            _ => Err(Fault::NoCell),
        };
        assert_eq!(rt; bench.count(cell), want, "{}", cell);
    }
}

#[test]
fn cells_of_a_bench(rt: HostRuntime) -> Result<(), Fail> {
    let file = joined(rt.alloc(), &[SMALL])?;
    let net = net_of(rt.alloc(), file.as_slice())?;
    let mut cells = [7; CELLS];
    assert_eq!(rt; measure(&[0; 1023]), Err(Fault::Memory));
    assert_eq!(rt; measure(&[0; 1025]), Err(Fault::Memory));
    assert_eq!(rt; measure(&cells), Ok(()));
    let mut memory = [BLANK; 1];
    let mut trail = LentList::new(&mut memory);
    let mut counts = Counts { cells: &mut cells };
    let bench = Bench::begin(&net, &mut counts, &mut trail);
    check_counts(&rt, &bench);
    // memory that is no cell of the net is 0 too
    assert_eq!(rt; (counts.at(2), counts.at(1023)), (0, 0));
    Ok(())
}

// The value of the marking on a bench, by the codes of a claim.
fn value(codes: &[i32; CELLS], bench: &Bench) -> Result<i64, Fault> {
    let mut sum: i64 = 0;
    for (cell, code) in codes.iter().enumerate() {
        if *code != 0 {
            let count = bench.count(cell)?;
            sum = sum.saturating_add(i64::from(*code).saturating_mul(i64::from(count)));
        }
    }
    Ok(sum)
}

// Makes random calls on a new bench, checks after each that a claim's value is `want`, and gives how many calls were
// carried out.
fn check_random(rt: &impl Abort, net: &Net, codes: &[i32; CELLS], want: i64) -> u32 {
    let mut cells = [7; CELLS];
    let mut memory = [BLANK; 32];
    let mut trail = LentList::new(&mut memory);
    let mut counts = Counts { cells: &mut cells };
    let mut bench = Bench::begin(net, &mut counts, &mut trail);
    assert_eq!(rt; value(codes, &bench), Ok(want));
    let mut seed: u32 = 1;
    let mut carried: u32 = 0;
    for i in 0..1000 {
        seed = seed.wrapping_mul(1103515245).wrapping_add(12345);
        let call = match (seed >> 16) % 64 {
            0 => Restart,
            1..=12 => Back,
            n => Fire((n % 2) as usize, [(n / 2 % 2) as u8, 0, 0, 0]),
        };
        if make(&mut bench, call).is_ok() {
            carried = carried.saturating_add(1);
        }
        assert_eq!(rt; value(codes, &bench), Ok(want), "{}", i);
    }
    carried
}

#[test]
fn a_thousand_random_calls_keep_the_value(rt: HostRuntime) -> Result<(), Fail> {
    let file = joined(rt.alloc(), &[SMALL])?;
    let net = net_of(rt.alloc(), file.as_slice())?;
    let mut codes = [0; CELLS];
    let mut before = [0; CELLS];
    let mut after = [0; CELLS];
    let mut judge = Judge {
        net: &net,
        codes: &mut codes,
        before: &mut before,
        after: &mut after,
    };
    assert_eq!(rt; judge.judge(0, &Equal), Ok(Ok(4)));
    let carried = check_random(&rt, &net, &codes, 1);
    assert!(rt; 100 < carried && carried < 1000);
    Ok(())
}
