// What the tables give to an argument that is no element of its sort: what stands there, of whichever operation. And a
// second file's tables.
use crate::nets::{joined, net_of};
use format::Direction;
use net::{Firing, read};
use std::test::Fail;

// Operation 0 gives 0 its 0 and 1 its 1, and operation 1 gives 1. The guard and the in-arc are operation 0 of variable 0.
const OPERATIONS: &str =
    "02010000000001 020000000001 0400 060100000000 0722002000 08003122002000 0F";

// Bag operation 0 gives an element one token of itself, and bag operation 1 five of both. The in-arc is bag operation 0 of
// variable 0.
const BAGS: &str = "0102 03010101000001 03010105050505 0401 060101000000 080033002000 0F";

#[test]
fn past_its_sort_an_argument_is_given_the_next_table(rt: HostRuntime) -> Result<(), Fail> {
    let past = Firing {
        transition: 0,
        mode: [2, 0, 0, 0],
    };
    let file = joined(rt.alloc(), &[OPERATIONS])?;
    let net = net_of(rt.alloc(), file.as_slice())?;
    let mut counts = [0; 2];
    net.count(past, Direction::In, &mut counts);
    assert_eq!(rt;
        (net.is_mode(past), net.guard(past), counts),
        (false, true, [0, 1])
    );
    let file = joined(rt.alloc(), &[BAGS])?;
    let net = net_of(rt.alloc(), file.as_slice())?;
    net.count(past, Direction::In, &mut counts);
    assert_eq!(rt; (net.is_mode(past), counts), (false, [5, 6]));
    Ok(())
}

#[test]
fn a_second_file_has_tables_and_arcs_of_its_own(rt: HostRuntime) -> Result<(), Fail> {
    let firing = Firing {
        transition: 0,
        mode: [0; 4],
    };
    let first = joined(rt.alloc(), &[OPERATIONS])?;
    let second = joined(rt.alloc(), &[BAGS])?;
    let mut net = net_of(rt.alloc(), first.as_slice())?;
    assert_eq!(rt; (net.transitions(), net.guard(firing)), (1, false));
    read(&mut net, second.as_slice())?;
    let mut counts = [0; 2];
    net.count(firing, Direction::In, &mut counts);
    assert_eq!(rt;
        (net.transitions(), net.guard(firing), counts),
        (1, true, [1, 0])
    );
    Ok(())
}
