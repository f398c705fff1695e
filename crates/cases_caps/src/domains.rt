// Verdicts and caps under a domain that the caller gives, one of the caller's own among them.
use crate::broken::broken;
use cases::nets::{MANY, TWICE, changed, joined, net_of, repeated};
use cases_judging::memory::{Cap, Lent, cap_of, marked};
use domain::{Equal, Measuring, NeverRises, Siphon, Turned, WeightDomain};
use domain_tests::{Greatest, Height};
use judge::Verdict;
use net::Net;
use std::fmt::Debug;
use std::process::Abort;
use std::test::Fail;
use term::Fault;

// Checks the verdict of claim 0 under a domain.
fn check_verdict<D: WeightDomain>(
    rt: &impl Abort,
    net: &Net,
    d: &D,
    want: Result<Verdict<D::Value>, Fault>,
)
where
    D::Value: PartialEq + Debug,
{
    let mut lent = Lent::new();
    let mut judge = lent.judge(net);
    assert_eq!(rt; judge.judge(0, d), want);
}

// Checks the cap of a cell by claim 0 under a domain.
fn check_cap<M: Measuring>(rt: &impl Abort, net: &Net, cell: usize, m: &M, want: Cap) {
    let mut lent = Lent::new();
    let mut judge = lent.judge(net);
    assert_eq!(rt; cap_of(judge.cap(0, cell, m)), want);
}

// Checks verdicts and caps of a channel that is kept, one after the other on the same memory.
fn check_kept(rt: &impl Abort, net: &Net, lent: &mut Lent) {
    let mut judge = lent.judge(net);
    assert_eq!(rt; judge.judge(0, &Equal), Ok(broken(1, 1, 0)));
    assert_eq!(rt; judge.judge(0, &Siphon), Ok(Ok(4)));
    assert_eq!(rt; cap_of(judge.cap(0, 64, &Siphon)), Ok(None));
    assert_eq!(rt; cap_of(judge.cap(0, 64, &Equal)), Err(16));
}

// Checks the refusals of a code that is no weight of the domain, or none that is plain, on the same memory too.
fn check_refused(rt: &impl Abort, net: &Net, lent: &mut Lent) {
    let mut judge = lent.judge(net);
    assert_eq!(rt; judge.judge(0, &Siphon), Err(Fault::NoWeight));
    assert_eq!(rt; cap_of(judge.cap(0, 0, &Siphon)), Err(14));
    assert_eq!(rt; cap_of(judge.cap(0, 0, &Equal)), Err(15));
}

#[test]
fn under_a_given_domain(rt: HostRuntime) -> Result<(), Fail> {
    let mut lent = Lent::new();
    // the kind of the claim plays no part
    let kept = changed(rt.alloc(), 63, 73, "0A050000")?;
    let net = net_of(rt.alloc(), kept.as_slice())?;
    check_kept(&rt, &net, &mut lent);
    let two = changed(rt.alloc(), 73, 85, "0C0000FFFFFFFE")?;
    let net = net_of(rt.alloc(), two.as_slice())?;
    lent.before[3] = 9;
    check_refused(&rt, &net, &mut lent);
    assert_eq!(rt; (lent.codes[0], lent.codes[1], lent.before[3]), (-2, 0, 9));
    Ok(())
}

#[test]
fn a_code_that_is_no_weight(rt: HostRuntime) -> Result<(), Fail> {
    let two = changed(rt.alloc(), 73, 85, "0C0000FFFFFFFE")?;
    let net = net_of(rt.alloc(), two.as_slice())?;
    check_verdict(&rt, &net, &Siphon, Err(Fault::NoWeight));
    check_verdict(&rt, &net, &Greatest, Err(Fault::NoWeight));
    check_cap(&rt, &net, 0, &Siphon, Err(14));
    check_cap(&rt, &net, 0, &Equal, Err(15));
    let mut lent = Lent::new();
    let mut judge = lent.judge(&net);
    assert!(rt; judge.judge(0, &Siphon).is_err());
    assert_eq!(rt; (lent.codes[0], lent.codes[1], lent.before[3]), (-2, 0, 7));
    Ok(())
}

#[test]
fn many_tokens_weigh_exactly(rt: HostRuntime) -> Result<(), Fail> {
    // 257 times 255 tokens are put, of the least weight
    let file = repeated(
        rt.alloc(),
        MANY,
        TWICE,
        127,
        "0900 32 3300210100 32 3300210100 3300210100 0A010000 0B00FFF0BDC0 0F",
    )?;
    let net = net_of(rt.alloc(), file.as_slice())?;
    check_verdict(&rt, &net, &Equal, Ok(broken(0, 0, -65_535_000_000)));
    let mut lent = Lent::new();
    let mut judge = lent.judge(&net);
    assert!(rt; judge.judge(0, &Equal).is_ok());
    assert_eq!(rt; (marked(&lent.before), lent.after[0]), (0, 65535));
    Ok(())
}

// One token at a height of 9 becomes three at 5: the greatest height does not rise, the sum of the heights does.
const SPLITS: &str = "0101 03010103 0401 0401 060000000000 080131210100 09003300210100
    0A010000 0B0000000005 0B0100000009 0F";

// Two tokens at a height of 5 become one at 9: the greatest height rises, the sum of the heights does not.
const JOINS: &str = "0101 0401 0401 060000000000 08003231210100 31210100 090131210100
    0A010000 0B0000000005 0B0100000009 0F";

fn heights(before: u32, after: u32) -> Verdict<Height> {
    broken(0, Height { metres: before }, Height { metres: after })
}

// `SPLITS` with two tokens at a height of 5: what is no higher is unbounded, of what is higher there is none.
const STANDS: &str = "0101 03010103 0401 0401 0500000002 060000000000 080131210100 09003300210100
    0A010000 0B0000000005 0B0100000009 0F";

#[test]
fn caps_by_the_greatest_height(rt: HostRuntime) -> Result<(), Fail> {
    let stands = joined(rt.alloc(), &[STANDS])?;
    let net = net_of(rt.alloc(), stands.as_slice())?;
    check_cap(&rt, &net, 0, &Greatest, Ok(None));
    check_cap(&rt, &net, 64, &Greatest, Ok(Some(0)));
    check_cap(&rt, &net, 0, &NeverRises, Err(16));
    Ok(())
}

#[test]
fn a_greatest_height_that_falls(rt: HostRuntime) -> Result<(), Fail> {
    let splits = joined(rt.alloc(), &[SPLITS])?;
    let net = net_of(rt.alloc(), splits.as_slice())?;
    check_verdict(&rt, &net, &Greatest, Ok(Ok(1)));
    check_verdict(&rt, &net, &Turned(Greatest), Ok(heights(9, 5)));
    check_verdict(&rt, &net, &NeverRises, Ok(broken(0, 9, 15)));
    Ok(())
}

#[test]
fn a_greatest_height_that_rises(rt: HostRuntime) -> Result<(), Fail> {
    let joins = joined(rt.alloc(), &[JOINS])?;
    let net = net_of(rt.alloc(), joins.as_slice())?;
    check_verdict(&rt, &net, &Greatest, Ok(heights(5, 9)));
    check_verdict(&rt, &net, &Turned(Greatest), Ok(Ok(1)));
    check_verdict(&rt, &net, &NeverRises, Ok(Ok(1)));
    let mut lent = Lent::new();
    let mut judge = lent.judge(&net);
    assert!(rt; judge.judge(0, &Greatest).is_ok());
    assert_eq!(rt; (lent.codes[0], lent.codes[64]), (5, 9));
    assert_eq!(rt; (lent.before[0], lent.after[64]), (2, 1));
    Ok(())
}
