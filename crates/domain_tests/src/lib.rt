// A domain of a caller's own, and examples of every domain.
#![tactic(auto)]

ghost use Rattle.std.specs.Prelude.{◌≡◌, ◌*◌, ◌≤◌, length};
ghost use Rattle.domain.specs.Meaning.{largest_sum, largest_weight};
ghost use Rattle.domain_tests.specs.Greatest.{greatest};
ghost use Rattle.domain_tests.specs.Heights.{greatest_laws, greatest_plain};
ghost use Rattle.domain_tests.specs.Total.{running_of, total_of};

use domain::{Measuring, WeightDomain, add_weight};

// How high a token stands. It is moved, never copied, as values that own memory would be.
#[derive(PartialEq, Eq, Debug, Drop)]
pub struct Height {
    pub metres: u32,
}

// The value of a marking is the height of its highest token, which never rises.
#[derive(Clone, Copy, PartialEq, Eq, Debug)]
pub struct Greatest;

impl WeightDomain for Greatest {
    type Value = Height;

    ghost meaning = { λ _. greatest };

    ghost lawful = { λ d. greatest_laws };

    fn is_weight(&self, code: i32) -> bool {
        0 <= code
    }

    fn weight(&self, code: i32) -> Height {
        Height {
            metres: u32::try_from(code).unwrap_or(0),
        }
    }

    fn zero(&self) -> Height {
        Height { metres: 0 }
    }

    #[tactic(auto, using(crate::proofs::Heights::added))]
    fn add_copies(&self, v: &Height, n: u32, w: &Height) -> Height {
        if n > 0 && v.metres < w.metres {
            Height { metres: w.metres }
        } else {
            Height { metres: v.metres }
        }
    }

    fn relates(&self, v: &Height, w: &Height) -> bool {
        w.metres <= v.metres
    }
}

// Every height is plain: however many tokens stand no higher than the highest may, none may stand higher.
impl Measuring for Greatest {
    ghost plain = { λ _ _. Unit {0} };

    ghost measured = { λ _. greatest_plain };

    fn is_plain(&self, _v: &Height) -> bool {
        true
    }

    fn largest(&self, v: &Height, w: &Height) -> Option<u64> {
        if v.metres < w.metres { Some(0) } else { None }
    }
}

// The sum of one weight for each code, in any domain; it is exact while there is room for as many of the largest
// weights, which are ten thousand million.
pub fn total<D: WeightDomain>(d: &D, codes: &[i32]) -> D::Value
    ensures running { result ≡ running_of (D.meaning d.now) codes.now }
    ensures exact { length codes.now * largest_weight ≤ largest_sum → result ≡ total_of (D.meaning d.now) codes.now }
{
    let mut sum = d.zero();
    for code in codes {
        sum = add_weight(d, &sum, 1, *code);
    }
    sum
}

#[cfg(test)]
mod tests {
    use super::*;
    use domain::{Equal, Kind, Modulo, NeverRises, Siphon, Turned};

    #[test]
    fn greatest_never_rises(rt: HostRuntime) {
        let low = add_weight(&Greatest, &Greatest.zero(), 3, 5);
        let high = add_weight(&Greatest, &low, 1, 9);
        assert_eq!(rt; low.metres, 5);
        assert_eq!(rt; high.metres, 9);
        assert_eq!(rt; total(&Greatest, &[4, -8, 6]).metres, 6);
        assert!(rt; !Greatest.relates(&low, &high));
        assert!(rt; Turned(Greatest).relates(&low, &high));
    }

    #[test]
    fn sums_are_exact_up_to_the_bound(rt: HostRuntime) {
        let most = 10_000_000_000_000_000;
        assert_eq!(rt; Equal.add_copies(&0, 2, &(most / 2)), most);
        assert_eq!(rt; Equal.add_copies(&1, 2, &(most / 2)), 0);
        assert_eq!(rt; Equal.add_copies(&0, u32::MAX, &i64::MIN), 0);
        assert_eq!(rt; Equal.add_copies(&-most, 0, &i64::MAX), -most);
    }

    #[test]
    fn relations(rt: HostRuntime) {
        assert!(rt; NeverRises.relates(&2, &1));
        assert!(rt; Turned(NeverRises).relates(&1, &2));
        assert!(rt; !Siphon.relates(&false, &true));
        assert!(rt; Turned(Siphon).relates(&false, &true));
        assert!(rt; Siphon.add_copies(&false, 1, &true));
    }

    #[test]
    fn residues(rt: HostRuntime) {
        assert_eq!(rt; Modulo::new(1), None);
        assert_eq!(rt; Modulo::new(65_536), None);
        let hours = Modulo::new(12).unwrap();
        assert!(rt; hours.is_weight(11) && !hours.is_weight(12));
        assert_eq!(rt; hours.add_copies(&10, 3, &7), 7);
    }

    #[test]
    fn largest(rt: HostRuntime) {
        assert_eq!(rt; Equal.largest(&7, &2), Some(3));
        assert_eq!(rt; Siphon.largest(&false, &false), None);
        assert!(rt; Equal.is_plain(&0));
        let low = Greatest.weight(5);
        let high = Greatest.weight(9);
        assert_eq!(rt; Greatest.largest(&low, &high), Some(0));
        assert_eq!(rt; Greatest.largest(&high, &low), None);
    }

    #[test]
    fn kinds(rt: HostRuntime) {
        assert_eq!(rt; Kind::from_number(0, 0), None);
        assert_eq!(rt; Kind::from_number(1, 2), None);
        assert_eq!(rt; Kind::from_number(4, 1), None);
        assert_eq!(rt; Kind::from_number(7, 0), None);
        assert_eq!(rt; Kind::from_number(5, 0), Some(Kind::Trap));
        assert!(rt;
            !Kind::Trap.is_measuring() && Kind::Trap.is_weight(1) && !Kind::Trap.is_weight(2)
        );
    }
}
