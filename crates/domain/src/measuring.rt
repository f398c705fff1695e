ghost use Rattle.std.specs.Prelude.{◌≡◌, Some, pos, ◌≤ℤ◌};
ghost use Rattle.domain.specs.Meaning.{Tells};
ghost use Rattle.domain.specs.Measure.{Largest, PlainLaws, truth_largest, whole_largest};
ghost use Rattle.domain.specs.Plains.{truths_plain, wholes_plain};

use crate::{Siphon, WeightDomain, WholeRelation};

// A domain that can say how many copies of a value another one has room for.
pub trait Measuring: WeightDomain {
    ghost plain: { Self → Self.Value → Type 0 };

    // Whether v is plain, as sums of plain values are.
    fn is_plain(&self, v: &Self::Value) -> bool
        ensures tells { Tells result (plain self.now v.now) }
        ensures sums { PlainLaws (Self.meaning self.now) (plain self.now) };

    // The largest n such that v relates to n copies of w plus some plain value, none where nothing bounds n; 0 where
    // v or w is not plain.
    fn largest(&self, v: &Self::Value, w: &Self::Value) -> Option<u64>
        ensures plains { plain self.now v.now → plain self.now w.now → Largest (Self.meaning self.now) (plain self.now) v.now w.now result }
        ensures others { (plain self.now v.now × plain self.now w.now → ⊥) → result ≡ Some 0 };

    ghost measured: { (d : Self) → PlainLaws (Self.meaning d) (plain d) };
}

fn largest_whole(v: i64, w: i64) -> Option<u64>
    ensures { result ≡ whole_largest v w }
{
    match (u64::try_from(v), u64::try_from(w)) {
        (Ok(_), Ok(0)) => None,
        (Ok(a), Ok(b)) => Some(a / b),
        _ => Some(0),
    }
}

fn largest_truth(v: bool, w: bool) -> Option<u64>
    ensures { result ≡ truth_largest v w }
{
    (w && !v).then_some(0)
}

impl<R: WholeRelation> Measuring for R {
    ghost plain = { λ _ v. pos 0 ≤ℤ v };

    ghost measured = { λ r. wholes_plain (R.related r) };

    fn is_plain(&self, v: &i64) -> bool {
        0 <= *v
    }

    fn largest(&self, v: &i64, w: &i64) -> Option<u64> {
        largest_whole(*v, *w)
    }
}

impl Measuring for Siphon {
    ghost plain = { λ _ _. Unit {0} };

    ghost measured = { λ _. truths_plain };

    fn is_plain(&self, _v: &bool) -> bool {
        true
    }

    #[tactic(auto, using(crate::proofs::Measures::largest_truth))]
    fn largest(&self, v: &bool, w: &bool) -> Option<u64> {
        largest_truth(*v, *w)
    }
}
