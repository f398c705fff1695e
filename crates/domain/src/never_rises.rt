ghost use Rattle.std.specs.Prelude.{◌≤ℤ◌};
ghost use Rattle.domain.specs.Wholes.{never_rises_relates};

use crate::WholeRelation;

// Whole numbers; the value never rises.
#[derive(Clone, Copy, PartialEq, Eq, Debug)]
pub struct NeverRises;

impl WholeRelation for NeverRises {
    ghost related = { λ _ v w. w ≤ℤ v };

    ghost orders = { λ _. never_rises_relates };

    fn holds(&self, v: i64, w: i64) -> bool {
        w <= v
    }
}
