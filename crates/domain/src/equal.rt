ghost use Rattle.std.specs.Prelude.{◌≡◌};
ghost use Rattle.domain.specs.Wholes.{equal_relates};

use crate::WholeRelation;

// Whole numbers; the value stays the same.
#[derive(Clone, Copy, PartialEq, Eq, Debug)]
pub struct Equal;

impl WholeRelation for Equal {
    ghost related = { λ _ v w. v ≡ w };

    ghost orders = { λ _. equal_relates };

    fn holds(&self, v: i64, w: i64) -> bool {
        v == w
    }
}
