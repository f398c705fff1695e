ghost use Rattle.std.specs.Prelude.{◌≡◌};
ghost use Rattle.domain.specs.Domains.{siphon};
ghost use Rattle.domain.specs.Meaning.{copies};
ghost use Rattle.domain.specs.Truths.{truth_laws};

use crate::WeightDomain;
use crate::row::counted;

// Whether a set of places is marked; once empty, a siphon stays empty.
#[derive(Clone, Copy, PartialEq, Eq, Debug)]
pub struct Siphon;

// Under "or" one copy does what many do.
#[tactic(auto, using(crate::proofs::Truths::copies_truth))]
fn copied(n: u32, w: bool) -> bool
    ensures { result ≡ copies siphon n w }
{
    n > 0 && w
}

impl WeightDomain for Siphon {
    type Value = bool;

    ghost meaning = { λ _. siphon };

    ghost lawful = { λ d. truth_laws };

    fn is_weight(&self, code: i32) -> bool {
        (0..=1).contains(&code)
    }

    fn weight(&self, code: i32) -> bool {
        code == 1
    }

    fn zero(&self) -> bool {
        false
    }

    fn add_copies(&self, v: &bool, n: u32, w: &bool) -> bool {
        *v || copied(n, *w)
    }

    fn add_row(&self, v: &bool, counts: &[u8], codes: &[i32]) -> bool {
        let mut marked = *v;
        for (count, code) in counted(counts).iter().zip(codes) {
            marked = marked | copied(u32::from(*count), self.weight(*code));
        }
        marked
    }

    fn relates(&self, v: &bool, w: &bool) -> bool {
        *v || !*w
    }
}
