ghost use Rattle.domain.specs.Domains.{turned};
ghost use Rattle.domain.specs.Turning.{turned_laws};

use crate::WeightDomain;

// A domain with its relation read backwards: never falls is Turned<NeverRises>, a trap is Turned<Siphon>.
#[derive(Clone, Copy, PartialEq, Eq, Debug)]
pub struct Turned<D>(pub D);

impl<D: WeightDomain> WeightDomain for Turned<D> {
    type Value = D::Value;

    ghost meaning = { λ t. turned (D.WeightDomain.meaning t.0) };

    ghost lawful = { λ d. turned_laws (D.WeightDomain.lawful d.0) };

    fn is_weight(&self, code: i32) -> bool {
        self.0.is_weight(code)
    }

    fn weight(&self, code: i32) -> D::Value {
        self.0.weight(code)
    }

    fn zero(&self) -> D::Value {
        self.0.zero()
    }

    fn add_copies(&self, v: &D::Value, n: u32, w: &D::Value) -> D::Value {
        self.0.add_copies(v, n, w)
    }

    fn add_row(&self, v: &D::Value, counts: &[u8], codes: &[i32]) -> D::Value {
        self.0.add_row(v, counts, codes)
    }

    fn relates(&self, v: &D::Value, w: &D::Value) -> bool {
        self.0.relates(w, v)
    }
}
