// Weight domains: where the weights of a claim take their values, and how values add up and compare.
#![tactic(auto)]

ghost use Rattle.std.specs.Prelude.{◌≡◌};
ghost use Rattle.domain.specs.Meaning.{Added, Laws, Meaning, Tells, row_of};

mod equal;
mod kind;
mod measuring;
mod modulo;
mod never_rises;
mod row;
mod siphon;
mod sums;
mod turned;
mod weights;
mod whole;

pub use equal::Equal;
pub use kind::Kind;
pub use measuring::Measuring;
pub use modulo::Modulo;
pub use never_rises::NeverRises;
use row::counted;
pub use siphon::Siphon;
pub use sums::{add_weight, laws_give};
pub use turned::Turned;
pub use weights::Weights;
pub use whole::WholeRelation;

// The laws are what a judge rests on: it knows of no domain in particular.
pub trait WeightDomain {
    type Value: Drop;

    ghost meaning: { Self → Meaning Self.Value };

    // Whether the code stands for a weight.
    fn is_weight(&self, code: i32) -> bool
        ensures { result ≡ (meaning self.now).weighs code };

    // The value of a code, zero for one that is no weight.
    fn weight(&self, code: i32) -> Self::Value
        ensures { result ≡ (meaning self.now).weight code };

    fn zero(&self) -> Self::Value
        ensures { result ≡ (meaning self.now).nil };

    // v with n copies of w; zero where their sizes pass the largest sum.
    fn add_copies(&self, v: &Self::Value, n: u32, w: &Self::Value) -> Self::Value
        ensures { Added (meaning self.now) v.now n w.now result };

    // v with a row added, in which each entry has its count of copies of the weight of its code; zero where
    // their sizes pass the largest sum.
    fn add_row(&self, v: &Self::Value, counts: &[u8], codes: &[i32]) -> Self::Value
        ensures { Added (meaning self.now) v.now 1 (row_of (meaning self.now) counts.now codes.now) result }
    {
        let mut row = self.zero();
        for (count, code) in counted(counts).iter().zip(codes) {
            let weight = self.weight(*code);
            row = self.add_copies(&row, u32::from(*count), &weight);
        }
        self.add_copies(v, 1, &row)
    }

    // Whether v relates to w.
    fn relates(&self, v: &Self::Value, w: &Self::Value) -> bool
        ensures { Tells result ((meaning self.now).rel v.now w.now) };

    ghost lawful: { (d : Self) → Laws (meaning d) };
}
