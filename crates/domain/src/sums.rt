// What the laws give to every domain: nothing here names one.
ghost use Rattle.domain.specs.Meaning.{CopiesCommute, CopiesSplit, Grown, SumsRelate};

use crate::WeightDomain;

// v with n copies of the weight of a code: the step of every sum over a marking.
pub fn add_weight<D: WeightDomain>(d: &D, v: &D::Value, n: u32, code: i32) -> D::Value
    ensures { Grown (D.meaning d.now) v.now n code result }
{
    let w = d.weight(code);
    d.add_copies(v, n, &w)
}

// The theorems on copies and sums that hold in every domain.
pub fn laws_give<D: WeightDomain>(d: &D)
    ensures split { CopiesSplit (D.meaning d.now) }
    ensures commute { CopiesCommute (D.meaning d.now) }
    ensures relate { SumsRelate (D.meaning d.now) }
{}
