// The domains of whole numbers: they differ in their relation alone.
ghost use Rattle.std.specs.Prelude.{◌≡◌, ℤ};
ghost use Rattle.domain.specs.Domains.{equal, whole, whole_code, whole_weight};
ghost use Rattle.domain.specs.Meaning.{Added, Tells, row_of};
ghost use Rattle.domain.specs.Wholes.{WholeOrder, order_laws};

use crate::WeightDomain;
use crate::row::counted;

const LARGEST_WEIGHT: i32 = 1_000_000;

const LARGEST_SUM: u64 = 10_000_000_000_000_000;

// What relates whole numbers in a domain of theirs.
pub trait WholeRelation {
    ghost related: { Self → ℤ → ℤ → Type 0 };

    // Whether v relates to w.
    fn holds(&self, v: i64, w: i64) -> bool
        ensures { Tells result (related self.now v w) };

    ghost orders: { (r : Self) → WholeOrder (related r) };
}

impl<R: WholeRelation> WeightDomain for R {
    type Value = i64;

    ghost meaning = { λ r. whole (R.related r) };

    ghost lawful = { λ r. order_laws (R.orders r) };

    fn is_weight(&self, code: i32) -> bool {
        is_code(code)
    }

    fn weight(&self, code: i32) -> i64 {
        weight(code)
    }

    fn zero(&self) -> i64 {
        0
    }

    fn add_copies(&self, v: &i64, n: u32, w: &i64) -> i64 {
        add(*v, n, *w)
    }

    fn add_row(&self, v: &i64, counts: &[u8], codes: &[i32]) -> i64 {
        add(*v, 1, row(counts, codes))
    }

    fn relates(&self, v: &i64, w: &i64) -> bool {
        self.holds(*v, *w)
    }
}

fn is_code(code: i32) -> bool
    ensures { result ≡ whole_code code }
{
    (-LARGEST_WEIGHT..=LARGEST_WEIGHT).contains(&code)
}

fn weight(code: i32) -> i64
    ensures { result ≡ whole_weight code }
{
    if is_code(code) { i64::from(code) } else { 0 }
}

// A size that does not fit 64 bits counts as the largest that does, which is past the largest sum.
fn add(v: i64, n: u32, w: i64) -> i64
    ensures { Added equal v n w result }
{
    let load = u64::from(n).saturating_mul(w.unsigned_abs());
    let size = load.saturating_add(v.unsigned_abs());
    if size <= LARGEST_SUM {
        v + i64::from(n) * w
    } else {
        0
    }
}

// A row. Each code is tested as it is read, by a choice of two numbers and no jump, which costs less than a look at all
// codes before.
fn row(counts: &[u8], codes: &[i32]) -> i64
    ensures { result ≡ row_of equal counts.now codes.now }
{
    let mut row: i64 = 0;
    for (count, code) in counted(counts).iter().zip(codes) {
        row += i64::from(*count) * weight(*code);
    }
    row
}
