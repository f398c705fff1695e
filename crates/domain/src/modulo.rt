ghost use Rattle.std.specs.Prelude.{◌≡◌, ◌%◌, ◌≤◌, MatchOption};
ghost use Rattle.domain.specs.Domains.{IsModulus, modulo, residue_weight};
ghost use Rattle.domain.specs.Residues.{residue_laws};

use crate::WeightDomain;
use crate::row::counted;

// Residues modulo k, which is known when the program runs; the value stays the same.
#[derive(Clone, Copy, PartialEq, Eq, Debug)]
pub struct Modulo {
    pub(crate) k: u32,
    ghost ok: { IsModulus k },
}

impl Modulo {
    pub fn new(k: u32) -> Option<Modulo>
        ensures { MatchOption result (IsModulus k → ⊥) (λ m. m.k ≡ k) }
    {
        if (2..=65535).contains(&k) {
            Some(Modulo { k })
        } else {
            None
        }
    }

    // The residue of a sum.
    fn reduce(&self, sum: u64) -> u32
        ensures { result ≡ sum % self.now.k }
    {
        (sum % u64::from(self.k)) as u32
    }
}

// The residue of a code, 0 for one that is none. The modulus comes as a number: behind a reference a loop would read it
// anew for each code.
fn residue(k: u32, code: i32) -> u32
    ensures { result ≡ residue_weight k code }
{
    u32::try_from(code).ok().filter(|n| *n < k).unwrap_or(0)
}

impl WeightDomain for Modulo {
    type Value = u32;

    ghost meaning = { λ d. modulo d.k };

    ghost lawful = { λ d. residue_laws d.k d.ok.0 };

    fn is_weight(&self, code: i32) -> bool {
        u32::try_from(code).is_ok_and(|n| n < self.k)
    }

    fn weight(&self, code: i32) -> u32 {
        residue(self.k, code)
    }

    fn zero(&self) -> u32 {
        0
    }

    // The sum fits 64 bits before it is reduced.
    #[tactic(auto, using(crate::proofs::Residues::added))]
    fn add_copies(&self, v: &u32, n: u32, w: &u32) -> u32 {
        self.reduce(u64::from(*v) + u64::from(n) * u64::from(*w))
    }

    // The row is reduced once: at most 255 entries with counts up to 255 of residues below 65,535 fit 32 bits, in which
    // it is added up faster than in 64.
    fn add_row(&self, v: &u32, counts: &[u8], codes: &[i32]) -> u32 {
        let k = self.k;
        let mut row: u32 = 0;
        for (count, code) in counted(counts).iter().zip(codes) {
            row += u32::from(*count) * residue(k, *code);
        }
        self.reduce(u64::from(*v) + u64::from(row))
    }

    fn relates(&self, v: &u32, w: &u32) -> bool {
        *v == *w
    }
}
