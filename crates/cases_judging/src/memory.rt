// Memory that the examples lend, and what they ask of it.
ghost use Rattle.std.specs.Prelude.{◌≡◌, Ok, Err};
ghost use Rattle.term.specs.Faults.{number_of};

use judge::Judge;
use net::{CELLS, Net};
use term::Fault;

// Memory to judge in, 7 everywhere.
#[derive(Drop)]
pub struct Lent {
    pub codes: [i32; CELLS],
    pub before: [u32; CELLS],
    pub after: [u32; CELLS],
}

impl Lent {
    pub fn new() -> Lent {
        Lent {
            codes: [7; CELLS],
            before: [7; CELLS],
            after: [7; CELLS],
        }
    }

    pub fn judge<'l>(&'l mut self, net: &'l Net) -> Judge<'l, 'l> {
        let Lent {
            codes,
            before,
            after,
        } = self;
        Judge {
            net,
            codes,
            before,
            after,
        }
    }
}

// How many of the counts are not 0.
pub fn marked(counts: &[u32]) -> usize {
    counts.iter().filter(|count| **count != 0).count()
}

// A cap: a number, none for unbounded, or the number of a fault.
pub type Cap = Result<Option<u64>, u8>;

pub fn cap_of(most: Result<Option<u64>, Fault>) -> Cap
    ensures { elim most [ Ok k ↦ result ≡ Ok k | Err e ↦ result ≡ Err (number_of e) ] }
{
    match most {
        Ok(cap) => Ok(cap),
        Err(fault) => Err(fault.number()),
    }
}
