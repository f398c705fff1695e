// What the tokens of a bag are added to: counts in memory, or a value in a weight domain.
ghost use Rattle.std.specs.Prelude.{ℕ, ◌*◌, ◌<◌, if◌then◌else◌, length, nat_eq, slice_index};
ghost use Rattle.term.specs.Adding.{counts_add, weights_add};
ghost use Rattle.term.specs.Counts.{Added};
ghost use Rattle.term.specs.Tally.{Adds, CountGains, WeightGains};
ghost use Rattle.term.specs.Meaning.{largest_row};

use crate::cells::cell;
use domain::{WeightDomain, Weights, add_weight};

// `gains` says what tokens make of one state: how many of each element there are, and at most how many in all.
pub(crate) trait Tally {
    ghost gains: { Self → (ℕ → ℕ) → ℕ → Self → Type 0 };

    // Adds `n` tokens of an element.
    fn add(&mut self, element: u8, n: u8)
        ensures { gains self.old (λ e. (if nat_eq element e then n else 0)) n self.new };

    // Adds as many tokens of each element as a row says.
    fn add_row(&mut self, row: &[u8])
        requires few { length row.now < 256 }
        ensures { gains self.old (λ e. (slice_index row.now e)) largest_row self.new };

    ghost laws: { Adds gains };
}

// Counts in memory, to which tokens on a place are added.
#[derive(Drop)]
pub(crate) struct Counts<'c> {
    pub(crate) place: u8,
    pub(crate) counts: &'c mut [u32],
}

impl Tally for Counts<'_> {
    ghost gains = { CountGains };

    ghost laws = { counts_add };

    fn add(&mut self, element: u8, n: u8) {
        add(self.counts, self.place, element, n);
    }

    // on the slice itself: behind `self` it would be read again for each element, which is slower
    fn add_row(&mut self, row: &[u8]) {
        add_row(self.counts, self.place, row);
    }
}

// Adds `n` tokens of an element to the counts of a place.
fn add(counts: &mut [u32], place: u8, element: u8, n: u8)
    ensures { Added counts.old counts.new (64 * place) (λ e. (if nat_eq element e then n else 0)) }
{
    let cell = cell(place, element);
    // by index: the proof does not see what a count that `get_mut` lends becomes
    if cell < counts.len() {
        counts[cell] = counts[cell].saturating_add(u32::from(n));
    }
}

// Adds as many tokens of each element as a row says to the counts of a place. The row is cut to the counts before, so that
// none of them needs a test and several are added to at a time.
fn add_row(counts: &mut [u32], place: u8, row: &[u8])
    ensures { Added counts.old counts.new (64 * place) (λ e. (slice_index row.now e)) }
{
    let from = cell(place, 0);
    let room = counts.len().saturating_sub(from);
    let front = &row[..row.len().min(room)];
    for (e, n) in front.iter().enumerate() {
        counts[from + e] = counts[from + e].saturating_add(u32::from(*n));
    }
}

// A value, to which tokens on a place are added, each with its cell's weight.
#[derive(Drop)]
pub(crate) struct Weighed<'a, D: WeightDomain> {
    pub(crate) weights: &'a Weights<'a, D>,
    pub(crate) place: u8,
    pub(crate) sum: D::Value,
}

impl<D: WeightDomain> Tally for Weighed<'_, D> {
    ghost gains = { WeightGains D.meaning };

    ghost laws = { weights_add D.meaning D.lawful };

    fn add(&mut self, element: u8, n: u8) {
        let Weights { domain, codes } = *self.weights;
        if let Some(code) = codes.get(cell(self.place, element)) {
            self.sum = add_weight(domain, &self.sum, u32::from(n), *code);
        }
    }

    fn add_row(&mut self, row: &[u8]) {
        let Weights { domain, codes } = *self.weights;
        if let Some(codes) = codes.get(cell(self.place, 0)..) {
            self.sum = domain.add_row(&self.sum, row, codes);
        }
    }
}
