ghost use Rattle.std.specs.Prelude.{◌≡◌, ℕ, min, ◌<◌, ◌≤◌, length, Some, None, Ok, Err, ◌≢◌, slice_index};
ghost use Rattle.term.specs.declared.fault.Fault.TheVariants.{Memory};
ghost use Rattle.bench.specs.Counted.{changed, largest_count, loan, tokens};

use super::Counts;
use crate::change::Change;
use net::CELLS;
use term::Fault;

// Memory of another length gets a fault, before a bench is begun on it. It stands beside what the judge and recordings
// ask of theirs: one shared test of one comparison would be no shorter.
pub fn measure(cells: &[u16]) -> Result<(), Fault>
    ensures { elim result [ Ok _ ↦ length cells.now ≡ CELLS | Err e ↦ (length cells.now ≢ CELLS) × (e ≡ Memory) ] }
{
    if cells.len() == CELLS {
        Ok(())
    } else {
        Err(Fault::Memory)
    }
}

impl<'c> Counts<'c> {
    // The count of a cell, 0 past the last.
    pub fn at(&self, c: usize) -> u16
        ensures { result ≡ tokens self.now c }
    {
        self.cells.get(c).copied().unwrap_or(0)
    }

    // The lowest cell that has less than is to be taken.
    pub fn lacking(&self, change: &Change) -> Option<usize>
        ensures { elim result [ Some c ↦ (c < CELLS) × (tokens self.now c < slice_index change.now.takes c) × ((k : ℕ) → k < c → slice_index change.now.takes k ≤ tokens self.now k) | None ↦ ((k : ℕ) → k < CELLS → slice_index change.now.takes k ≤ tokens self.now k) ] }
    {
        self.cells
            .iter()
            .zip(&change.takes)
            .position(|(have, take)| u32::from(*have) < *take)
    }

    // The lowest cell that would pass 65,535 once the tokens are taken and put.
    pub fn passing(&self, change: &Change) -> Option<usize>
        ensures { elim result [ Some c ↦ (c < CELLS) × (largest_count < changed self.now change.now c) × ((k : ℕ) → k < c → changed self.now change.now k ≤ largest_count) | None ↦ ((k : ℕ) → k < CELLS → changed self.now change.now k ≤ largest_count) ] }
    {
        self.cells
            .iter()
            .zip(&change.takes)
            .zip(&change.puts)
            .position(|((have, take), put)| {
                u32::from(*have).saturating_sub(*take).saturating_add(*put) > 65535
            })
    }

    // Makes a change of the counts; what passes 65,535 is held at it.
    pub fn shift(&mut self, change: &Change)
        ensures shifted { (k : ℕ) → k < CELLS → tokens self.new k ≡ min (changed self.old change.now k) largest_count }
        ensures loan { loan self.new ≡ loan self.old }
    {
        // over a zip of `iter_mut`, a proof knows nothing of the cells
        for (c, cell) in self.cells.iter_mut().enumerate() {
            let left = u32::from(*cell).saturating_sub(change.takes[c]);
            *cell = left.saturating_add(change.puts[c]).min(65535) as u16;
        }
    }

    // Makes the counts those of a marking.
    pub fn reset(&mut self, start: &[u16; CELLS])
        ensures value { (k : ℕ) → k < CELLS → tokens self.new k ≡ slice_index start.now k }
        ensures small { (k : ℕ) → k < CELLS → tokens self.new k ≤ largest_count }
        ensures loan { loan self.new ≡ loan self.old }
    {
        self.cells.copy_from_slice(start);
    }
}
