ghost use Rattle.std.specs.Prelude.{◌≡◌, ◌*◌};
ghost use Rattle.term.specs.Counts.{Added};
ghost use Rattle.term.specs.Meaning.{count, most_tokens, of};
ghost use Rattle.term.specs.Prefix.{bag_at};
ghost use Rattle.term.specs.Worth.{Weighs, on_place};

use crate::evaluate::Evaluator;
use crate::tally::{Counts, Tally, Weighed};
use domain::{WeightDomain, Weights};

impl<'s> Evaluator<'s> {
    // Adds the bag at the front of `bytes`, and gives what follows the bag.
    fn add_bag<'f, T: Tally>(&self, bytes: &'f [u8], depth: u8, tally: &mut T) -> &'f [u8]
        ensures sum { T.gains tally.old (count (of self.now.signature) self.now.mode.now (bag_at (of self.now.signature) depth bytes.now).0) (most_tokens (bag_at (of self.now.signature) depth bytes.now).0) tally.new }
        ensures rest { result.now ≡ (bag_at (of self.now.signature) depth bytes.now).1 }
    {
        if depth == 0 {
            return bytes;
        }
        match bytes {
            [0x30, rest @ ..] => rest,
            [0x31, rest @ ..] => {
                let (element, rest) = self.value(rest, depth - 1);
                tally.add(element, 1);
                rest
            }
            [0x32, rest @ ..] => {
                let rest = self.add_bag(rest, depth - 1, tally);
                self.add_bag(rest, depth - 1, tally)
            }
            [0x33, k, rest @ ..] => {
                let (argument, rest) = self.value(rest, depth - 1);
                let o = self.signature.bag_operation(*k);
                tally.add_row(self.signature.row(o, argument));
                rest
            }
            _ => bytes,
        }
    }

    // Adds the bag at the front of `bytes` to the counts of a place, and gives what follows the bag.
    pub fn count_bag<'f>(
        &self,
        bytes: &'f [u8],
        depth: u8,
        place: u8,
        counts: &mut [u32],
    ) -> &'f [u8]
        ensures counts { Added counts.old counts.new (64 * place) (count (of self.now.signature) self.now.mode.now (bag_at (of self.now.signature) depth bytes.now).0) }
        ensures rest { result.now ≡ (bag_at (of self.now.signature) depth bytes.now).1 }
    {
        let mut tally = Counts { place, counts };
        self.add_bag(bytes, depth, &mut tally)
    }

    // Adds the bag at the front of `bytes`, on a place, to a value, and gives what follows the bag.
    pub fn weigh_bag<'f, D: WeightDomain>(
        &self,
        bytes: &'f [u8],
        depth: u8,
        weights: &Weights<D>,
        place: u8,
        sum: D::Value,
    ) -> (D::Value, &'f [u8])
        ensures sum { Weighs (D.meaning weights.now.domain.now) weights.now.codes.now sum (on_place place (count (of self.now.signature) self.now.mode.now (bag_at (of self.now.signature) depth bytes.now).0)) (most_tokens (bag_at (of self.now.signature) depth bytes.now).0) result.0 }
        ensures rest { result.1.now ≡ (bag_at (of self.now.signature) depth bytes.now).1 }
    {
        let mut tally = Weighed {
            weights,
            place,
            sum,
        };
        let rest = self.add_bag(bytes, depth, &mut tally);
        (tally.sum, rest)
    }
}
