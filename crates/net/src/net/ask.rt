// What judging and firing ask of a net.
ghost use Rattle.std.specs.Prelude.{◌≡◌, ◌≢◌, ℕ, ◌/◌, ◌<◌, ◌≤◌, length, map, MatchOption};
ghost use Rattle.term.specs.Meaning.{of};
ghost use Rattle.term.specs.Worth.{value_of};
ghost use Rattle.domain.specs.Meaning.{Tells};
ghost use Rattle.net.specs.Nets.{ExactlyTallied, HasCell, IsKind, Mode, Tallied, arcs_of, codes_of, digit, given, guard_holds, largest_side, mode, mode_of, modes_of, side, taken, transition};
ghost use Rattle.net.specs.Of.{system};
ghost use Rattle.net.specs.System.{arc_told};

use super::{CELLS, Net};
use crate::firing::Firing;
use crate::parts::Arc;
use domain::{Kind, WeightDomain, Weights};
use format::{DEPTH, Direction, modes};
use term::Evaluator;

// The mode number `i`, the last variable fastest.
fn mode_at(sizes: [u8; 4], i: u32) -> [u8; 4]
    ensures { result ≡ mode_of sizes i }
{
    let [p, q, r, s] = sizes;
    let (i, d) = divided(i, s);
    let (i, c) = divided(i, r);
    let (i, b) = divided(i, q);
    let (_, a) = divided(i, p);
    [a, b, c, d]
}

// The quotient and the remainder, which is 0 where there is nothing to divide by.
fn divided(i: u32, n: u8) -> (u32, u8)
    ensures { (result.0 ≡ i / n) × (result.1 ≡ digit i n) }
{
    if n == 0 {
        return (0, 0);
    }
    (i / u32::from(n), (i % u32::from(n)) as u8)
}

// Whether each of four numbers is below its limit.
fn below(mode: [u8; 4], sizes: [u8; 4]) -> bool
    ensures { Tells result (Mode sizes mode) }
{
    mode.iter().zip(sizes.iter()).all(|(m, s)| m < s)
}

impl Net {
    // What the terms and bags of this net are evaluated in, in a mode.
    fn evaluator<'s>(&'s self, mode: &'s [u8; 4]) -> Evaluator<'s>
        ensures signature { of result.signature ≡ (system self.now).sig }
        ensures mode { result.mode.now ≡ mode.now }
    {
        Evaluator {
            signature: self.parts.signature(),
            mode,
        }
    }

    // How many transitions there are.
    pub fn transitions(&self) -> usize
        ensures { result ≡ length (system self.now).transitions }
    {
        self.parts.transitions.len()
    }

    // How many claims there are.
    pub fn claims(&self) -> usize
        ensures { result ≡ length (system self.now).claims }
    {
        self.parts.claims.len()
    }

    // The kind of a claim.
    pub fn kind(&self, claim: usize) -> Option<Kind>
        ensures { MatchOption result (length (system self.now).claims ≤ claim) (λ k. IsKind (system self.now) claim k) }
    {
        self.parts.claims.get(claim).map(|c| c.kind)
    }

    // Writes the codes of a claim into memory of the stated length, and nothing else.
    pub fn write_codes(&self, claim: usize, codes: &mut [i32])
        ensures written { claim < length (system self.now).claims → length codes.old ≡ 1024 → codes.new ≡ codes_of (system self.now) claim }
        ensures none { length (system self.now).claims ≤ claim → codes.new ≡ codes.old }
        ensures other { length codes.old ≢ 1024 → codes.new ≡ codes.old }
    {
        if let Some(claim) = self.parts.claims.get(claim)
            && codes.len() == CELLS
        {
            codes.copy_from_slice(&claim.codes);
        }
    }

    // Whether the net has this cell: a place of it, and an element of that place's sort.
    pub fn has_cell(&self, cell: usize) -> bool
        ensures { Tells result (HasCell (system self.now) cell) }
    {
        cell < CELLS && ((cell % 64) as u8) < self.parts.elements((cell / 64) as u8)
    }

    // The initial marking.
    pub fn initial(&self) -> &[u16; CELLS]
        ensures { result.now ≡ (system self.now).initial }
    {
        &self.parts.initial
    }

    // How many modes a transition has.
    pub fn modes(&self, t: usize) -> u32
        ensures { result ≡ modes_of (system self.now) t }
    {
        self.parts.transitions.get(t).map_or(0, |t| modes(t.sizes))
    }

    // The mode number `i` of a transition, the last variable fastest.
    pub fn mode(&self, t: usize, i: u32) -> [u8; 4]
        ensures { result ≡ mode (system self.now) t i }
    {
        // no `map_or`: its proof stays open
        let Some(t) = self.parts.transitions.get(t) else {
            return [0; 4];
        };
        mode_at(t.sizes, i)
    }

    // Whether each number of a mode is an element of its variable's sort, and 0 where there is no variable.
    pub fn is_mode(&self, f: Firing) -> bool
        ensures { Tells result (Mode (transition (system self.now) f.transition).sizes f.mode) }
    {
        self.parts
            .transitions
            .get(f.transition)
            .is_some_and(|t| below(f.mode, t.sizes))
    }

    // Whether the guard of a transition is true in a mode.
    pub fn guard(&self, f: Firing) -> bool
        ensures { result ≡ guard_holds (system self.now) f.transition f.mode }
    {
        let Some(term) = self.parts.transitions.guard(f.transition) else {
            return true;
        };
        let evaluator = self.evaluator(&f.mode);
        let (v, _) = evaluator.value(term, DEPTH);
        v == 1
    }

    // The arcs of a transition that go one way.
    fn arcs_of(&self, t: usize, direction: Direction) -> &[Arc]
        ensures { map (arc_told self.now.parts.transitions.bytes.items) result.now ≡ arcs_of (system self.now) t direction }
    {
        self.parts.transitions.arcs(t, direction)
    }

    // Adds what a transition takes or puts in a mode to the counts. This loop and that of `weigh` stay two: one would
    // need term's walk with its laws out here, for two loops of one call each.
    pub fn count(&self, f: Firing, direction: Direction, counts: &mut [u32])
        ensures held { Tallied counts.old counts.new (side (system self.now) f.mode (arcs_of (system self.now) f.transition direction)) }
        ensures exact { ExactlyTallied counts.old counts.new (side (system self.now) f.mode (arcs_of (system self.now) f.transition direction)) }
        ensures few { (c : ℕ) → side (system self.now) f.mode (arcs_of (system self.now) f.transition direction) c ≤ largest_side }
    {
        let evaluator = self.evaluator(&f.mode);
        for arc in self.arcs_of(f.transition, direction) {
            let bag = self.parts.transitions.bag(arc);
            evaluator.count_bag(bag, DEPTH, arc.place, counts);
        }
    }

    // The value of what a transition takes or puts in a mode.
    fn weigh<D: WeightDomain>(
        &self,
        f: Firing,
        direction: Direction,
        weights: &Weights<D>,
    ) -> D::Value
        ensures { result ≡ value_of (D.meaning weights.now.domain.now) weights.now.codes.now (side (system self.now) f.mode (arcs_of (system self.now) f.transition direction)) }
    {
        let evaluator = self.evaluator(&f.mode);
        let mut sum = weights.domain.zero();
        for arc in self.arcs_of(f.transition, direction) {
            let bag = self.parts.transitions.bag(arc);
            (sum, _) = evaluator.weigh_bag(bag, DEPTH, weights, arc.place, sum);
        }
        sum
    }

    // The values before and after: of what a transition takes in a mode, and of what it puts.
    pub fn sums<D: WeightDomain>(&self, f: Firing, weights: &Weights<D>) -> (D::Value, D::Value)
        ensures before { result.0 ≡ value_of (D.meaning weights.now.domain.now) weights.now.codes.now (taken (system self.now) f.transition f.mode) }
        ensures after { result.1 ≡ value_of (D.meaning weights.now.domain.now) weights.now.codes.now (given (system self.now) f.transition f.mode) }
    {
        (
            self.weigh(f, Direction::In, weights),
            self.weigh(f, Direction::Out, weights),
        )
    }
}
