ghost use Rattle.std.specs.Prelude.{◌≡◌, ℕ, ◌≤◌};
ghost use Rattle.bench.specs.Calls.{BackCalled, Begun, CountCalled, FireCalled, lent, marking};
ghost use Rattle.net.specs.Runs.{Bounded, Reachable};
ghost use Rattle.bench.specs.Path.{NeverFull};
ghost use Rattle.bench.specs.Standing.{HasLoans, SameLoans, lent_of};
ghost use Rattle.bench.specs.Values.{Capped, Related};
ghost use Rattle.net.specs.Of.{system};

use super::Bench;
use crate::counts::Counts;
use crate::moves::{back_on, begin_on, fire_on};
use domain::{Measuring, WeightDomain};
use lent::LentList;
use net::{Firing, Net};
use term::Fault;

impl<'n, 'a, 'c, 'b> Bench<'n, 'a, 'c, 'b> {
    // A new bench, with the initial marking and an empty trail.
    pub fn begin(
        net: &'n Net,
        counts: &'a mut Counts<'c>,
        trail: &'a mut LentList<'b, Firing>,
    ) -> Bench<'n, 'a, 'c, 'b>
        ensures net { result.net ≡ net.entry }
        ensures begun { Begun (system net.now) (lent counts.old trail.old) (lent_of result) }
        ensures lent { HasLoans counts.entry trail.entry result }
    {
        begin_on(net, counts, trail);
        Bench { net, counts, trail }
    }

    // Fires a transition in a mode, or refuses without any change. On a net whose cells all have bounds that a bench can
    // hold, no cell is ever full.
    pub fn fire(&mut self, firing: Firing) -> Result<(), Fault>
        ensures called { FireCalled (system self.old.net.now) firing (lent_of self.old) (lent_of self.new) result }
        ensures never_full { NeverFull (system self.old.net.now) result }
        ensures same { SameLoans self.old self.new }
    {
        fire_on(self.net, self.counts, self.trail, firing)
    }

    // Undoes the newest firing.
    pub fn back(&mut self) -> Result<(), Fault>
        ensures called { BackCalled (system self.old.net.now) (lent_of self.old) (lent_of self.new) result }
        ensures same { SameLoans self.old self.new }
    {
        back_on(self.net, self.counts, self.trail)
    }

    // Back to the initial marking: what `begin` does too, before there is a bench.
    pub fn restart(&mut self)
        ensures begun { Begun (system self.old.net.now) (lent_of self.old) (lent_of self.new) }
        ensures same { SameLoans self.old self.new }
    {
        begin_on(self.net, self.counts, self.trail);
    }

    // How many tokens a cell holds. Whatever was done on the bench, a run of the net leads to its marking, and no cell
    // holds more than a bound of it.
    pub fn count(&self, cell: usize) -> Result<u16, Fault>
        ensures called { CountCalled (system self.now.net.now) (marking (lent_of self.now)) cell result }
        ensures reachable { Reachable (system self.now.net.now) (marking (lent_of self.now)) }
        ensures bounded { (c k : ℕ) → Bounded (system self.now.net.now) c k → marking (lent_of self.now) c ≤ k }
    {
        if self.net.has_cell(cell) {
            Ok(self.counts.at(cell))
        } else {
            Err(Fault::NoCell)
        }
    }

    // Whatever was done on the bench, and whichever codes a domain accepts for its net: the initial marking's value
    // relates to that of the marking now.
    pub fn stands<D: WeightDomain>(&self, d: &D)
        ensures { Related (D.meaning d.now) (system self.now.net.now) (marking (lent_of self.now)) }
    {}

    // Whatever was done on the bench, and whichever codes a measuring domain accepts for its net: no cell holds more than
    // a cap that they give it.
    pub fn keeps_caps<M: Measuring>(&self, m: &M)
        ensures { Capped (M.WeightDomain.meaning m.now) (M.plain m.now) (system self.now.net.now) (marking (lent_of self.now)) }
    {}
}
