ghost use Rattle.std.specs.Prelude.{◌≡◌, ◌<◌, length};
ghost use Rattle.domain.specs.Meaning.{Tells};
ghost use Rattle.term.specs.Worth.{value_of};
ghost use Rattle.net.specs.Runs.{initial};
ghost use Rattle.judge.specs.Calls.{SameLoans, lent, net_of};
ghost use Rattle.judge.specs.Caps.{AllPlain, CanBeginAt, CapCalled, CapIs, Limits};

use crate::judging::Judge;
use domain::{Measuring, WeightDomain, add_weight};
use net::CELLS;
use term::Fault;

impl<'n, 'm> Judge<'n, 'm> {
    // Whether every code is a plain weight.
    fn are_plain<M: Measuring>(&self, m: &M) -> bool
        ensures { Tells result (AllPlain (M.WeightDomain.meaning m.now) (M.plain m.now) self.now.codes.now) }
    {
        self.codes().iter().all(|code| m.is_plain(&m.weight(*code)))
    }

    // The value of the initial marking. Its tokens are few enough that it stays below the largest sum.
    fn initial_value<D: WeightDomain>(&self, d: &D) -> D::Value
        requires { length self.now.codes.now ≡ CELLS }
        ensures { result ≡ value_of (D.meaning d.now) self.now.codes.now (initial (net_of self.now)) }
    {
        let mut sum = d.zero();
        for (code, count) in self.codes().iter().zip(self.net.initial()) {
            sum = add_weight(d, &sum, u32::from(*count), *code);
        }
        sum
    }

    // How many copies of a cell's weight the value of the initial marking has room for.
    fn room<M: Measuring>(&self, cell: usize, m: &M) -> Option<u64>
        requires long { length self.now.codes.now ≡ CELLS }
        requires cell { cell < CELLS }
        requires plain { AllPlain (M.WeightDomain.meaning m.now) (M.plain m.now) self.now.codes.now }
        ensures { CapIs (M.WeightDomain.meaning m.now) (M.plain m.now) self.now.codes.now (net_of self.now) cell result }
    {
        let v = self.initial_value(m);
        let w = m.weight(self.codes()[cell]);
        m.largest(&v, &w)
    }

    // Whether a call for a cap can begin.
    pub(crate) fn begin_cap(&self, claim: usize, cell: usize) -> Result<(), Fault>
        ensures { CanBeginAt (net_of self.now) claim cell (lent self.now) result }
    {
        self.begin(claim)?;
        if !self.net.has_cell(cell) {
            return Err(Fault::NoCell);
        }
        Ok(())
    }

    // The most tokens that a cell can ever hold, by an accepted claim under a measuring domain; none where nothing
    // bounds it.
    pub fn cap<M: Measuring>(
        &mut self,
        claim: usize,
        cell: usize,
        m: &M,
    ) -> Result<Option<u64>, Fault>
        ensures asked { CapCalled (M.WeightDomain.meaning m.now) (M.plain m.now) (net_of self.old) claim cell (lent self.old) (lent self.new) result }
        ensures limits { Limits (net_of self.old) cell result }
        ensures same { SameLoans self.old self.new }
    {
        self.begin_cap(claim, cell)?;
        self.load_codes(claim, m)?;
        if !self.are_plain(m) {
            return Err(Fault::NotPlain);
        }
        // no `?`: with map_err the proof stays open
        if self.judge_codes(m).is_err() {
            return Err(Fault::NotAccepted);
        }
        Ok(self.room(cell, m))
    }
}
