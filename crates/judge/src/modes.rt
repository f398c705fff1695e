ghost use Rattle.std.specs.Prelude.{◌≡◌, ◌<◌, length};
ghost use Rattle.domain.specs.Meaning.{Tells};
ghost use Rattle.judge.specs.Calls.{AllWeigh, CanBegin, Fits, JudgeCalled, Left, Loaded, SameLoans, VerdictOn, lent, net_of};
ghost use Rattle.judge.specs.Judged.{Judged, JudgedModes};

use crate::judging::Judge;
use crate::verdict::{Breach, Verdict};
use domain::{WeightDomain, Weights};
use format::Direction;
use net::Firing;
use term::Fault;

impl<'n, 'm> Judge<'n, 'm> {
    // Judges the modes of one transition, the first variable slowest.
    fn judge_modes<D: WeightDomain>(&self, t: usize, d: &D) -> Verdict<D::Value>
        ensures { JudgedModes (D.meaning d.now) self.now.codes.now (net_of self.now) t result }
    {
        let net = self.net;
        let weights = Weights {
            domain: d,
            codes: self.codes(),
        };
        let mut seen: u32 = 0;
        for i in 0..net.modes(t) {
            let firing = Firing {
                transition: t,
                mode: net.mode(t, i),
            };
            if net.guard(firing) {
                let (before, after) = net.sums(firing, &weights);
                if !d.relates(&before, &after) {
                    return Err(Breach {
                        firing,
                        before,
                        after,
                    });
                }
                seen += 1;
            }
        }
        Ok(seen)
    }

    // Judges all transitions in the order of the file.
    fn judge_all<D: WeightDomain>(&self, d: &D) -> Verdict<D::Value>
        ensures { Judged (D.meaning d.now) self.now.codes.now (net_of self.now) result }
    {
        let mut seen: u32 = 0;
        for t in 0..self.net.transitions() {
            seen += self.judge_modes(t, d)?;
        }
        Ok(seen)
    }

    // Whether every code is a weight.
    fn are_weights<D: WeightDomain>(&self, d: &D) -> bool
        ensures { Tells result (AllWeigh (D.meaning d.now) self.now.codes.now) }
    {
        self.codes().iter().all(|code| d.is_weight(*code))
    }

    // Leaves t− and t+ of the mode named in the counts, and 0 where none is.
    fn leave<V: Drop>(&mut self, verdict: &Verdict<V>)
        requires { Fits (lent self.old) }
        ensures left { Left (net_of self.old) verdict.now self.new.before.now self.new.after.now }
        ensures codes { self.new.codes.now ≡ self.old.codes.now }
        ensures same { SameLoans self.old self.new }
    {
        self.before.fill(0);
        self.after.fill(0);
        if let Err(breach) = verdict {
            self.net.count(breach.firing, Direction::In, self.before);
            self.net.count(breach.firing, Direction::Out, self.after);
        }
    }

    // Judges the codes in memory.
    pub(crate) fn judge_codes<D: WeightDomain>(&mut self, d: &D) -> Verdict<D::Value>
        requires { Fits (lent self.old) }
        ensures verdict { VerdictOn (D.meaning d.now) self.old.codes.now (net_of self.old) result self.new.before.now self.new.after.now }
        ensures codes { self.new.codes.now ≡ self.old.codes.now }
        ensures same { SameLoans self.old self.new }
    {
        let verdict = self.judge_all(d);
        self.leave(&verdict);
        verdict
    }

    // Whether a call can begin.
    pub(crate) fn begin(&self, claim: usize) -> Result<(), Fault>
        ensures { CanBegin (net_of self.now) claim (lent self.now) result }
    {
        if !self.is_measured() {
            return Err(Fault::Memory);
        }
        if claim >= self.net.claims() {
            return Err(Fault::NoClaim);
        }
        Ok(())
    }

    // Writes the codes of a claim, and refuses those that are no weights.
    pub(crate) fn load_codes<D: WeightDomain>(&mut self, claim: usize, d: &D) -> Result<(), Fault>
        requires fits { Fits (lent self.old) }
        requires there { claim < length (net_of self.old).claims }
        ensures loaded { Loaded (D.meaning d.now) (net_of self.old) claim (lent self.old) (lent self.new) result }
        ensures same { SameLoans self.old self.new }
    {
        self.net.write_codes(claim, self.codes);
        if !self.are_weights(d) {
            return Err(Fault::NoWeight);
        }
        Ok(())
    }

    // Judges a claim under a domain that the caller gives.
    pub fn judge<D: WeightDomain>(
        &mut self,
        claim: usize,
        d: &D,
    ) -> Result<Verdict<D::Value>, Fault>
        ensures called { JudgeCalled (D.meaning d.now) (net_of self.old) claim (lent self.old) (lent self.new) result }
        ensures same { SameLoans self.old self.new }
    {
        self.begin(claim)?;
        self.load_codes(claim, d)?;
        Ok(self.judge_codes(d))
    }
}
