ghost use Rattle.std.specs.Prelude.{◌≡◌};
ghost use Rattle.lent.specs.Held.{loan};
ghost use Rattle.judge.specs.Calls.{SameLoans, lent, net_of};
ghost use Rattle.judge.specs.Caps.{AskedByItsKind, Limits};
ghost use Rattle.judge.specs.Kinds.{ByItsKind, KindCalled, NeverNoWeight};
ghost use Rattle.judge.specs.Surveys.{SurveyCalled};

use crate::judging::Judge;
use crate::verdict::Outcome;
use domain::{Equal, Kind, NeverRises, Siphon, Turned, WeightDomain};
use lent::LentList;
use term::Fault;

impl<'n, 'm> Judge<'n, 'm> {
    // Judges a claim under a domain, and leaves the values out.
    fn outcome<D: WeightDomain>(&mut self, claim: usize, d: &D) -> Result<Outcome, Fault>
        ensures by { KindCalled (D.meaning d.now) (net_of self.old) claim (lent self.old) (lent self.new) result }
        ensures same { SameLoans self.old self.new }
    {
        // no `map_err`: its proof stays open
        match self.judge(claim, d)? {
            Ok(modes) => Ok(Ok(modes)),
            Err(breach) => Ok(Err(breach.firing)),
        }
    }

    // Judges a claim by its kind.
    pub fn judge_by_kind(&mut self, claim: usize) -> Result<Outcome, Fault>
        ensures called { ByItsKind (net_of self.old) claim (lent self.old) (lent self.new) result }
        ensures weighed { NeverNoWeight result }
        ensures same { SameLoans self.old self.new }
    {
        match self.net.kind(claim) {
            None | Some(Kind::Equal) => self.outcome(claim, &Equal),
            Some(Kind::NeverRises) => self.outcome(claim, &NeverRises),
            Some(Kind::NeverFalls) => self.outcome(claim, &Turned(NeverRises)),
            Some(Kind::Modulo(k)) => self.outcome(claim, &k),
            Some(Kind::Trap) => self.outcome(claim, &Turned(Siphon)),
            Some(Kind::Siphon) => self.outcome(claim, &Siphon),
        }
    }

    // The cap of a cell by a claim's kind. Kinds that do not measure have none: those that do must each name the type
    // of their domain.
    pub fn cap_by_kind(&mut self, claim: usize, cell: usize) -> Result<Option<u64>, Fault>
        ensures called { AskedByItsKind (net_of self.old) claim cell (lent self.old) (lent self.new) result }
        ensures weighed { NeverNoWeight result }
        ensures limits { Limits (net_of self.old) cell result }
        ensures same { SameLoans self.old self.new }
    {
        match self.net.kind(claim) {
            None | Some(Kind::Equal) => self.cap(claim, cell, &Equal),
            Some(Kind::NeverRises) => self.cap(claim, cell, &NeverRises),
            Some(Kind::Siphon) => self.cap(claim, cell, &Siphon),
            Some(_) => {
                self.begin_cap(claim, cell)?;
                self.net.write_codes(claim, self.codes);
                Err(Fault::NotPlain)
            }
        }
    }

    // Judges every claim by its kind, one after the other, and adds one verdict each to the sheet.
    pub fn survey(&mut self, sheet: &mut LentList<Outcome>) -> Result<(), Fault>
        ensures surveyed { SurveyCalled (net_of self.old) (lent self.old) (lent self.new) sheet.old sheet.new result }
        ensures same { SameLoans self.old self.new }
        ensures loan { loan sheet.new ≡ loan sheet.old }
    {
        if !self.is_measured() {
            return Err(Fault::Memory);
        }
        if sheet.capacity().saturating_sub(sheet.len()) < self.net.claims() {
            return Err(Fault::TrailFull);
        }
        for claim in 0..self.net.claims() {
            let outcome = self.judge_by_kind(claim)?;
            // there is room, as was asked above
            let _ = sheet.push(outcome);
        }
        Ok(())
    }
}
