// The calls of a bench over its parts: a net, counts and a trail. `Bench` makes them on its own parts. Who was lent the
// parts, as a replay is, makes them on those and knows what their lender finds there afterwards.
ghost use Rattle.std.specs.Prelude.{◌≡◌};
ghost use Rattle.lent.specs.Held as list;
ghost use Rattle.bench.specs.Calls.{BackCalled, Begun, Checked, FireCalled, Leads, Opened, Returns, UndoCalled, Unfired, lent};
ghost use Rattle.bench.specs.Counted.{loan, tokens};
ghost use Rattle.bench.specs.Path.{NeverFull};
ghost use Rattle.net.specs.Of.{system};

use crate::change::Change;
use crate::counts::Counts;
use lent::LentList;
use net::{Firing, Net};
use term::Fault;

// The initial marking, and an empty trail.
pub fn begin_on(net: &Net, counts: &mut Counts, trail: &mut LentList<Firing>)
    ensures begun { Begun (system net.now) (lent counts.old trail.old) (lent counts.new trail.new) }
    ensures leads { Leads (system net.now) (lent counts.new trail.new) }
    ensures counts_loan { loan counts.new ≡ loan counts.old }
    ensures trail_loan { list.loan trail.new ≡ list.loan trail.old }
{
    counts.reset(net.initial());
    trail.clear();
}

// Whether the net allows a firing, whatever the marking.
fn opened(net: &Net, firing: Firing) -> Result<(), Fault>
    ensures { Opened (system net.now) firing result }
{
    if firing.transition >= net.transitions() {
        return Err(Fault::NoTransition);
    }
    if !net.is_mode(firing) {
        return Err(Fault::Mode);
    }
    if !net.guard(firing) {
        return Err(Fault::Guard);
    }
    Ok(())
}

// Whether a change can be made of the counts; of several cells the lowest is named.
fn checked(counts: &Counts, change: &Change) -> Result<(), Fault>
    ensures { Checked counts.now change.now result }
{
    if let Some(c) = counts.lacking(change) {
        return Err(Fault::Lacks(c));
    }
    if let Some(c) = counts.passing(change) {
        return Err(Fault::Full(c));
    }
    Ok(())
}

// Fires a transition in a mode, or refuses without any change. Where a path of the firings on the trail leads to the
// counts, one still does afterwards.
pub fn fire_on(
    net: &Net,
    counts: &mut Counts,
    trail: &mut LentList<Firing>,
    firing: Firing,
) -> Result<(), Fault>
    ensures called { FireCalled (system net.now) firing (lent counts.old trail.old) (lent counts.new trail.new) result }
    ensures leads { Leads (system net.now) (lent counts.old trail.old) → Leads (system net.now) (lent counts.new trail.new) }
    ensures never_full { Leads (system net.now) (lent counts.old trail.old) → NeverFull (system net.now) result }
    ensures counts_loan { loan counts.new ≡ loan counts.old }
    ensures trail_loan { list.loan trail.new ≡ list.loan trail.old }
{
    opened(net, firing)?;
    let change = Change::of(net, firing);
    checked(counts, &change)?;
    match trail.push(firing) {
        Ok(()) => {
            counts.shift(&change);
            Ok(())
        }
        Err(_) => Err(Fault::TrailFull),
    }
}

// Undoes a firing on the counts.
fn undo(net: &Net, counts: &mut Counts, firing: Firing)
    ensures counts { Unfired (system net.now) firing (tokens counts.old) (tokens counts.new) }
    ensures returns { Returns (system net.now) firing (tokens counts.old) (tokens counts.new) }
    ensures loan { loan counts.new ≡ loan counts.old }
{
    counts.shift(&Change::undoing(net, firing));
}

// Undoes the newest firing. Where a path of the firings on the trail leads to the counts, this gives the marking from
// before the newest, and a path leads to it.
pub fn back_on(net: &Net, counts: &mut Counts, trail: &mut LentList<Firing>) -> Result<(), Fault>
    ensures undone { UndoCalled (system net.now) (lent counts.old trail.old) (lent counts.new trail.new) result }
    ensures called { Leads (system net.now) (lent counts.old trail.old) → BackCalled (system net.now) (lent counts.old trail.old) (lent counts.new trail.new) result }
    ensures leads { Leads (system net.now) (lent counts.old trail.old) → Leads (system net.now) (lent counts.new trail.new) }
    ensures counts_loan { loan counts.new ≡ loan counts.old }
    ensures trail_loan { list.loan trail.new ≡ list.loan trail.old }
{
    match trail.pop() {
        Some(firing) => {
            undo(net, counts, firing);
            Ok(())
        }
        None => Err(Fault::TrailEmpty),
    }
}
