ghost use Rattle.bench.specs.Calls.{Leads, lent};
ghost use Rattle.net.specs.Of.{system};

use crate::counts::Counts;
use lent::LentList;
use net::{Firing, Net};

mod methods;

// A marking of a net in lent counts, with a trail of the firings that led to it from the initial marking.
#[derive(Drop)]
pub struct Bench<'n, 'a, 'c, 'b> {
    net: &'n Net,
    counts: &'a mut Counts<'c>,
    trail: &'a mut LentList<'b, Firing>,
    ghost reached: { Leads (system net.now) (lent counts.now trail.now) },
}
