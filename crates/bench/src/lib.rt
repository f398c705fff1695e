// The bench: a net's marking in lent counts, moved by fires, backs and restarts.
#![tactic(auto)]

mod bench;
mod change;
mod counts;
mod moves;

pub use bench::Bench;
pub use change::Change;
pub use counts::{Counts, measure};
pub use moves::{back_on, begin_on, fire_on};
pub use net::Firing;
