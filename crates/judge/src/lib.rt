// Judging claims and reading caps, under any weight domain and by kind.
#![tactic(auto)]

mod caps;
mod judging;
mod kind;
mod modes;
mod verdict;

pub use judging::Judge;
pub use verdict::{Breach, Outcome, Verdict};
