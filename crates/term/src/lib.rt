// Terms and bags in prefix form: their check and their value in a mode.
#![tactic(auto)]

mod bag;
mod cells;
mod check;
mod evaluate;
mod fault;
mod signature;
mod tally;

pub use cells::cell;
pub use check::Checker;
pub use evaluate::Evaluator;
pub use fault::{Fault, FileFault, Stage};
pub use signature::{Arguments, BagOperation, Operation, Signature};
