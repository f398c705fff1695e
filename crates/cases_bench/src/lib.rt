// Examples of calls on a bench, with their exact answers.
#![tactic(auto)]

pub mod calls;
#[cfg(test)]
mod firing;
