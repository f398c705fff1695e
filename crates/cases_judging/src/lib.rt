// Examples of claims, with their exact answers.
#![tactic(auto)]

#[cfg(test)]
mod judging;
pub mod memory;
