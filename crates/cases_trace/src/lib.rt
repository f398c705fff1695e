// Examples of traces and recordings, with their exact answers.
#![tactic(auto)]

pub mod ends;
#[cfg(test)]
mod recordings;
#[cfg(test)]
mod traces;
