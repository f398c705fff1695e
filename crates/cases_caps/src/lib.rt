// Examples of caps, and of verdicts under a domain that the caller gives, with their exact answers.
#![tactic(auto)]

pub mod broken;
#[cfg(test)]
mod caps;
#[cfg(test)]
mod domains;
