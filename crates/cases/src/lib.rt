// Files of nets, as hexadecimal digits, and which of them read; what operations give, and which types can be copied.
#![tactic(auto)]

#[cfg(test)]
mod copies;
pub mod nets;
#[cfg(test)]
mod operations;
#[cfg(test)]
mod reading;
#[cfg(test)]
mod tables;
