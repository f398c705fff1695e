// Nets: the reader, and what judging and firing ask of a net.
#![tactic(auto)]

mod firing;
mod net;
pub mod parts;
pub mod reader;

pub use firing::Firing;
pub use net::{CELLS, Net};
pub use reader::{ReadError, read};
