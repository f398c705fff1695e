// The format of net files: commands, their order, and their operands.
#![tactic(auto)]

mod command;
pub mod operands;
mod section;

pub use command::{Code, Command, Direction, NoCode};
pub use operands::{Context, DEPTH, modes, place_size, refused, variable_sizes};
pub use section::{Order, Section};
