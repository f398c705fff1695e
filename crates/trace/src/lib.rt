// Traces: what was done on a bench, replayed and recorded.
#![tactic(auto)]

pub mod commands;
mod recording;
pub mod replays;

pub use commands::Command;
pub use recording::{EndedRecording, OpenRecording};
pub use replays::{Replayed, Stop, replay, replay_recording};
