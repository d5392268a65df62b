//! A register that publishes the commands that it accepts, for tests and benchmarks of its viewers. It waits for viewers
//! when it publishes, and starts no thread.
#![tactic(auto)]

mod commands;
mod live;

pub use commands::{command, command_for, itsi, limits};
pub use live::{LiveRegister, make_live};
