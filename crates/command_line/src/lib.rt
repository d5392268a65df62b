//! Reads the command line: what the words ask for that the program is started with.
//! It reads words that it is given and writes texts. It opens no file, and knows nothing of registers, disks and stations' lines.
#![tactic(auto)]

pub mod laws;
mod program;
mod reading;
mod request;

pub use reading::read_command_line;
pub use request::{Refusal, Request};
