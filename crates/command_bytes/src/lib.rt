//! Commands as bytes: each has one text, and no command's text is a prefix of another's. It changes only what its
//! callers pass in, and knows nothing of sectors, disks, or what a command does.
//!
//! `command_text` of `specs/Text.antt` gives a command's bytes, as a table of its fields and their widths.
//! `first_command` of `specs/Reading.antt` reads them.
#![tactic(auto)]

pub mod bits;
mod body;
mod command;
mod decoding;
mod encoding;
pub mod fields;
pub mod laws;
pub mod put;
mod room;

pub use decoding::{after_first, decode, decode_first};
pub use encoding::{append, encode, text_len};
pub use fields::number;
pub use room::ByteSink;
