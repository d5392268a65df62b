//! Tests of the public calls of `command_bytes`: worked bytes, bytes that are no command, and small heaps.
#![tactic(auto)]

#[cfg(test)]
mod heaps;
#[cfg(test)]
mod rows;
#[cfg(test)]
mod spelled;
