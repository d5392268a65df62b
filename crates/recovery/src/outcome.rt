//! What a commit answers to each of its commands.

use centre_core::Reply;
use std::alloc::Allocator;

/// What a commit answers to one of its commands.
#[derive(Drop)]
pub enum Outcome<C: Allocator> {
    /// The register's reply. What it accepts is on the disk.
    Replied(Reply<C>),
    /// This command, or one before it, ran out of memory: it was not applied.
    NoMemory,
}
