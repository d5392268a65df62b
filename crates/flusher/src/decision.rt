//! What the flusher decides on a command.
use centre_core::Reply;
use recovery::StoreFault;
use std::alloc::Global;

/// What the flusher decides on a command.
#[derive(Drop)]
pub enum Decision {
    /// The register's reply.
    Replied(Reply<Global>),
    /// Memory ran out before the command was accepted.
    NoMemory,
    /// The device failed, now or earlier, or the last epoch is used up.
    Fault(StoreFault),
}
