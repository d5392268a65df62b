//! One queue of 64 entries from the sessions of several stations to one taker. Each station has a share of its places. An entry
//! has a place until it is taken, and then the place goes back to its station. So a sender never finds the queue full, and no
//! station crowds out another. Proved is that a sender never finds the queue full; the shares, and that a place comes back, are
//! tested. The crate starts no thread, and knows nothing of registers and disks.
//!
//! What was taken of a station, followed by what the queue holds of it, is what that station sent. At the end the taker
//! takes the senders back, and that is known of all of them at once.
#![tactic(auto)]

mod entry;
mod places;
mod queue;
mod rule;
mod sender;
mod taker;

pub use entry::{Entry, Request, SharedCommand};
pub use queue::{PLACES, open_queue, share_of};
pub use sender::Sender;
pub use taker::Taker;
