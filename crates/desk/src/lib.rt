//! The desk at which commands are submitted and queries asked, whether its register is in memory or on a disk. It
//! touches nothing but that register, and knows nothing of lines, files and threads.
//!
//! Each kind of [`Desk`] has rules, `specs/Rules.antt`: what it may do, what it may answer, and which register it lists.
//! `specs/OfRegister.antt` has the rules of a register in memory, and `specs/OfStore.antt` those of a register on a disk.
#![tactic(auto)]

mod desk;
mod outage;
mod register;

pub use desk::{Desk, MOST_TOGETHER};
pub use outage::Outage;
