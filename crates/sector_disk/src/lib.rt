//! A disk of sectors of 512 bytes, and what a stop may leave of it. It calls no operating system, and knows nothing of what the
//! sectors hold.
#![tactic(auto)]

mod disk;
mod failing;
mod memory;
mod part;
mod record;

pub use disk::{Disk, DiskError};
pub use failing::{Failing, FailingDisk};
pub use memory::MemoryDisk;
pub use part::sector_in;
