//! A disk over a file of the operating system, and over any other file that keeps the same promises. It opens, locks, reads,
//! writes and syncs one file, and knows nothing of what the sectors hold.
#![tactic(auto)]

mod disk;
mod fault;
mod file;
mod history;
mod host;
mod opening;
mod run;
mod system;
mod whole;
mod zeros;

pub use disk::FileDisk;
pub use fault::{FileFault, OpenCause};
pub use file::SectorFile;
pub use host::HostFile;
pub use system::FileSystem;
