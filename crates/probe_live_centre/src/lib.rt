//! Stores on disks in memory, and sessions in threads of their own beside a flusher, for tests and benchmarks of the flusher.
//! It starts threads, and opens no file.
#![tactic(auto)]

mod beside;
mod commands;
mod counting_disk;
mod disks;
mod ending;
mod turns;

pub use beside::{Task, serve_beside};
pub use commands::{attach, expiry, is_accept, radio, rule};
pub use counting_disk::{CountingDisk, WatchedDisk, watched};
pub use disks::{opened, with_rule, worked_disk};
pub use ending::end_all;
pub use turns::{Idle, TURNS, comes_to};
