//! A register that is kept on a disk: the disk is formatted and opened, and commits and checkpoints write to it. The
//! crate touches only the disk and the allocators that it is given, and knows nothing of files, threads and text lines.
#![tactic(auto)]

mod batch;
mod before;
mod checking;
mod checkpointing;
mod commit;
mod damaged;
mod fault;
mod figures;
mod formatting;
mod formatting_with;
mod keeping;
mod label;
pub mod laws;
pub mod lives;
mod ongoing;
mod opening;
mod outcome;
mod records;
mod rest;
mod rest_records;
mod rest_rows;
mod row_faults;
mod serving;
mod sides;
mod single;
mod stated;
mod store;

pub use checking::{Checked, SideState, check};
pub use damaged::{Damage, DamageKind, Reason, damage_of};
pub use fault::StoreFault;
pub use figures::Figures;
pub use formatting::format;
pub use formatting_with::format_with;
pub use outcome::Outcome;
pub use rest::{LeftOut, Rest, read_rest};
pub use store::Store;
