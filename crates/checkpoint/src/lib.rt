//! The image of a register on one side of a disk, and the switch to that side.
//!
//! This crate calls the disk and reads a register. It changes no register, and knows nothing of batches, desks, files or threads.
#![tactic(auto)]

mod closing;
mod fault;
mod form;
mod image;
pub mod laws;
mod layout;
mod progress;
mod read_fault;
mod reading;
mod side;
mod switching;

pub use closing::begin;
pub use fault::CheckpointError;
pub use form::stated_form;
pub use image::{write_image, write_rows};
pub use layout::Layout;
pub use progress::{ImageProgress, write_next_rows};
pub use read_fault::ReadFault;
pub use reading::read_image;
pub use side::Side;
pub use switching::switch;
