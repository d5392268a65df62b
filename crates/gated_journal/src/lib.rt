//! A journal of records on a disk of sectors. Each record counts once its gate, one byte, is open on the disk.
//!
//! It writes within one half of the disk, or within both. It knows how commands are written, not what they do, and nothing of
//! images and epochs.
#![tactic(auto)]

mod both;
mod fault;
mod form;
mod journal;
pub mod laws;
mod padded;
mod place;
mod reading;
mod record;
mod record_text;

pub use fault::JournalError;
pub use form::Form;
pub use journal::Journal;
pub use place::Place;
pub use record::{Record, decode_record};
