//! The short messages and delivery reports that wait in a TETRA switch for their radios
//! (ETSI EN 300 392-2, clause 29, the switch's side of the short data transport service). It reads a registry of
//! radios and rules, and changes its own items alone; it knows nothing of attachments, commands and disks.
#![tactic(auto)]

mod boxes;
mod due;
mod fault;
mod group_post;
mod group_refusal;
mod inbox;
mod item;
mod items;
mod key;
pub mod laws;
mod mail;
mod moment;
mod node;
mod opening;
mod order;
mod place;
mod refusal;

pub use fault::MailFault;
pub use item::Item;
pub use key::{Envelope, GroupEnvelope, Key, Kind, Stamp};
pub use mail::Mail;
pub use moment::Moment;
pub use opening::{Opening, ReportOpening};
