//! Which groups the radios of a TETRA switch are attached to (ETSI EN 300 392-2, clause 16, the
//! network's side of attachment and detachment of group identities). It reads a registry of radios and rules, and
//! changes its own attachments alone; it knows nothing of messages, commands and disks.
#![tactic(auto)]

mod answer;
mod attachment;
mod attachments;
mod count;
mod edit;
mod ending;
mod fault;
mod groups;
mod index;
pub mod laws;
mod list;
mod lists;
mod side;

pub use answer::answers;
pub use attachment::Attachment;
pub use fault::GroupFault;
pub use groups::{Groups, MOST_OF_RADIO};
