//! The register of a TETRA switch: commands in, replies out, and queries that change nothing. It touches only the
//! memory of its allocators, and knows nothing of lines, disks, files and threads.
//!
//! [`Register`] holds the location register and the mail as one value. `step` of `specs/Step.antt` gives the state after
//! a command and the reply, and `answer_to` of `specs/Queries.antt` the answer to a query. Both follow EN 300 392-2,
//! clauses 16 and 29.
#![tactic(auto)]

mod answers;
mod command;
mod last_accepted;
pub mod laws;
mod parts;
mod query;
mod register;
mod reply;
mod sequence;
mod tables;

pub use command::{Body, Command};
pub use last_accepted::LastAccepted;
pub use parts::Parts;
pub use query::{Attachments, Items, Query, QueryAnswer};
pub use register::Register;
pub use reply::{Refusal, Reply};
pub use sequence::Sequence;
pub use tables::LAST_NUMBER;
