//! The refusals of the mail.

use thiserror::Error;

/// Why the mail refuses a change.
#[derive(Clone, Copy, Debug, PartialEq, Eq, Drop, Error)]
pub enum MailFault {
    /// No rule serves the destination.
    #[error("no rule serves the destination")]
    UnknownDestination,
    /// The radio is not present.
    #[error("the radio is not attached")]
    NotAttached,
    /// A message waits under the same key.
    #[error("a message of that reference waits")]
    ReferenceBusy,
    /// As many items wait for the destination as may.
    #[error("there is no room for another item for the destination")]
    MailboxFull,
    /// As many items wait as may.
    #[error("there is no room for another item")]
    CentreFull,
    /// Nothing waits under the key.
    #[error("nothing waits under the key")]
    NoSuchMessage,
    /// Memory ran out.
    #[error("out of memory")]
    NoMemory,
    /// No member of the group is present but the sender.
    #[error("no other member of the group is attached")]
    NoMembers,
}
