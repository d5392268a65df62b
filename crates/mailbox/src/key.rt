//! Who sent what to whom.

ghost use Rattle.std.specs.Prelude.{◌≡◌};
ghost use Rattle.mailbox.specs.Item.{key_of, answered};
ghost use Rattle.mailbox.specs.GroupPost.{copy_key};

use crate::Moment;
use identity::{Gtsi, Itsi};
use sds_tl::MessageReference;

/// What waits: a message for its destination, or a report for the sender of a message.
#[derive(Clone, Copy, Debug, PartialEq, Eq)]
pub enum Kind {
    /// An SDS-TRANSFER.
    Message,
    /// An SDS-REPORT.
    Report,
}

/// What identifies an item. No two items that wait have the same key.
#[derive(Clone, Copy, Debug, PartialEq, Eq)]
pub struct Key {
    /// The radio that it waits for.
    pub destination: Itsi,
    /// The radio that sent it.
    pub source: Itsi,
    /// The message reference.
    pub reference: MessageReference,
    /// Whether it is a message or a report.
    pub kind: Kind,
}

impl Key {
    pub(crate) fn with_destination(&self, destination: Itsi) -> Key
        ensures { result ≡ record self.now { destination = destination } }
    {
        Key {
            destination,
            source: self.source,
            reference: self.reference,
            kind: self.kind,
        }
    }
}

/// The envelope of a PDU that a radio sends: from whom, to whom and about which message.
#[derive(Clone, Copy, Debug, PartialEq, Eq)]
pub struct Envelope {
    /// The radio that sends it.
    pub source: Itsi,
    /// The radio that it is for.
    pub destination: Itsi,
    /// The message reference in it.
    pub reference: MessageReference,
}

impl Envelope {
    /// The key of what is sent in it.
    pub fn key(&self, kind: Kind) -> Key
        ensures { result ≡ key_of self.now kind }
    {
        Key {
            destination: self.destination,
            source: self.source,
            reference: self.reference,
            kind,
        }
    }

    /// The key of what it answers, which went the other way.
    pub fn answered_key(&self, kind: Kind) -> Key
        ensures { result ≡ answered self.now kind }
    {
        Key {
            destination: self.source,
            source: self.destination,
            reference: self.reference,
            kind,
        }
    }
}

/// The envelope of a message that a radio sends to a group.
#[derive(Clone, Copy, Debug, PartialEq, Eq)]
pub struct GroupEnvelope {
    /// The radio that sends it.
    pub source: Itsi,
    /// The group that it is for.
    pub group: Gtsi,
    /// The message reference in it.
    pub reference: MessageReference,
}

impl GroupEnvelope {
    /// The key of the copy for a member of the group.
    pub fn key(&self, member: Itsi) -> Key
        ensures { result ≡ copy_key self.now member }
    {
        Key {
            destination: member,
            source: self.source,
            reference: self.reference,
            kind: Kind::Message,
        }
    }
}

/// What an item keeps of the command that made it.
#[derive(Clone, Copy, Debug, PartialEq, Eq)]
pub struct Stamp {
    /// The number of the command.
    pub number: u64,
    /// When it was given.
    pub moment: Moment,
}
