//! The mail as one list.

use crate::fixture::Call;
use mailbox::{Key, Kind, MailFault};
use std::alloc::Global;

/// For whom an item waits, from whom, about which message, and of which kind. Radios have their numbers in the test.
#[derive(Clone, Copy, PartialEq, Eq)]
pub struct Name {
    pub destination: u32,
    pub source: u32,
    pub reference: u8,
    pub kind: Kind,
}

impl Name {
    /// What this answers.
    fn answered(self, kind: Kind) -> Name {
        Name {
            destination: self.source,
            source: self.destination,
            reference: self.reference,
            kind,
        }
    }

    fn of(self, kind: Kind) -> Name {
        Name {
            destination: self.destination,
            source: self.source,
            reference: self.reference,
            kind,
        }
    }

    pub fn is_of(self, key: &Key) -> bool {
        (
            key.destination.ssi(),
            key.source.ssi(),
            key.reference.number(),
        ) == (self.destination, self.source, self.reference)
            && key.kind == self.kind
    }
}

/// An item that waits, and the call that made it.
#[derive(Clone, Copy)]
pub struct Waits {
    pub name: Name,
    pub number: u64,
    pub deadline: u64,
    pub made: Call,
}

impl Waits {
    /// Whether it is a message that a report of this status ends.
    fn is_ended(&self, code: u8) -> bool {
        match self.made {
            Call::Post(request) => code == 2 || code == 0 && request < 2,
            _ => false,
        }
    }

    /// Whether it asks for no answer.
    fn is_answerless(&self) -> bool {
        matches!(self.made, Call::Post(0) | Call::Report(_, false))
    }
}

/// All that waits, in order of number.
#[derive(Drop)]
pub struct PlainMail {
    items: Vec<Waits, Global>,
    room: usize,
}

impl PlainMail {
    pub fn new(alloc: Global, room: usize) -> PlainMail {
        PlainMail {
            items: Vec::new(alloc),
            room,
        }
    }

    pub fn as_slice(&self) -> &[Waits] {
        &self.items
    }

    /// Why the call is refused: radios from 100 on have no rule, and those from 4 on are not present.
    pub fn refusal(&self, call: Call, name: Name) -> Option<MailFault> {
        match call {
            Call::Expire(_) => None,
            Call::Delete(kind) => self.missing(name.of(kind)),
            Call::Sent(_) if name.destination > 3 => Some(MailFault::NotAttached),
            Call::Sent(kind) => self.missing(name.of(kind)),
            _ if name.destination > 99 => Some(MailFault::UnknownDestination),
            _ if name.source > 3 => Some(MailFault::NotAttached),
            Call::Ack => self.missing(name.answered(Kind::Report)),
            Call::Post(_) if self.has(name.of(Kind::Message)) => Some(MailFault::ReferenceBusy),
            Call::Post(_) => self.crowded(self.items.len()),
            Call::Report(..) if !self.has(name.answered(Kind::Message)) => {
                Some(MailFault::NoSuchMessage)
            }
            Call::Report(code, _) => self.crowded(self.count_after(name, code)),
        }
    }

    fn has(&self, name: Name) -> bool {
        self.items.iter().any(|item| item.name == name)
    }

    fn missing(&self, name: Name) -> Option<MailFault> {
        if self.has(name) {
            None
        } else {
            Some(MailFault::NoSuchMessage)
        }
    }

    /// Why one more than so many is refused.
    fn crowded(&self, count: usize) -> Option<MailFault> {
        if count >= self.room {
            Some(MailFault::CentreFull)
        } else {
            None
        }
    }

    /// How many items a report leaves.
    fn count_after(&self, name: Name, code: u8) -> usize {
        let (message, report) = (name.answered(Kind::Message), name.of(Kind::Report));
        self.items
            .iter()
            .filter(|item| item.name != report && (item.name != message || !item.is_ended(code)))
            .count()
    }

    /// Makes the change of a call that isn't refused, and returns whether there was memory. A new item has this number and
    /// deadline.
    pub fn change(&mut self, call: Call, name: Name, number: u64, deadline: u64) -> bool {
        match call {
            Call::Post(_) => self.push(call, name.of(Kind::Message), number, deadline),
            Call::Report(code, _) => {
                let (message, report) = (name.answered(Kind::Message), name.of(Kind::Report));
                self.items.retain(|item| {
                    item.name != report && (item.name != message || !item.is_ended(code))
                });
                self.push(call, report, number, deadline)
            }
            Call::Ack => self.leave(name.answered(Kind::Report)),
            Call::Delete(kind) => self.leave(name.of(kind)),
            Call::Sent(kind) => {
                let name = name.of(kind);
                self.items
                    .retain(|item| item.name != name || !item.is_answerless());
                true
            }
            Call::Expire(moment) => {
                self.items.retain(|item| item.deadline > u64::from(moment));
                true
            }
        }
    }

    fn push(&mut self, made: Call, name: Name, number: u64, deadline: u64) -> bool {
        let item = Waits {
            name,
            number,
            deadline,
            made,
        };
        self.items.push(item).is_ok()
    }

    fn leave(&mut self, name: Name) -> bool {
        self.items.retain(|item| item.name != name);
        true
    }
}
