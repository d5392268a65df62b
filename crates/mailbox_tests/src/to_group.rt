//! Messages to a group of three members.

ghost use Rattle.std.specs.Prelude.{◌≡◌, ◌<◌, IsTrue, []};
ghost use Rattle.std.specs.List.{AllPairs};

use identity::{Bits, Gtsi, Itsi};
use mailbox::{GroupEnvelope, Mail, MailFault, Moment, Stamp};
use registration::Registry;
use sds_tl::MessageReference;
use std::alloc::{Allocator, Global};

/// A message of reference 5 from a radio to a group, by the numbers of both, with its members.
#[derive(Clone, Copy)]
pub struct ToGroup {
    pub source: u32,
    pub group: u32,
    pub members: [u32; 3],
}

/// A message of radio 1 to group 50, whose members are radios 1, 2 and 3.
pub const MESSAGE: ToGroup = ToGroup {
    source: 1,
    group: 50,
    members: [1, 2, 3],
};

/// The envelope; a group is of network 234-14, from 100 on of network 235-14.
fn envelope(message: &ToGroup) -> Option<GroupEnvelope> {
    let mcc = if message.group < 100 { 234 } else { 235 };
    Some(GroupEnvelope {
        source: Itsi::new(234, 14, message.source)?,
        group: Gtsi::new(mcc, 14, message.group)?,
        reference: MessageReference::new(5),
    })
}

fn members(message: &ToGroup) -> Option<[Itsi; 3]> {
    let [first, second, third] = message.members;
    Some([
        Itsi::new(234, 14, first)?,
        Itsi::new(234, 14, second)?,
        Itsi::new(234, 14, third)?,
    ])
}

fn is_rising(members: &[Itsi; 3]) -> bool
    ensures { IsTrue result → AllPairs (λ a b. a < b) members.now }
{
    let [first, second, third] = *members;
    first.number() < second.number()
        && first.number() < third.number()
        && second.number() < third.number()
}

fn is_empty<A: Allocator>(alloc: Global, mail: &Mail<A>) -> bool
    ensures { IsTrue result → mail.now.items ≡ [] }
{
    match mail.items(alloc) {
        Ok(items) => items.is_empty(),
        Err(_) => false,
    }
}

/// Why the message would be refused.
pub fn group_refusal<A: Allocator + Clone>(
    registry: &Registry<A>,
    mail: &Mail<A>,
    message: &ToGroup,
) -> Option<MailFault> {
    let (Some(envelope), Some(members)) = (envelope(message), members(message)) else {
        return Some(MailFault::NoSuchMessage);
    };
    if !is_rising(&members) {
        return Some(MailFault::NoSuchMessage);
    }
    mail.group_refusal(registry, &envelope, &members)
}

/// Puts the message by command 4 at moment 100. Nothing may wait.
pub fn post_group<A: Allocator + Clone>(
    alloc: Global,
    registry: &Registry<A>,
    mail: &mut Mail<A>,
    message: &ToGroup,
    pdu: Bits<A>,
) -> Result<(), MailFault> {
    let stamp = Stamp {
        number: 4,
        moment: Moment::new(100),
    };
    let (Some(envelope), Some(members)) = (envelope(message), members(message)) else {
        return Err(MailFault::NoSuchMessage);
    };
    if !is_rising(&members) || !is_empty(alloc, mail) {
        return Err(MailFault::NoSuchMessage);
    }
    mail.post_group(registry, &envelope, &members, stamp, pdu)
}
