//! A message to a group waits for each member that is present, but not for the sender; or it waits for nobody.

use crate::fixture::{Call, limits, pdu, registry};
use crate::to_group::{MESSAGE, ToGroup, group_refusal, post_group};
use mailbox::{Item, Kind, Mail, MailFault};
use registration::Registry;
use std::alloc::Global;
use std::test::Fail;

/// Whether the item is a copy for this radio of the message that radio 1 sent to group 50 at moment 100, by command 4.
fn is_copy(item: &Item<Global>, destination: u32) -> bool {
    let Some(group) = item.group() else {
        return false;
    };
    let key = item.key();
    (
        key.destination.ssi(),
        key.source.ssi(),
        key.reference.number(),
    ) == (destination, 1, 5)
        && key.kind == Kind::Message
        && (item.number(), item.deadline(), group.ssi()) == (4, 3700, 50)
        && item.pdu().as_bytes() == [0x82, 0x0C, 0x05, 0x49].as_slice()
}

/// Whether there are two copies: radio 1 has sent the message, radio 9 is not present.
fn are_copies(items: &[&Item<Global>]) -> bool {
    match items {
        [first, second] => is_copy(first, 2) && is_copy(second, 3),
        _ => false,
    }
}

fn is_posted(
    alloc: Global,
    registry: &Registry<Global>,
    mail: &mut Mail<Global>,
) -> Result<bool, Fail> {
    let pdu = pdu(alloc, Call::Post(3))?;
    Ok(post_group(alloc, registry, mail, &MESSAGE, pdu).is_ok() && are_copies(&mail.items(alloc)?))
}

/// The source, the group, the members, and why the message is refused to a mail with these copies and room for 3 items.
const REFUSED: [(u32, u32, [u32; 3], Option<MailFault>); 7] = [
    (9, 100, [1, 9, 10], Some(MailFault::UnknownDestination)),
    (9, 50, [1, 9, 10], Some(MailFault::NotAttached)),
    (1, 50, [1, 9, 10], Some(MailFault::NoMembers)),
    (1, 50, [1, 2, 3], Some(MailFault::ReferenceBusy)),
    (1, 50, [3, 9, 10], Some(MailFault::ReferenceBusy)),
    (2, 50, [1, 2, 3], Some(MailFault::CentreFull)),
    (2, 50, [1, 2, 9], None),
];

fn are_refused(registry: &Registry<Global>, mail: &Mail<Global>) -> bool {
    for (source, group, members, want) in REFUSED {
        let message = ToGroup {
            source,
            group,
            members,
        };
        if group_refusal(registry, mail, &message) != want {
            return false;
        }
    }
    true
}

fn are_answered(
    alloc: Global,
    registry: &Registry<Global>,
    mail: &mut Mail<Global>,
) -> Result<bool, Fail> {
    Ok(is_posted(alloc, registry, mail)? && are_refused(registry, mail))
}

fn tried(alloc: Global) -> Result<bool, Fail> {
    let limits = limits(3)?;
    let registry = registry(alloc)?;
    let mut mail = Mail::new(alloc, limits);
    let are_answered = are_answered(alloc, &registry, &mut mail);
    drop(mail);
    drop(registry);
    are_answered
}

#[test]
fn a_message_to_a_group_waits_for_its_members(rt: HostRuntime) -> Result<(), Fail> {
    assert!(rt; tried(rt.alloc())?);
    Ok(())
}
