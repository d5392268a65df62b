//! From each item that waits to the next, without memory.

use crate::fixture::{Call, Made, called, envelope, limits, pdu, registry};
use mailbox::{Key, Kind, Mail, Moment, Stamp};
use registration::Registry;
use std::alloc::Global;
use std::test::Fail;

/// The number of the command that posts a message, its source and its destination.
const POSTED: [(u64, u32, u32); 3] = [(1, 1, 2), (2, 2, 1), (3, 1, 3)];

/// A number, a source and a destination, and the number of the item that follows them; 0 for none.
const FOLLOWING: [(u64, u32, u32, u64); 8] = [
    (0, 1, 3, 1),
    (1, 1, 1, 1),
    (1, 1, 2, 2),
    (1, 1, 3, 2),
    (2, 1, 1, 2),
    (2, 2, 1, 3),
    (3, 1, 3, 0),
    (4, 1, 1, 0),
];

fn key(source: u32, destination: u32) -> Result<Key, Fail> {
    Ok(envelope(source, destination, 5)?.key(Kind::Message))
}

fn fill(alloc: Global, registry: &Registry<Global>, mail: &mut Mail<Global>) -> Result<(), Fail> {
    for (number, source, destination) in POSTED {
        let made = Made {
            call: Call::Post(0),
            envelope: envelope(source, destination, 5)?,
            stamp: Stamp {
                number,
                moment: Moment::new(100),
            },
        };
        let _ = called(registry, mail, &made, pdu(alloc, made.call)?);
    }
    Ok(())
}

fn next_number(mail: &Mail<Global>, after: Option<(u64, Key)>) -> u64 {
    match mail.next(after) {
        Some(item) => item.number(),
        None => 0,
    }
}

fn follow(mail: &Mail<Global>) -> Result<bool, Fail> {
    for (number, source, destination, want) in FOLLOWING {
        if next_number(mail, Some((number, key(source, destination)?))) != want {
            return Ok(false);
        }
    }
    Ok(next_number(mail, None) == 1 && mail.len() == 3)
}

fn are_followed(
    alloc: Global,
    registry: &Registry<Global>,
    mail: &mut Mail<Global>,
) -> Result<bool, Fail> {
    fill(alloc, registry, mail)?;
    let all = follow(mail)?;
    let second = key(2, 1)?;
    let gone = mail.delete(&second).is_ok();
    Ok(all && gone && next_number(mail, Some((2, second))) == 3)
}

fn tried(alloc: Global) -> Result<bool, Fail> {
    let limits = limits(6)?;
    let registry = registry(alloc)?;
    let mut mail = Mail::new(alloc, limits);
    let are_followed = are_followed(alloc, &registry, &mut mail);
    drop(mail);
    drop(registry);
    are_followed
}

#[test]
fn items_follow_one_another(rt: HostRuntime) -> Result<(), Fail> {
    assert!(rt; tried(rt.alloc())?);
    Ok(())
}
