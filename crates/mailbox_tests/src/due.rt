//! From each item that has ended by a moment to the next, without memory; and the items of one destination.

use crate::fixture::{Call, Made, called, envelope, limits, pdu, radio, registry};
use mailbox::{Item, Key, Kind, Mail, Moment, Stamp};
use registration::Registry;
use std::alloc::Global;
use std::test::Fail;

/// When each message is given, numbered from 1; it ends an hour later.
const GIVEN: [u32; 6] = [300, 100, 500, 200, 600, 400];

/// A moment, and the numbers of the items that have ended by it, as digits.
const ENDED: [(u32, u64); 9] = [
    (3_699, 0),
    (3_700, 2),
    (3_799, 2),
    (3_800, 24),
    (3_899, 24),
    (3_900, 124),
    (4_000, 1_246),
    (4_199, 12_346),
    (4_200, 123_456),
];

/// A number, a destination and a reference, and the number of the item that has ended by 3,900 and follows them; 0 for none.
const FOLLOWING: [(u64, u32, u8, u64); 9] = [
    (0, 3, 9, 1),
    (1, 2, 0, 2),
    (2, 2, 9, 2),
    (2, 3, 0, 2),
    (2, 3, 1, 4),
    (2, 3, 2, 4),
    (3, 2, 2, 4),
    (4, 3, 3, 0),
    (7, 2, 0, 0),
];

/// A destination, and the numbers of the items that wait for it, as digits.
const WAITING: [(u32, u64); 3] = [(1, 0), (2, 135), (3, 246)];

fn fill(alloc: Global, registry: &Registry<Global>, mail: &mut Mail<Global>) -> Result<(), Fail> {
    for turn in 0..6u8 {
        let made = Made {
            call: Call::Post(0),
            envelope: envelope(1, 2 + u32::from(turn % 2), turn)?,
            stamp: Stamp {
                number: u64::from(turn) + 1,
                moment: Moment::new(GIVEN[usize::from(turn)]),
            },
        };
        let _ = called(registry, mail, &made, pdu(alloc, made.call)?);
    }
    Ok(())
}

fn with_digit(digits: u64, item: &Item<Global>) -> u64 {
    digits.saturating_mul(10).saturating_add(item.number())
}

/// The numbers of the items that have ended by the moment, each found from the one before, as digits.
fn ended(mail: &Mail<Global>, moment: u32) -> u64 {
    let (mut digits, mut after) = (0u64, None);
    for _ in 0..8 {
        let Some(item) = mail.next_due(Moment::new(moment), after) else {
            return digits;
        };
        digits = with_digit(digits, item);
        after = Some((item.number(), item.key()));
    }
    digits
}

fn next_number(mail: &Mail<Global>, number: u64, key: Key) -> u64 {
    match mail.next_due(Moment::new(3_900), Some((number, key))) {
        Some(item) => item.number(),
        None => 0,
    }
}

/// The first moment of `ENDED` at which other items are found.
fn first_wrong(mail: &Mail<Global>) -> Option<u32> {
    for (moment, want) in ENDED {
        if ended(mail, moment) != want {
            return Some(moment);
        }
    }
    None
}

fn follow(mail: &Mail<Global>) -> Result<bool, Fail> {
    for (number, destination, reference, want) in FOLLOWING {
        let key = envelope(1, destination, reference)?.key(Kind::Message);
        if next_number(mail, number, key) != want {
            return Ok(false);
        }
    }
    Ok(true)
}

fn wait(mail: &Mail<Global>) -> Result<bool, Fail> {
    for (destination, want) in WAITING {
        let mut digits = 0u64;
        for item in mail.items_of(radio(destination)?) {
            digits = with_digit(digits, item);
        }
        if digits != want {
            return Ok(false);
        }
    }
    Ok(true)
}

fn are_found(
    alloc: Global,
    registry: &Registry<Global>,
    mail: &mut Mail<Global>,
) -> Result<bool, Fail> {
    fill(alloc, registry, mail)?;
    let all = first_wrong(mail).is_none() && follow(mail)? && wait(mail)? && mail.len() == 6;
    mail.expire(Moment::new(3_700));
    Ok(all && ended(mail, 3_700) == 0 && ended(mail, 3_900) == 14)
}

fn tried(alloc: Global) -> Result<bool, Fail> {
    let limits = limits(6)?;
    let registry = registry(alloc)?;
    let mut mail = Mail::new(alloc, limits);
    let are_found = are_found(alloc, &registry, &mut mail);
    drop(mail);
    drop(registry);
    are_found
}

#[test]
fn items_that_have_ended_follow_one_another(rt: HostRuntime) -> Result<(), Fail> {
    assert!(rt; tried(rt.alloc())?);
    Ok(())
}
