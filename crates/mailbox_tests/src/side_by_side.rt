//! The mail beside the plain list.

use crate::fixture::{Call, Made, called, envelope, is_judged, limits, pdu, radio, registry, text};
use crate::plain::{Name, PlainMail, Waits};
use base::TryCopy;
use identity::{Bits, parse_bits};
use mailbox::{Item, Kind, Mail, Moment, Stamp};
use registration::Registry;
use std::alloc::Global;
use std::test::Fail;

const KINDS: [Kind; 2] = [Kind::Message, Kind::Report];

/// Radio 9 is not present, and radio 100 has no rule.
const SOURCES: [u32; 8] = [1, 2, 1, 2, 1, 2, 2, 9];

const DESTINATIONS: [u32; 8] = [2, 1, 1, 2, 2, 1, 2, 100];

/// The call that is made of a number at a moment.
fn call_of(number: u64, moment: u32) -> Call {
    let (code, kind) = (
        ((number >> 8) % 4) as u8,
        KINDS[(number >> 16) as usize % 2],
    );
    match number % 16 {
        0..=5 => Call::Post(code),
        6..=9 => Call::Report(code, number >> 17 & 1 == 1),
        10..=11 => Call::Ack,
        12..=13 => Call::Sent(kind),
        14 => Call::Delete(kind),
        _ => Call::Expire(moment),
    }
}

/// The name that is made of a number, of few radios and references.
fn name_of(number: u64) -> Name {
    Name {
        destination: DESTINATIONS[(number >> 24) as usize % 8],
        source: SOURCES[(number >> 32) as usize % 8],
        reference: ((number >> 40) % 3) as u8,
        kind: Kind::Message,
    }
}

fn is_same(alloc: Global, item: &Item<Global>, waits: &Waits) -> bool {
    let Ok(pdu) = parse_bits(alloc, text(waits.made).as_bytes()) else {
        return false;
    };
    waits.name.is_of(&item.key())
        && (item.number(), item.deadline()) == (waits.number, waits.deadline)
        && item.pdu().same(&pdu)
        && item.group().is_none()
}

/// Whether these items are those of the list that are for a radio; 0 for all.
fn are_same(alloc: Global, items: &[&Item<Global>], list: &[Waits], radio: u32) -> bool {
    let mut count = 0usize;
    for waits in list {
        if radio == 0 || waits.name.destination == radio {
            match items.get(count) {
                Some(item) if is_same(alloc, item, waits) => count = count.saturating_add(1),
                _ => return false,
            }
        }
    }
    count == items.len()
}

/// Whether both list the same items.
fn are_alike(alloc: Global, mail: &Mail<Global>, plain: &PlainMail) -> Result<bool, Fail> {
    for number in [1, 2, 9] {
        let waiting = mail.waiting(alloc, radio(number)?)?;
        if !are_same(alloc, &waiting, plain.as_slice(), number) {
            return Ok(false);
        }
    }
    Ok(are_same(alloc, &mail.items(alloc)?, plain.as_slice(), 0))
}

/// The mail and the list.
#[derive(Drop)]
struct Both {
    mail: Mail<Global>,
    plain: PlainMail,
}

/// Makes one call in both, and returns whether their answers are the same.
fn is_answered_alike(
    registry: &Registry<Global>,
    both: &mut Both,
    made: &Made,
    name: Name,
    pdu: Bits<Global>,
) -> bool {
    let want = both.plain.refusal(made.call, name);
    if !is_judged(registry, &both.mail, made, want) {
        return false;
    }
    if called(registry, &mut both.mail, made, pdu).err() != want {
        return false;
    }
    let (number, deadline) = (
        made.stamp.number,
        u64::from(made.stamp.moment.number()) + 3600,
    );
    want.is_some() || both.plain.change(made.call, name, number, deadline)
}

fn made_of(name: Name, call: Call, stamp: Stamp) -> Result<Made, Fail> {
    let envelope = envelope(name.source, name.destination, name.reference)?;
    Ok(Made {
        call,
        envelope,
        stamp,
    })
}

/// Makes the call of this number in both, and returns whether their answers and then their items are the same.
fn is_turn_alike(
    alloc: Global,
    registry: &Registry<Global>,
    both: &mut Both,
    random: u64,
    stamp: Stamp,
) -> Result<bool, Fail> {
    let (call, name) = (call_of(random, stamp.moment.number()), name_of(random));
    let made = made_of(name, call, stamp)?;
    let pdu = pdu(alloc, call)?;
    if !is_answered_alike(registry, both, &made, name, pdu) {
        return Ok(false);
    }
    are_alike(alloc, &both.mail, &both.plain)
}

/// Makes so many turns, and returns the most items that waited. After each turn both have the same items.
fn most_items(
    alloc: Global,
    registry: &Registry<Global>,
    both: &mut Both,
    turns: u32,
) -> Result<usize, Fail> {
    let (mut random, mut most) = (1u64, 0);
    for turn in 1..turns {
        random = random
            .wrapping_mul(6_364_136_223_846_793_005)
            .wrapping_add(1_442_695_040_888_963_407);
        let stamp = Stamp {
            number: u64::from(turn),
            moment: Moment::new(turn.saturating_mul(200)),
        };
        if !is_turn_alike(alloc, registry, both, random >> 16, stamp)? {
            return Err(Fail::from("mail and list differ"));
        }
        most = most.max(both.plain.as_slice().len());
    }
    Ok(most)
}

/// Whether the copy still has the same items once the mail is empty.
fn is_apart(alloc: Global, both: &mut Both, copy: &Mail<Global>) -> Result<bool, Fail> {
    both.mail.expire(Moment::new(u32::MAX));
    let empty = both.mail.items(alloc)?.is_empty();
    Ok(empty && are_alike(alloc, copy, &both.plain)?)
}

fn is_copied(alloc: Global, both: &mut Both) -> Result<bool, Fail> {
    let copy = both.mail.try_copy()?;
    let is_apart = is_apart(alloc, both, &copy);
    drop(copy);
    is_apart
}

/// Whether 1,000 turns are alike, with six items at most, and then a copy is.
fn are_turns_alike(
    alloc: Global,
    registry: &Registry<Global>,
    both: &mut Both,
) -> Result<bool, Fail> {
    Ok(most_items(alloc, registry, both, 1000)? == 6 && is_copied(alloc, both)?)
}

fn is_compared(alloc: Global) -> Result<bool, Fail> {
    let limits = limits(6)?;
    let registry = registry(alloc)?;
    let mut both = Both {
        mail: Mail::new(alloc, limits),
        plain: PlainMail::new(alloc, 6),
    };
    let are_alike = are_turns_alike(alloc, &registry, &mut both);
    drop(both);
    drop(registry);
    are_alike
}

#[test]
fn mail_and_list_answer_alike(rt: HostRuntime) -> Result<(), Fail> {
    assert!(rt; is_compared(rt.alloc())?);
    Ok(())
}
