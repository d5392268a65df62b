//! Items restored as they were stored, without a rule and without a radio.

use crate::fixture::{Call, envelope, limits, pdu, text};
use identity::{Bits, parse_bits};
use linked_list_allocator::LocalHeap;
use mailbox::{Item, Key, Kind, Mail, MailFault};
use registration::Limits;
use std::alloc::{Allocator, Global};
use std::test::Fail;

/// The number of the command that made a message, its source and its destination.
const RESTORED: [(u64, u32, u32); 3] = [(4, 8, 2), (4, 9, 100), (7, 1, 2)];

/// The answer to a restored message, which must come after all that wait.
fn restored<A: Allocator + Clone>(
    mail: &mut Mail<A>,
    alloc: A,
    number: u64,
    source: u32,
    destination: u32,
) -> Result<Result<(), MailFault>, Fail> {
    let key = envelope(source, destination, 5)?.key(Kind::Message);
    if !mail.is_next(number, &key) {
        return Err(Fail::from("out of order"));
    }
    let item = Item::new(key, number, 5000, pdu(alloc, Call::Post(0))?, None);
    Ok(mail.restore(item))
}

fn all_restored(alloc: Global, mail: &mut Mail<Global>) -> Result<bool, Fail> {
    for (number, source, destination) in RESTORED {
        if restored(mail, alloc, number, source, destination)?.is_err() {
            return Ok(false);
        }
    }
    Ok(true)
}

fn are_there(mail: &Mail<Global>) -> Result<bool, Fail> {
    let mut last = None;
    for (number, source, destination) in RESTORED {
        let key = envelope(source, destination, 5)?.key(Kind::Message);
        let is_there = mail.next(last).is_some_and(|item| item.number() == number
            && item.key() == key
            && item.deadline() == 5000);
        if !is_there {
            return Ok(false);
        }
        last = Some((number, key));
    }
    Ok(mail.next(last).is_none())
}

fn are_all_there(alloc: Global, mail: &mut Mail<Global>) -> Result<bool, Fail> {
    let done = all_restored(alloc, mail)?;
    let busy = restored(mail, alloc, 8, 1, 2)? == Err(MailFault::ReferenceBusy);
    let full = restored(mail, alloc, 8, 1, 3)? == Err(MailFault::CentreFull);
    Ok(done && busy && full && are_there(mail)?)
}

fn are_restored(alloc: Global) -> Result<bool, Fail> {
    let mut mail = Mail::new(alloc, limits(3)?);
    let are_there = are_all_there(alloc, &mut mail);
    drop(mail);
    are_there
}

#[test]
fn items_are_restored_in_order(rt: HostRuntime) -> Result<(), Fail> {
    assert!(rt; are_restored(rt.alloc())?);
    Ok(())
}

/// Which of these messages for one destination is the first for which there is no room.
fn first_refused(alloc: Global, mail: &mut Mail<Global>) -> Result<Option<u32>, Fail> {
    for source in 0..130u32 {
        if let Err(fault) = restored(mail, alloc, u64::from(source) + 1, source, 2)? {
            return Ok((fault == MailFault::MailboxFull).then_some(source));
        }
    }
    Ok(None)
}

fn places(alloc: Global) -> Result<Option<u32>, Fail> {
    let mut mail = Mail::new(alloc, limits(200)?);
    let places = first_refused(alloc, &mut mail);
    drop(mail);
    places
}

#[test]
fn one_destination_has_128_places(rt: HostRuntime) -> Result<(), Fail> {
    assert!(rt; places(rt.alloc())? == Some(128));
    Ok(())
}

/// Whether there is memory for the message; `None` if it is refused for another reason.
fn is_put<'a>(mail: &mut Mail<&'a LocalHeap>, key: Key, pdu: Bits<&'a LocalHeap>) -> Option<bool> {
    if !mail.is_next(1, &key) {
        return None;
    }
    match mail.restore(Item::new(key, 1, 5000, pdu, None)) {
        Ok(()) => Some(true),
        Err(fault) => (fault == MailFault::NoMemory).then_some(false),
    }
}

/// The same of a new mail in this heap; `None` also if a refusal leaves something.
fn is_put_in(heap: &LocalHeap, limits: Limits, key: Key) -> Option<bool> {
    let Ok(pdu) = parse_bits(heap, text(Call::Post(0)).as_bytes()) else {
        return Some(false);
    };
    let mut mail = Mail::new(heap, limits);
    let is_put = is_put(&mut mail, key, pdu);
    let is_there = mail.next(None).is_some();
    drop(mail);
    (is_put == Some(is_there)).then_some(is_there)
}

/// The same of a heap of this size; `None` also if some of it stays in use.
fn restored_in(alloc: Global, size: usize) -> Result<Option<bool>, Fail> {
    let (limits, key) = (limits(3)?, envelope(8, 2, 5)?.key(Kind::Message));
    let heap = LocalHeap::new(alloc, size)?;
    let is_put = is_put_in(&heap, limits, key);
    Ok(if heap.used() == 0 { is_put } else { None })
}

/// The smallest heap with memory for the message, in units of 16 bytes.
fn least_heap(alloc: Global) -> Result<Option<usize>, Fail> {
    for size in 2..200usize {
        match restored_in(alloc, 16 * size)? {
            Some(true) => return Ok(Some(size)),
            Some(false) => {}
            None => return Ok(None),
        }
    }
    Ok(None)
}

#[test]
fn each_growth_of_a_restored_item_is_refused(rt: HostRuntime) -> Result<(), Fail> {
    assert!(rt; least_heap(rt.alloc())?.is_some_and(|size| size > 10));
    Ok(())
}
