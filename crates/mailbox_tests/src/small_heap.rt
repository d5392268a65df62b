//! Mail in heaps of rising size: each growth is refused in turn, and then nothing is changed.

use crate::fixture::{Call, Made, called, envelope, limits, pdu, radio, registry};
use crate::to_group::{MESSAGE, post_group};
use base::TryCopy;
use linked_list_allocator::LocalHeap;
use mailbox::{Mail, MailFault, Moment, Stamp};
use registration::Registry;
use std::alloc::Global;
use std::test::Fail;

/// Eight messages for radio 2, and then a report on each for radio 1.
fn made_at(turn: u8) -> Result<Made, Fail> {
    let stamp = Stamp {
        number: u64::from(turn) + 1,
        moment: Moment::new(100),
    };
    let (call, envelope) = if turn < 8 {
        (Call::Post(3), envelope(1, 2, turn)?)
    } else {
        (Call::Report(0, false), envelope(2, 1, turn - 8)?)
    };
    Ok(Made {
        call,
        envelope,
        stamp,
    })
}

/// The numbers of what waits, in order.
fn numbers<'a>(alloc: Global, mail: &Mail<&'a LocalHeap>) -> Result<Vec<u64>, Fail> {
    let mut numbers = Vec::new(alloc);
    for item in mail.items(alloc)? {
        numbers.push(item.number())?;
    }
    Ok(numbers)
}

/// `None` if the call of this turn is carried out, else whether it left all as it was. Its PDU is in an ample heap.
fn tried<'a>(
    alloc: Global,
    ample: &'a LocalHeap,
    registry: &Registry<&'a LocalHeap>,
    mail: &mut Mail<&'a LocalHeap>,
    turn: u8,
) -> Result<Option<bool>, Fail> {
    let (made, before) = (made_at(turn)?, numbers(alloc, mail)?);
    match called(registry, mail, &made, pdu(ample, made.call)?) {
        Ok(()) => Ok(None),
        Err(fault) => { Ok(Some(fault == MailFault::NoMemory && numbers(alloc, mail)? == before)) }
    }
}

/// How many calls are carried out until one is refused, and one more if the mail can then be copied; `None` if the refusal
/// changed something.
fn taken<'a>(
    alloc: Global,
    ample: &'a LocalHeap,
    registry: &Registry<&'a LocalHeap>,
    mail: &mut Mail<&'a LocalHeap>,
) -> Result<Option<usize>, Fail> {
    for turn in 0..16u8 {
        if let Some(unchanged) = tried(alloc, ample, registry, mail, turn)? {
            return Ok(unchanged.then_some(usize::from(turn)));
        }
    }
    Ok(Some(16 + usize::from(mail.try_copy().is_ok())))
}

/// The same of a new mail in this heap.
fn taken_in<'a>(
    alloc: Global,
    ample: &'a LocalHeap,
    heap: &'a LocalHeap,
) -> Result<Option<usize>, Fail> {
    let limits = limits(16)?;
    let registry = registry(ample)?;
    let mut mail = Mail::new(heap, limits);
    let taken = taken(alloc, ample, &registry, &mut mail);
    drop(mail);
    drop(registry);
    taken
}

/// The same of a heap of this size.
fn taken_of(alloc: Global, ample: &LocalHeap, size: usize) -> Result<Option<usize>, Fail> {
    let heap = LocalHeap::new(alloc, size)?;
    taken_in(alloc, ample, &heap)
}

/// Which numbers of calls heaps of rising size carry out.
fn ends(alloc: Global, ample: &LocalHeap) -> Result<[bool; 18], Fail> {
    let mut seen = [false; 18];
    for size in 1..320usize {
        let Some(count) = taken_of(alloc, ample, 64 * size)? else {
            return Err(Fail::from("a refusal changed something"));
        };
        seen[count.min(17)] = true;
    }
    Ok(seen)
}

/// Each item needs a node of its own, the first message and the first report an inbox too, the second and the fifth of each a
/// longer one. The shorter ones leave room for the next node and the next three. At last there is memory for all but a copy (16),
/// and for all (17).
const ENDS: [usize; 10] = [0, 1, 3, 4, 8, 9, 11, 12, 16, 17];

fn are_seen(alloc: Global) -> Result<bool, Fail> {
    let ample = LocalHeap::new(alloc, 1 << 16)?;
    let seen = ends(alloc, &ample)?;
    Ok(ENDS.iter().all(|end| seen.get(*end) == Some(&true)))
}

#[test]
fn each_growth_is_refused_in_turn(rt: HostRuntime) -> Result<(), Fail> {
    assert!(rt; are_seen(rt.alloc())?);
    Ok(())
}

/// Whether a message to a group was put for both its receivers, or was put for nobody because memory ran out; `None` in any
/// other case.
fn is_posted<'a>(
    alloc: Global,
    ample: &'a LocalHeap,
    registry: &Registry<&'a LocalHeap>,
    mail: &mut Mail<&'a LocalHeap>,
) -> Result<Option<bool>, Fail> {
    let answer = post_group(alloc, registry, mail, &MESSAGE, pdu(ample, Call::Post(3))?);
    match (answer, mail.items(alloc)?.len()) {
        (Ok(()), 2) => Ok(Some(true)),
        (Err(MailFault::NoMemory), 0) => Ok(Some(false)),
        _ => Ok(None),
    }
}

/// The same of a new mail in this heap.
fn is_posted_in<'a>(
    alloc: Global,
    ample: &'a LocalHeap,
    heap: &'a LocalHeap,
) -> Result<Option<bool>, Fail> {
    let limits = limits(16)?;
    let registry = registry(ample)?;
    let mut mail = Mail::new(heap, limits);
    let is_posted = is_posted(alloc, ample, &registry, &mut mail);
    drop(mail);
    drop(registry);
    is_posted
}

/// The same of a heap of this size.
fn is_posted_of(alloc: Global, ample: &LocalHeap, size: usize) -> Result<Option<bool>, Fail> {
    let heap = LocalHeap::new(alloc, size)?;
    is_posted_in(alloc, ample, &heap)
}

/// Whether heaps of rising size take the message for nobody, and then for all.
fn are_all_or_nobody(alloc: Global, ample: &LocalHeap) -> Result<[bool; 2], Fail> {
    let mut seen = [false; 2];
    for size in 1..64usize {
        let Some(posted) = is_posted_of(alloc, ample, 32 * size)? else {
            return Err(Fail::from("not all or nobody"));
        };
        seen[usize::from(posted)] = true;
    }
    Ok(seen)
}

#[test]
fn all_have_a_copy_or_nobody(rt: HostRuntime) -> Result<(), Fail> {
    let ample = LocalHeap::new(rt.alloc(), 1 << 16)?;
    assert!(rt; are_all_or_nobody(rt.alloc(), &ample)? == [true, true]);
    Ok(())
}

fn put_eight(
    alloc: Global,
    registry: &Registry<Global>,
    mail: &mut Mail<Global>,
) -> Result<(), Fail> {
    for turn in 0..8u8 {
        let made = made_at(turn)?;
        let _ = called(registry, mail, &made, pdu(alloc, made.call)?);
    }
    Ok(())
}

/// Whether this heap has too little memory for either list of what waits, eight items.
fn are_lists_refused(alloc: Global, heap: &LocalHeap) -> Result<bool, Fail> {
    let (limits, itsi) = (limits(16)?, radio(2)?);
    let registry = registry(alloc)?;
    let mut mail = Mail::new(alloc, limits);
    let are_put = put_eight(alloc, &registry, &mut mail);
    let are_refused = mail.items(heap).is_err() && mail.waiting(heap, itsi).is_err();
    drop(mail);
    drop(registry);
    are_put?;
    Ok(are_refused)
}

#[test]
fn lists_may_be_refused(rt: HostRuntime) -> Result<(), Fail> {
    let heap = LocalHeap::new(rt.alloc(), 32)?;
    assert!(rt; are_lists_refused(rt.alloc(), &heap)?);
    Ok(())
}
