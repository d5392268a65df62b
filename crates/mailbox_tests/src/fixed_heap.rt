//! Mail in a heap of fixed size: rounds of 12 changes, more than 10,000 in all, each end with an empty mail and leave the
//! heap as it was. Once the mail is dropped, every byte is free again.

use crate::fixture::{Call, Made, called, envelope, limits, pdu, registry};
use crate::to_group::{MESSAGE, post_group};
use linked_list_allocator::LocalHeap;
use mailbox::{Kind, Mail, Moment, Stamp};
use registration::Registry;
use std::alloc::Global;
use std::test::Fail;

/// The changes of a round, each with its source, destination and reference. Items end by an acknowledgement, by being sent,
/// by deletion and by their deadline.
const ROUND: [(Call, u32, u32, u8); 10] = [
    (Call::Post(1), 1, 2, 5),
    (Call::Report(0, true), 2, 1, 5),
    (Call::Ack, 1, 2, 5),
    (Call::Post(0), 2, 3, 6),
    (Call::Sent(Kind::Message), 2, 3, 6),
    (Call::Post(3), 1, 1, 7),
    (Call::Delete(Kind::Message), 1, 1, 7),
    (Call::Post(3), 3, 2, 8),
    (Call::Post(2), 3, 1, 8),
    (Call::Expire(3700), 1, 1, 0),
];

/// Makes the changes of a round, after so many others, and returns whether each succeeds.
fn is_round_made<'a>(
    heap: &'a LocalHeap,
    registry: &Registry<&'a LocalHeap>,
    mail: &mut Mail<&'a LocalHeap>,
    before: u64,
) -> Result<bool, Fail> {
    let mut number = before;
    for (call, source, destination, reference) in ROUND {
        number = number.saturating_add(1);
        let made = Made {
            call,
            envelope: envelope(source, destination, reference)?,
            stamp: Stamp {
                number,
                moment: Moment::new(100),
            },
        };
        if called(registry, mail, &made, pdu(heap, call)?).is_err() {
            return Ok(false);
        }
    }
    Ok(true)
}

/// Puts a message to a group, lets its copies expire, and returns whether it was put.
fn is_group_message_put<'a>(
    alloc: Global,
    heap: &'a LocalHeap,
    registry: &Registry<&'a LocalHeap>,
    mail: &mut Mail<&'a LocalHeap>,
) -> Result<bool, Fail> {
    let pdu = pdu(heap, Call::Post(3))?;
    let is_put = post_group(alloc, registry, mail, &MESSAGE, pdu).is_ok();
    mail.expire(Moment::new(3700));
    Ok(is_put)
}

/// Makes so many rounds, and returns whether each leaves the heap as it was.
fn is_even<'a>(
    alloc: Global,
    heap: &'a LocalHeap,
    registry: &Registry<&'a LocalHeap>,
    mail: &mut Mail<&'a LocalHeap>,
    rounds: u64,
) -> Result<bool, Fail> {
    let empty = heap.used();
    for round in 0..rounds {
        if !is_group_message_put(alloc, heap, registry, mail)?
            || !is_round_made(heap, registry, mail, round.saturating_mul(10))?
            || heap.used() != empty
        {
            return Ok(false);
        }
    }
    Ok(true)
}

/// The register is in another heap.
fn leaves_no_trace<'a>(
    alloc: Global,
    heap: &'a LocalHeap,
    other: &'a LocalHeap,
) -> Result<bool, Fail> {
    let limits = limits(16)?;
    let registry = registry(other)?;
    let mut mail = Mail::new(heap, limits);
    let is_even = is_even(alloc, heap, &registry, &mut mail, 900);
    drop(mail);
    drop(registry);
    is_even
}

#[test]
fn ten_thousand_changes_leave_no_trace(rt: HostRuntime) -> Result<(), Fail> {
    let (heap, other) = (
        LocalHeap::new(rt.alloc(), 4096)?,
        LocalHeap::new(rt.alloc(), 4096)?,
    );
    let empty = heap.used();
    assert!(rt; leaves_no_trace(rt.alloc(), &heap, &other)? && heap.used() == empty);
    Ok(())
}
