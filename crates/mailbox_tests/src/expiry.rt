//! Items that have ended are removed, wherever they are in the order.

use crate::fixture::{Call, Made, called, envelope, limits, pdu, registry};
use mailbox::{Mail, Moment, Stamp};
use registration::Registry;
use std::alloc::Global;
use std::test::Fail;

/// When each message is given, numbered from 1; it ends an hour later.
const GIVEN: [u32; 6] = [300, 100, 500, 200, 600, 400];

/// A moment at which `expire` is called, and the numbers of the items that then wait, as digits.
const LEFT: [(u32, u64); 7] = [
    (3_699, 123_456),
    (3_700, 13_456),
    (3_850, 1_356),
    (3_950, 356),
    (4_050, 35),
    (4_199, 5),
    (4_200, 0),
];

/// The same for a message that asks for two reports, of which both come. The message ends an hour after its command, the
/// report an hour after the later of the two.
const REPORTED: [(u32, u64); 4] = [(3_699, 13), (3_700, 3), (4_599, 3), (4_600, 0)];

fn given(turn: u8, moment: u32, call: Call) -> Result<Made, Fail> {
    let envelope = match call {
        Call::Post(_) => envelope(1, 2 + u32::from(turn % 2), turn)?,
        _ => envelope(2, 1, 0)?,
    };
    Ok(Made {
        call,
        envelope,
        stamp: Stamp {
            number: u64::from(turn) + 1,
            moment: Moment::new(moment),
        },
    })
}

fn put(
    alloc: Global,
    registry: &Registry<Global>,
    mail: &mut Mail<Global>,
    made: &Made,
) -> Result<(), Fail> {
    let _ = called(registry, mail, made, pdu(alloc, made.call)?);
    Ok(())
}

/// The numbers of what waits, as digits.
fn digits(alloc: Global, mail: &Mail<Global>) -> Result<u64, Fail> {
    let mut digits = 0u64;
    for item in mail.items(alloc)? {
        digits = digits.saturating_mul(10).saturating_add(item.number());
    }
    Ok(digits)
}

/// The first moment at which other numbers wait than these.
fn first_wrong(
    alloc: Global,
    mail: &mut Mail<Global>,
    rows: &[(u32, u64)],
) -> Result<Option<u32>, Fail> {
    for (moment, want) in rows {
        mail.expire(Moment::new(*moment));
        if digits(alloc, mail)? != *want {
            return Ok(Some(*moment));
        }
    }
    Ok(None)
}

fn messages(
    alloc: Global,
    registry: &Registry<Global>,
    mail: &mut Mail<Global>,
) -> Result<Option<u32>, Fail> {
    for turn in 0..6u8 {
        let made = given(turn, GIVEN[usize::from(turn)], Call::Post(0))?;
        put(alloc, registry, mail, &made)?;
    }
    first_wrong(alloc, mail, &LEFT)
}

fn reports(
    alloc: Global,
    registry: &Registry<Global>,
    mail: &mut Mail<Global>,
) -> Result<Option<u32>, Fail> {
    put(alloc, registry, mail, &given(0, 100, Call::Post(3))?)?;
    put(
        alloc,
        registry,
        mail,
        &given(1, 200, Call::Report(0, false))?,
    )?;
    put(
        alloc,
        registry,
        mail,
        &given(2, 1_000, Call::Report(0, false))?,
    )?;
    first_wrong(alloc, mail, &REPORTED)
}

fn both(
    alloc: Global,
    registry: &Registry<Global>,
    mail: &mut Mail<Global>,
) -> Result<[Option<u32>; 2], Fail> {
    let late = messages(alloc, registry, mail)?;
    Ok([late, reports(alloc, registry, mail)?])
}

fn all_wrong(alloc: Global) -> Result<[Option<u32>; 2], Fail> {
    let limits = limits(16)?;
    let registry = registry(alloc)?;
    let mut mail = Mail::new(alloc, limits);
    let both = both(alloc, &registry, &mut mail);
    drop(mail);
    drop(registry);
    both
}

#[test]
fn what_has_ended_goes(rt: HostRuntime) -> Result<(), Fail> {
    assert!(rt; all_wrong(rt.alloc())? == [None, None]);
    Ok(())
}
