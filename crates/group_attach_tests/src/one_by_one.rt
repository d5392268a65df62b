//! From each attachment of a radio to the next, without memory.

use crate::fixture::{Ask, group, items, radio, register};
use group_attach::Groups;
use identity::Itsi;
use mm_pdus::GroupMode;
use registration::Registry;
use std::alloc::Global;
use std::test::Fail;

const OF_ONE: [Ask; 3] = [Ask::Attach(3), Ask::Attach(1), Ask::Attach(4)];

const OF_OTHER: [Ask; 1] = [Ask::Attach(2)];

/// A group, and the one that follows it; 0 for none.
const FOLLOWING: [(u16, u32); 6] = [(0, 1), (1, 3), (2, 3), (3, 4), (4, 0), (9, 0)];

fn next_group(groups: &Groups<Global>, itsi: Itsi, after: u16) -> Result<u32, Fail> {
    let after = if after == 0 {
        None
    } else {
        Some(group(after)?)
    };
    match groups.next_of(itsi, after) {
        Some(attachment) if attachment.itsi == itsi => Ok(attachment.gtsi.ssi()),
        Some(_) => Err(Fail::from("another radio's attachment")),
        None => Ok(0),
    }
}

fn follow(groups: &Groups<Global>, itsi: Itsi) -> Result<bool, Fail> {
    for (after, want) in FOLLOWING {
        if next_group(groups, itsi, after)? != want {
            return Ok(false);
        }
    }
    Ok(true)
}

/// The groups of all attachments of a radio, as digits.
fn digits(groups: &Groups<Global>, itsi: Itsi) -> u32 {
    let mut digits = 0u32;
    for attachment in groups.attachments(itsi) {
        digits = digits
            .saturating_mul(10)
            .saturating_add(attachment.gtsi.ssi());
    }
    digits
}

fn are_followed(
    alloc: Global,
    registry: &Registry<Global>,
    groups: &mut Groups<Global>,
    one: Itsi,
    other: Itsi,
) -> Result<bool, Fail> {
    let (of_one, of_other) = (items(alloc, &OF_ONE), items(alloc, &OF_OTHER));
    let done = groups
        .change(registry, one, GroupMode::Amendment, &of_one)
        .is_ok()
        && groups
            .change(registry, other, GroupMode::Amendment, &of_other)
            .is_ok();
    let are_listed = digits(groups, one) == 134 && digits(groups, other) == 2;
    Ok(done && are_listed && follow(groups, one)? && next_group(groups, other, 0)? == 2)
}

fn tried(alloc: Global) -> Result<bool, Fail> {
    let (one, other) = (radio(2001)?, radio(2002)?);
    let registry = register(alloc)?;
    let mut groups = Groups::new(alloc);
    are_followed(alloc, &registry, &mut groups, one, other)
}

#[test]
fn attachments_of_a_radio_follow_one_another(rt: HostRuntime) -> Result<(), Fail> {
    assert!(rt; tried(rt.alloc())?);
    Ok(())
}
