//! The groups beside the plain list.

use crate::fixture::{Ask, group, items, radio, register};
use crate::plain::PlainGroups;
use group_attach::{Attachment, Groups};
use identity::{Gtsi, Itsi};
use mm_pdus::{GroupItems, GroupMode, GroupUp, LocationUpdateType};
use registration::Registry;
use std::alloc::Global;
use std::test::Fail;

// What each step of the script does.
#[derive(Clone, Copy)]
enum Step {
    Change(GroupMode, [Ask; 3]),
    Update(LocationUpdateType),
}

const GROUPS: [u16; 5] = [1, 2, 3, 4, 9];

fn ask(number: u64) -> Ask {
    let ssi = GROUPS[(number >> 2) as usize % 5];
    if number % 4 == 0 {
        Ask::Leave(ssi)
    } else {
        Ask::Attach(ssi)
    }
}

// The step that is made of a number.
fn made(number: u64) -> Step {
    let asks = [ask(number >> 3), ask(number >> 8), ask(number >> 13)];
    match number % 8 {
        0..=1 => Step::Update(LocationUpdateType::from_number(((number >> 20) % 8) as u8)),
        2 => Step::Change(GroupMode::DetachAllFirst, asks),
        _ => Step::Change(GroupMode::Amendment, asks),
    }
}

// The groups and the list.
#[derive(Drop)]
struct Both {
    groups: Groups<Global>,
    plain: PlainGroups,
}

// Whether neither refuses what is asked.
fn is_changed(
    registry: &Registry<Global>,
    both: &mut Both,
    itsi: Itsi,
    mode: GroupMode,
    items: &GroupItems<GroupUp, Global>,
) -> bool {
    both.groups.change(registry, itsi, mode, items).is_ok()
        && both
            .plain
            .change(registry, itsi, mode, items.as_slice())
            .is_ok()
}

// Makes one step in both, and returns whether neither refuses it.
fn is_done(
    alloc: Global,
    registry: &Registry<Global>,
    both: &mut Both,
    itsi: Itsi,
    step: Step,
) -> bool {
    match step {
        Step::Change(mode, asks) => is_changed(registry, both, itsi, mode, &items(alloc, &asks)),
        Step::Update(update) => {
            both.groups.on_update(itsi, update);
            both.plain.update(itsi, update);
            true
        }
    }
}

// Whether these are the attachments in the list of a radio.
fn are_of_radio(found: &[Attachment], list: &[Attachment], itsi: Itsi) -> bool {
    let mut count = 0usize;
    for attachment in list {
        if attachment.itsi == itsi {
            if found.get(count) != Some(attachment) {
                return false;
            }
            count = count.saturating_add(1);
        }
    }
    count == found.len()
}

// Whether these are the attachments in the list to a group.
fn are_of_group(found: &[Attachment], list: &[Attachment], gtsi: Gtsi) -> bool {
    let mut count = 0usize;
    for attachment in list {
        if attachment.gtsi == gtsi {
            if found.get(count) != Some(attachment) {
                return false;
            }
            count = count.saturating_add(1);
        }
    }
    count == found.len()
}

// Whether both have the same attachments of each radio and of each group.
fn are_alike(alloc: Global, groups: &Groups<Global>, list: &[Attachment]) -> Result<bool, Fail> {
    for ssi in RADIOS {
        let itsi = radio(ssi)?;
        if !are_of_radio(&groups.groups_of(alloc, itsi)?, list, itsi) {
            return Ok(false);
        }
    }
    for ssi in GROUPS {
        let gtsi = group(ssi)?;
        if !are_of_group(&groups.members_of(alloc, gtsi)?, list, gtsi) {
            return Ok(false);
        }
    }
    Ok(true)
}

const RADIOS: [u16; 2] = [2001, 2002];

/// Makes so many steps, and returns the most attachments there were. After each step both have the same attachments.
fn most_attachments(
    alloc: Global,
    registry: &Registry<Global>,
    both: &mut Both,
    steps: u32,
) -> Result<usize, Fail> {
    let (mut number, mut most) = (1u64, 0);
    for _ in 0..steps {
        number = number
            .wrapping_mul(6_364_136_223_846_793_005)
            .wrapping_add(1_442_695_040_888_963_407);
        let itsi = radio(RADIOS[(number >> 60) as usize % 2])?;
        let done = is_done(alloc, registry, both, itsi, made(number >> 33));
        if !done || !are_alike(alloc, &both.groups, both.plain.as_slice())? {
            return Err(Fail::from("groups and list differ"));
        }
        most = most.max(both.plain.as_slice().len());
    }
    Ok(most)
}

fn compared(alloc: Global) -> Result<usize, Fail> {
    let registry = register(alloc)?;
    let mut both = Both {
        groups: Groups::new(alloc),
        plain: PlainGroups::new(alloc),
    };
    most_attachments(alloc, &registry, &mut both, 500)
}

#[test]
fn both_indexes_and_the_list_answer_alike(rt: HostRuntime) -> Result<(), Fail> {
    assert!(rt; compared(rt.alloc())? > 5);
    Ok(())
}
