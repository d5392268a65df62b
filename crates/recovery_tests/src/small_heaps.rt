//! Commits in heaps of rising size, of the outcomes or of the register: each growth is refused in turn.
ghost use Rattle.std.specs.Prelude.{◌≤◌, length};

use crate::made::{self, ATTACH, Given, RECEIVER, SECOND_ATTACH, SENDER};
use crate::runs::{accepted, count, make_all, opens_to};
use centre_core::{Command, Query, QueryAnswer, Register};
use identity::Itsi;
use linked_list_allocator::LocalHeap;
use recovery::{Store, StoreFault};
use sector_disk::{Disk, MemoryDisk};
use std::alloc::{Allocator, Global};

/// How many of the commands were accepted, with the outcomes under this allocator; `None` if the register
/// is not the one after just these.
fn accepted_in<A: Allocator + Copy, C: Allocator + Copy, D: Disk>(
    alloc: C,
    store: &mut Store<A, D>,
    commands: &[&Command<Global>],
) -> Option<u64>
    requires { length commands.now ≤ 64 }
{
    let accepted = match store.commit(alloc, commands) {
        Ok(outcomes) => accepted(&outcomes)?,
        Err(StoreFault::NoMemory) => 0,
        Err(_) => return None,
    };
    (count(store) == Some(accepted)).then_some(accepted)
}

/// The same of 64 commands at most.
fn all_in<A: Allocator + Copy, C: Allocator + Copy, D: Disk>(
    alloc: Global,
    outcomes: C,
    store: &mut Store<A, D>,
    commands: &[Command<Global>],
) -> Option<u64> {
    let mut batch = Vec::new(alloc);
    for command in commands {
        if batch.push(command).is_err() {
            return None;
        }
    }
    if batch.len() > 64 {
        return None;
    }
    accepted_in(outcomes, store, &batch)
}

/// Makes these commands, and commits them at once with outcomes under this allocator; returns as `accepted_in` does.
fn given_in<A: Allocator + Copy, C: Allocator + Copy, D: Disk>(
    alloc: Global,
    outcomes: C,
    store: &mut Store<A, D>,
    all: &[Given],
) -> Option<u64> {
    let mut commands = Vec::new(alloc);
    if !make_all(alloc, all, &mut commands) {
        return None;
    }
    all_in(alloc, outcomes, store, &commands)
}

/// A rule, the attach of a radio, and its attachment to the group, which takes memory of the heap of outcomes.
const THREE: [Given; 3] = [Given::Rule, ATTACH, Given::AttachToGroup(3, SENDER)];

/// The same on a disk that is opened; and the disk.
fn run_three<'a, D: Disk>(alloc: Global, heap: &'a LocalHeap, disk: D) -> (Option<u64>, D) {
    match Store::open(alloc, disk) {
        Ok(mut store) => {
            let accepted = given_in(alloc, heap, &mut store, &THREE);
            (accepted, store.into_disk())
        }
        Err((_, disk)) => (None, disk),
    }
}

/// The same with outcomes in a heap of this size; `None` too where the disk opens to other commands, or not all memory comes
/// back.
fn in_heap(alloc: Global, size: usize) -> Option<u64> {
    let heap = LocalHeap::new(alloc, size).ok()?;
    let (accepted, disk) = run_three(alloc, &heap, made::formatted(alloc)?);
    let (count, disk) = opens_to(alloc, disk);
    drop(disk);
    if heap.used() == 0 && count == accepted {
        accepted
    } else {
        None
    }
}

/// Whether heaps of rising size let none, two and then all three of the commands be answered.
fn are_refused_in_turn(alloc: Global) -> bool {
    let mut none = false;
    let mut two = false;
    for k in 0..100 {
        match in_heap(alloc, 16 * k) {
            Some(0) => none = true,
            Some(2) => two = true,
            Some(3) => return none && two,
            _ => return false,
        }
    }
    false
}

#[test]
fn each_growth_for_outcomes_is_refused_in_turn(rt: HostRuntime) {
    assert!(rt; are_refused_in_turn(rt.alloc()));
}

// ---- the register's own

/// How many things wait for a radio.
fn waiting<A: Allocator + Clone>(alloc: Global, register: &Register<A>, itsi: Itsi) -> usize {
    match register.query(alloc, &Query::Waiting(itsi)) {
        Ok(QueryAnswer::Waiting { items, .. }) => items.as_slice().len(),
        _ => 99,
    }
}

fn is_there<A: Allocator + Clone>(alloc: Global, register: &Register<A>, itsi: Itsi) -> bool {
    matches!(
        register.query(alloc, &Query::Whereabouts(itsi)),
        Ok(QueryAnswer::Whereabouts { radio: Some(_), .. })
    )
}

fn is_ruled<A: Allocator + Clone>(alloc: Global, register: &Register<A>, itsi: Itsi) -> bool {
    matches!(
        register.query(alloc, &Query::Look(itsi)),
        Ok(QueryAnswer::Look { rule: Some(_), .. })
    )
}

/// Whether queries answer as after so many of the commands: a rule, the attaches of two radios, and a message to the
/// second.
fn is_after<A: Allocator + Clone>(alloc: Global, register: &Register<A>, commands: u64) -> bool {
    let (Some(sender), Some(receiver)) = (Itsi::from_number(SENDER), Itsi::from_number(RECEIVER))
    else {
        return false;
    };
    register.count() == commands
        && is_ruled(alloc, register, sender) == (commands >= 1)
        && is_there(alloc, register, sender) == (commands >= 2)
        && is_there(alloc, register, receiver) == (commands >= 3)
        && waiting(alloc, register, receiver) == usize::from(commands >= 4)
}

/// The four commands.
const FOUR: [Given; 4] = [Given::Rule, ATTACH, SECOND_ATTACH, Given::Message(4)];

/// Commits the four commands at once. Returns how many were accepted; `None` if the others did not run out of
/// memory, or queries answer as after other commands.
fn committed<A: Allocator + Copy, D: Disk>(alloc: Global, store: &mut Store<A, D>) -> Option<u64> {
    let accepted = given_in(alloc, alloc, store, &FOUR)?;
    let register = store.register()?;
    is_after(alloc, register, accepted).then_some(accepted)
}

/// The same on a disk that is opened with its register in this heap; `None` too if the disk opens to other commands
/// afterwards. Without memory to open it, none were accepted.
fn committed_in<'a>(alloc: Global, heap: &'a LocalHeap, disk: MemoryDisk<Global>) -> Option<u64> {
    match Store::open(heap, disk) {
        Ok(mut store) => {
            let accepted = committed(alloc, &mut store);
            let (count, disk) = opens_to(alloc, store.into_disk());
            drop(disk);
            if count == accepted { accepted } else { None }
        }
        Err((fault, disk)) => {
            drop(disk);
            (fault == StoreFault::NoMemory).then_some(0)
        }
    }
}

/// The same with a heap of this size; `None` too if not all of its memory comes back.
fn register_in(alloc: Global, size: usize) -> Option<u64> {
    let disk = made::formatted(alloc)?;
    let heap = LocalHeap::new(alloc, size).ok()?;
    let accepted = committed_in(alloc, &heap, disk);
    if heap.used() == 0 { accepted } else { None }
}

/// How often so many commands were accepted, in heaps of rising size up to the first that lets all four be; nothing
/// where one of them answered something else. A journal has a buffer of 18,944 bytes.
fn register_sizes(alloc: Global) -> Option<[u64; 4]> {
    let mut often = [0; 4];
    for k in 0..400 {
        match register_in(alloc, 18_400 + 16 * k) {
            Some(4) => return Some(often),
            Some(accepted) if accepted < 4 => {
                let at = accepted as usize;
                often[at] = often[at].saturating_add(1);
            }
            _ => return None,
        }
    }
    None
}

/// The second attach takes no memory: with the first radio came room for more.
#[test]
fn each_growth_of_the_register_is_refused_in_turn(rt: HostRuntime) {
    let often = register_sizes(rt.alloc());
    assert!(rt;
        often.is_some_and(|often| often[0] > 0 && often[1] > 0 && often[3] > 0),
        "{often:?}"
    );
}
