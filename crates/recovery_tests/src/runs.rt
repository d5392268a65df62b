//! Commands committed to a disk, and what a stop leaves of it.
ghost use Rattle.std.specs.Prelude.{◌≤◌, length};

use crate::made::{Given, command};
use centre_core::{Command, Reply};
use desk::Desk;
use recovery::{Outcome, Store, StoreFault};
use sector_disk::{Disk, MemoryDisk};
use std::alloc::{Allocator, Global};

/// How many commands the register has accepted; `None` if the store is broken.
pub fn count<A: Allocator + Copy, D: Disk>(store: &Store<A, D>) -> Option<u64> {
    match store.register() {
        Some(register) => Some(register.count()),
        None => None,
    }
}

/// Whether a command was accepted with this number.
pub fn is_accepted<C: Allocator>(outcome: &Outcome<C>, want: u64) -> bool {
    match outcome {
        Outcome::Replied(Reply::Accepted { number, .. }) => *number == want,
        _ => false,
    }
}

/// Whether the commands were accepted with numbers from this one on.
pub fn are_accepted<C: Allocator>(outcomes: &[Outcome<C>], first: u64) -> bool {
    for k in 0..outcomes.len() {
        if !is_accepted(&outcomes[k], first.saturating_add(k as u64)) {
            return false;
        }
    }
    true
}

/// How many commands were accepted, with numbers from 1 on, where all after them ran out of memory; `None` for other outcomes.
pub fn accepted<C: Allocator>(outcomes: &[Outcome<C>]) -> Option<u64> {
    let mut accepted: u64 = 0;
    let mut wants = false;
    for outcome in outcomes {
        if matches!(outcome, Outcome::NoMemory) {
            wants = true;
        } else if !wants && is_accepted(outcome, accepted.saturating_add(1)) {
            accepted = accepted.saturating_add(1);
        } else {
            return None;
        }
    }
    Some(accepted)
}

/// Commits one batch; returns whether all of it was accepted, with the next numbers.
pub fn commit<D: Disk>(
    alloc: Global,
    store: &mut Store<Global, D>,
    commands: &[&Command<Global>],
) -> Result<bool, StoreFault>
    requires { length commands.now ≤ 64 }
{
    let before = count(store).unwrap_or(0);
    match store.commit(alloc, commands) {
        Ok(outcomes) => {
            let next = before.saturating_add(1);
            Ok(outcomes.len() == commands.len() && are_accepted(&outcomes, next))
        }
        Err(fault) => Err(fault),
    }
}

/// The same of one command; not accepted either if there is no memory for it.
pub fn commit_one<D: Disk>(
    alloc: Global,
    store: &mut Store<Global, D>,
    given: Given,
) -> Result<bool, StoreFault> {
    match command(alloc, given) {
        Some(command) => commit(alloc, store, &[&command]),
        None => Ok(false),
    }
}

/// Commits commands one by one; returns how many commits were answered, up to the first fault.
pub fn commit_each<D: Disk>(alloc: Global, store: &mut Store<Global, D>, all: &[Given]) -> u64 {
    let mut answered: u64 = 0;
    for given in all {
        if commit_one(alloc, store, *given) != Ok(true) {
            return answered;
        }
        answered = answered.saturating_add(1);
    }
    answered
}

/// Makes these commands; whether there was memory for them.
pub fn make_all(alloc: Global, all: &[Given], commands: &mut Vec<Command<Global>>) -> bool {
    for given in all {
        let Some(command) = command(alloc, *given) else {
            return false;
        };
        if commands.push(command).is_err() {
            return false;
        }
    }
    true
}

/// Commits 64 commands at most at once; returns whether all of them were accepted, with the next numbers.
pub fn commit_all<D: Disk>(
    alloc: Global,
    store: &mut Store<Global, D>,
    commands: &[Command<Global>],
) -> Result<bool, StoreFault> {
    let mut batch = Vec::new(alloc);
    for command in commands {
        if batch.push(command).is_err() {
            return Ok(false);
        }
    }
    if batch.len() > 64 {
        return Ok(false);
    }
    commit(alloc, store, &batch)
}

/// Makes these commands, and commits them at once.
pub fn commit_batch<D: Disk>(
    alloc: Global,
    store: &mut Store<Global, D>,
    all: &[Given],
) -> Result<bool, StoreFault> {
    let mut commands = Vec::new(alloc);
    if !make_all(alloc, all, &mut commands) {
        return Ok(false);
    }
    commit_all(alloc, store, &commands)
}

/// Opens a disk, and commits commands one by one; returns how many commits were answered, and the disk.
pub fn run<D: Disk>(alloc: Global, disk: D, all: &[Given]) -> (u64, D) {
    match Store::open(alloc, disk) {
        Ok(mut store) => {
            let answered = commit_each(alloc, &mut store, all);
            (answered, store.into_disk())
        }
        Err((_, disk)) => (0, disk),
    }
}

/// Opens a disk, and has a desk answer a command; returns whether it was accepted with this number, and the disk.
pub fn serve<D: Disk>(alloc: Global, disk: D, given: Given, want: u64) -> (bool, D) {
    match Store::open(alloc, disk) {
        Ok(mut store) => {
            let is_kept = is_served(alloc, &mut store, given, want);
            (is_kept, store.into_disk())
        }
        Err((_, disk)) => (false, disk),
    }
}

/// Whether a desk accepts a command with this number.
pub fn is_served<T: Desk<Global>>(alloc: Global, desk: &mut T, given: Given, want: u64) -> bool {
    let Some(command) = command(alloc, given) else {
        return false;
    };
    match desk.apply(alloc, &command) {
        Ok(Reply::Accepted { number, .. }) => number == want,
        _ => false,
    }
}

/// Opens a disk, and commits commands at once; returns whether it was answered.
pub fn run_as_one<D: Disk>(alloc: Global, disk: D, all: &[Given]) -> (bool, D) {
    match Store::open(alloc, disk) {
        Ok(mut store) => {
            let answered = commit_batch(alloc, &mut store, all) == Ok(true);
            (answered, store.into_disk())
        }
        Err((_, disk)) => (false, disk),
    }
}

/// How many commands the register of a disk has accepted; `None` if it does not open.
pub fn opens_to<D: Disk>(alloc: Global, disk: D) -> (Option<u64>, D) {
    match Store::open(alloc, disk) {
        Ok(store) => (count(&store), store.into_disk()),
        Err((_, disk)) => (None, disk),
    }
}

/// Whether sectors begin with these bytes.
pub fn begin<D: Disk>(disk: &mut D, sectors: &[(u64, &[u8])]) -> bool {
    for (at, prefix) in sectors {
        let mut bytes = [7; 512];
        if disk.read(*at, &mut bytes).is_err() || !bytes.starts_with(prefix) {
            return false;
        }
    }
    true
}

/// Whether just this sector is pending.
pub fn is_pending(alloc: Global, disk: &MemoryDisk<Global>, at: u64) -> Option<bool> {
    let pending = disk.pending(alloc).ok()?;
    Some(pending.as_slice() == [at].as_slice())
}

/// What a stop puts into each pending sector: these bytes.
fn fill(
    alloc: Global,
    disk: &MemoryDisk<Global>,
    bytes: [u8; 512],
) -> Option<Vec<(u64, [u8; 512])>> {
    let mut fill = Vec::new(alloc);
    for at in &disk.pending(alloc).ok()? {
        fill.push((*at, bytes)).ok()?;
    }
    Some(fill)
}

/// What a stop leaves of a disk that puts these bytes into each pending sector.
pub fn stop(
    alloc: Global,
    disk: MemoryDisk<Global>,
    bytes: [u8; 512],
) -> Option<MemoryDisk<Global>> {
    let fill = fill(alloc, &disk, bytes)?;
    Some(disk.crash(&fill))
}
