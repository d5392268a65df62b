//! Heaps of rising size. Each growth of a replay is refused in turn, and all memory comes back. In a heap of enough room the
//! replay then gives all records.
ghost use Rattle.std.specs.Prelude.{◌≡◌, ◌≤◌, ◌+◌};

use crate::made;
use centre_core::Command;
use gated_journal::{Form, Journal, JournalError};
use linked_list_allocator::LocalHeap;
use sector_disk::{Disk, MemoryDisk};
use std::alloc::Global;
use std::test::Fail;

/// Adds three records of one location update.
fn are_added<D: Disk>(alloc: Global, disk: &mut D) -> bool {
    let (Ok(mut journal), Some(update)) = (
        Journal::start(alloc, 0, 9, Form::Plain, 0),
        made::update(alloc),
    ) else {
        return false;
    };
    add(&mut journal, disk, &update)
        && add(&mut journal, disk, &update)
        && add(&mut journal, disk, &update)
}

fn add<D: Disk>(journal: &mut Journal<Global>, disk: &mut D, command: &Command<Global>) -> bool
    requires end { journal.old.end ≡ 9 }
    requires count { journal.old.count ≤ 100 }
    ensures end { journal.new.end ≡ 9 }
    ensures count { journal.new.count ≤ journal.old.count + 1 }
{
    disk.sectors() >= 9 && journal.append(disk, &[command]).is_ok()
}

/// Whether three records are read; `None` where memory runs out.
fn are_read<'a, D: Disk>(heap: &'a LocalHeap, disk: &mut D) -> Option<bool> {
    if disk.sectors() < 9 {
        return Some(false);
    }
    match Journal::replay(heap, disk, made::place(0, 9, Form::Plain)) {
        Ok((_, records)) => Some(records.len() == 3),
        Err(fault) => (fault != JournalError::NoMemory).then_some(false),
    }
}

/// How many heaps were too small before three records were read; `None` where a heap didn't get all of its memory back.
fn refused<D: Disk>(alloc: Global, disk: &mut D) -> Result<Option<usize>, Fail> {
    for k in 0..200 {
        let heap = LocalHeap::new(alloc, 18_000 + 16 * k)?;
        let read = are_read(&heap, disk);
        if heap.used() > 0 || read == Some(false) {
            return Ok(None);
        }
        if read == Some(true) {
            return Ok(Some(k));
        }
    }
    Ok(None)
}

fn is_refused_in_turn(alloc: Global) -> Result<bool, Fail> {
    let mut disk = MemoryDisk::new(alloc, 9, 2_999)?;
    let added = are_added(alloc, &mut disk);
    Ok(added && refused(alloc, &mut disk)?.is_some_and(|heaps| heaps > 5))
}

#[test]
fn each_growth_is_refused_in_turn(rt: HostRuntime) -> Result<(), Fail> {
    assert!(rt; is_refused_in_turn(rt.alloc())?);
    Ok(())
}

#[test]
fn a_small_heap_starts_no_journal(rt: HostRuntime) -> Result<(), Fail> {
    let heap = LocalHeap::new(rt.alloc(), 1_000)?;
    assert!(rt; Journal::start(&heap, 0, 39, Form::Plain, 0).is_err());
    Ok(())
}
