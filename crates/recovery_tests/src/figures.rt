//! The figures of a store, by docs/formats/disk.md.

use crate::commits::{LAST_EPOCH, headed};
use crate::layouts::old;
use crate::made;
use crate::ongoing::commit_from;
use checkpoint::Side;
use recovery::{Figures, Store};
use sector_disk::{Disk, Failing, FailingDisk};
use std::alloc::Global;

/// Those of the worked disk, made ready: side A has its half from 589 to 627.
const NEW: Figures = Figures {
    layout: 2,
    side: Side::A,
    epoch: 1,
    epochs_left: 4_611_686_018_427_387_903,
    gate: 589,
    free: 39,
    count: 0,
};

/// Those after a checkpoint: side B has its half from 628 to 666.
const MOVED: Figures = Figures {
    layout: 2,
    side: Side::B,
    epoch: 2,
    epochs_left: 4_611_686_018_427_387_902,
    gate: 628,
    free: 39,
    count: 0,
};

/// What is done before the figures are read: a rule and expiries, so many in all, are committed one by one; then a checkpoint is
/// made at once, or not.
#[derive(Clone, Copy)]
struct Done {
    last: u32,
    at_once: bool,
}

/// The figures of a store once this is done.
fn after<D: Disk>(alloc: Global, store: &mut Store<Global, D>, done: Done) -> Option<Figures> {
    let committed = commit_from(alloc, store, 1, done.last) == done.last;
    let made = !done.at_once || store.checkpoint() == Ok(());
    if committed && made {
        store.figures()
    } else {
        None
    }
}

/// The same of what a disk opens to.
fn opened_and<D: Disk + Drop>(alloc: Global, disk: D, done: Done) -> Option<Figures> {
    match Store::open(alloc, disk) {
        Ok(mut store) => {
            let figures = after(alloc, &mut store, done);
            drop(store.into_disk());
            figures
        }
        Err((_, disk)) => {
            drop(disk);
            None
        }
    }
}

/// The same of the worked disk.
fn with(alloc: Global, last: u32, at_once: bool) -> Option<Figures> {
    opened_and(alloc, made::formatted(alloc)?, Done { last, at_once })
}

#[test]
fn a_new_disk_has_a_free_half(rt: HostRuntime) {
    assert!(rt; with(rt.alloc(), 0, false) == Some(NEW));
}

/// Those of side A with this gate, so many free sectors, and so many commands.
fn on_a(gate: u64, free: u64, count: u64) -> Option<Figures> {
    Some(Figures {
        gate,
        free,
        count,
        ..NEW
    })
}

/// The same of side B.
fn on_b(gate: u64, free: u64, count: u64) -> Option<Figures> {
    Some(Figures {
        gate,
        free,
        count,
        ..MOVED
    })
}

#[test]
fn a_record_takes_its_gate_and_its_data(rt: HostRuntime) {
    assert!(rt; with(rt.alloc(), 1, false) == on_a(591, 37, 1));
}

/// It begins with the tenth command, and ends with the eleventh, whose record is in both halves.
#[test]
fn a_checkpoint_under_way_changes_none(rt: HostRuntime) {
    assert!(rt; with(rt.alloc(), 10, false) == on_a(609, 19, 10));
    assert!(rt; with(rt.alloc(), 11, false) == on_b(630, 37, 11));
}

#[test]
fn a_checkpoint_at_once_moves_them(rt: HostRuntime) {
    assert!(rt; with(rt.alloc(), 3, true) == on_b(628, 39, 3));
}

/// Nothing is done.
const NOTHING: Done = Done {
    last: 0,
    at_once: false,
};

/// A disk of layout 1 with a rule.
fn is_of_layout_1(alloc: Global) -> Option<bool> {
    let one = Figures {
        layout: 1,
        gate: 591,
        free: 37,
        count: 1,
        ..NEW
    };
    Some(opened_and(alloc, old(alloc)?, NOTHING) == Some(one))
}

#[test]
fn a_disk_of_layout_1_has_that_layout(rt: HostRuntime) {
    assert!(rt; is_of_layout_1(rt.alloc()) == Some(true));
}

fn is_none_left(alloc: Global) -> Option<bool> {
    let last = Figures {
        epoch: 4_611_686_018_427_387_904,
        epochs_left: 0,
        ..NEW
    };
    Some(opened_and(alloc, headed(alloc, &LAST_EPOCH)?, NOTHING) == Some(last))
}

#[test]
fn none_is_left_after_the_last_epoch(rt: HostRuntime) {
    assert!(rt; is_none_left(rt.alloc()) == Some(true));
}

/// Whether a store has its figures, and none after a checkpoint that fails.
fn loses_them<D: Disk>(store: &mut Store<Global, D>) -> bool {
    let before = store.figures() == Some(NEW);
    let failed = store.checkpoint().is_err();
    before && failed && store.figures().is_none()
}

/// The first call of the checkpoint fails. The opening makes seven calls.
fn has_none_when_broken(alloc: Global) -> Option<bool> {
    let disk = FailingDisk::new(made::formatted(alloc)?, 8, Failing::Always);
    match Store::open(alloc, disk) {
        Ok(mut store) => {
            let lost = loses_them(&mut store);
            drop(store.into_disk());
            Some(lost)
        }
        Err((_, disk)) => {
            drop(disk);
            None
        }
    }
}

#[test]
fn a_broken_store_has_none(rt: HostRuntime) {
    assert!(rt; has_none_when_broken(rt.alloc()) == Some(true));
}
