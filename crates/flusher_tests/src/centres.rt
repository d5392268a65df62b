//! A centre over a store, and how many commands a store has accepted.
ghost use Rattle.std.specs.Prelude.{◌≡◌, false, IfSome};
ghost use Rattle.flusher.specs.Served.{IsSettled};
ghost use Rattle.flusher.specs.View.{view_of_flusher};

use flusher::{Flusher, Session, open_centre};
use probe_live_centre::WatchedDisk;
use recovery::Store;
use sector_disk::Disk;
use snapshots::{Centre, NewLog};
use std::alloc::Global;
use std::sync::Wait;

/// A centre over this store, with this many sessions.
pub fn centre<J: Centre, R: Wait>(
    rt: &R,
    alloc: Global,
    log: NewLog,
    store: Store<Global, WatchedDisk>,
    sessions: usize,
) -> Option<(Flusher<J, WatchedDisk>, Vec<Session<J>>)>
    requires sound { store.broken ≡ false }
    requires centre { (log.seen.book ≡ J.book) × (store.register ≡ J.base) }
    ensures settled { IfSome result (λ r. IsSettled J.base (view_of_flusher r.0)) }
{
    match open_centre::<J, WatchedDisk, R>(rt, alloc, log, store, sessions) {
        Ok(both) => Some(both),
        Err(fault) => {
            drop(fault);
            None
        }
    }
}

/// How many commands its register has accepted. `None` if the store is broken.
pub fn count<D: Disk>(store: &Store<Global, D>) -> Option<u64> {
    match store.register() {
        Some(register) => Some(register.count()),
        None => None,
    }
}
