//! Listings that a session reads.
ghost use Rattle.std.specs.Prelude.{◌≡◌, false};

use crate::centres::centre;
use flusher::Session;
use listings::{Listing, Table};
use probe_live_centre::{WatchedDisk, end_all, opened, with_rule, worked_disk};
use recovery::Store;
use snapshots::{Centre, NewLog};
use std::alloc::Global;
use std::marker::Brand;
use std::sync::Wait;
use std::test::*;

// The rules of the register, and then the last command of station 1.
const LISTED: &str = "rules 1\nrule 234-14-0/24 1 99 1 3600\nlast 1 1 1 -\n";

// Whether a session lists both.
fn is_listed<J: Centre>(alloc: Global, session: &mut Session<J>) -> bool {
    let mut out = Vec::new(alloc);
    let station = session.station();
    let rules = session.list(&Listing::Entries(Table::Rules), &mut out);
    let last = session.list(&Listing::Last(station), &mut out);
    rules.is_ok() && last.is_ok() && out.as_slice() == LISTED.as_bytes()
}

fn listed<J: Centre, R: Wait>(
    rt: &R,
    alloc: Global,
    log: NewLog,
    store: Store<Global, WatchedDisk>,
) -> Option<bool>
    requires sound { store.broken ≡ false }
    requires centre { (log.seen.book ≡ J.book) × (store.register ≡ J.base) }
{
    let Some((flusher, mut sessions)) = centre::<J, R>(rt, alloc, log, store, 1) else {
        return None;
    };
    let listed = match sessions.get_mut(0) {
        Some(session) => is_listed(alloc, session),
        None => false,
    };
    drop(end_all(rt, flusher, sessions));
    Some(listed)
}

fn listed_once<R: Wait>(rt: &R, alloc: Global) -> Option<bool> {
    let disk = with_rule(alloc, worked_disk(alloc, 4, 39, 400)?)?;
    let store = opened(alloc, disk)?;
    listed::<Brand, R>(rt, alloc, NewLog::new(), store)
}

#[test]
fn a_session_lists_the_register(rt: HostRuntime) {
    assert_eq!(rt; listed_once(&rt, rt.alloc()), Some(true));
}
