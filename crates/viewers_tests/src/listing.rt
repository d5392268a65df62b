//! A listing of what was published.
ghost use Rattle.std.specs.Prelude.{◌≡◌};

use crate::publishing::{empty, publish_all};
use centre_core::Register;
use listings::{Listing, Table};
use probe_live_register::make_live;
use snapshots::{Centre, NewLog, Viewer};
use std::alloc::Global;
use std::marker::Brand;
use std::sync::Wait;
use std::test::*;

// The radios after two commands, after the text that was there.
const RADIOS: &str = "before\nradios 1\nradio 234-14-2 station 1 la 7 present\n";

// Whether each viewer lists the radios after a text.
fn are_listed<J: Centre>(viewers: Vec<Viewer<J>>, alloc: Global) -> bool {
    for viewer in viewers {
        let mut viewer = viewer;
        let mut out = Vec::new(alloc);
        if out.extend_from_slice(b"before\n").is_err() {
            return false;
        }
        let listed = viewer.list(&Listing::Entries(Table::Radios(None)), &mut out);
        if listed.is_err() || out.as_slice() != RADIOS.as_bytes() {
            return false;
        }
    }
    true
}

// Whether two viewers list the radios after two published commands.
fn listed<J: Centre, R: Wait>(
    rt: &R,
    alloc: Global,
    log: NewLog,
    register: Register<Global>,
) -> Option<bool>
    requires centre { (log.seen.book ≡ J.book) × (register ≡ J.base) }
{
    let (mut live, viewers) = make_live::<J, R>(rt, alloc, log, register, 2).ok()?;
    let done = publish_all(rt, alloc, &mut live, 2) && are_listed(viewers, alloc);
    live.close(rt);
    Some(done)
}

fn listed_once<R: Wait>(rt: &R, alloc: Global) -> Option<bool> {
    let register = empty(alloc, 2)?;
    listed::<Brand, R>(rt, alloc, NewLog::new(), register)
}

#[test]
fn viewers_list_what_was_published(rt: HostRuntime) {
    assert_eq!(rt; listed_once(&rt, rt.alloc()), Some(true));
}
