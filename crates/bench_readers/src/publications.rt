//! Publications whose allocations are refused from outside. A refused publication changes nothing that is published, and
//! what is pending stays pending.
ghost use Rattle.std.specs.Prelude.{◌≡◌, ◌<◌, ◌≤◌};

use crate::filling::{attach, empty};
use centre_core::{Query, QueryAnswer, Register};
use probe_live_register::{LiveRegister, make_live};
use snapshots::{Centre, NewLog, Viewer};
use std::alloc::Global;
use std::marker::Brand;
use std::sync::Wait;

// How many commands are pending at each publication.
const PENDING: u32 = 3;

// How many publications there are.
const PUBLICATIONS: u32 = 4;

// How many calls were refused, and how many of these left something changed.
#[derive(Clone, Copy, Drop)]
struct Seen {
    appends: u32,
    publications: u32,
    wrong: u32,
}

// Reads once: the length of the list, if the register has accepted exactly that many commands.
fn read<J: Centre>(viewer: &mut Viewer<J>, alloc: Global) -> Option<u64> {
    match viewer.read(alloc, &Query::Total) {
        Ok((QueryAnswer::Total(total), count)) if total == count => Some(count),
        _ => None,
    }
}

// Applies and appends the command of this number; whether it did.
fn is_applied<J: Centre>(alloc: Global, live: &mut LiveRegister<J>, number: u32) -> bool {
    match attach(alloc, number) {
        Some(command) => live.apply(command),
        None => false,
    }
}

// Appends the next `PENDING` commands, and tries again where memory runs out; whether all were appended.
fn is_appended<J: Centre>(
    alloc: Global,
    live: &mut LiveRegister<J>,
    first: u32,
    seen: &mut Seen,
) -> bool {
    let mut number = first;
    for _ in 0..4 * PENDING {
        if number >= first.saturating_add(PENDING) {
            return true;
        }
        if is_applied(alloc, live, number) {
            number = number.saturating_add(1);
        } else {
            seen.appends = seen.appends.saturating_add(1);
        }
    }
    false
}

// Tries to publish, three times at most; whether it did. After a refused try the viewer must read what it read before, and
// something must still be pending.
fn publish<J: Centre, R: Wait>(
    rt: &R,
    alloc: Global,
    live: &mut LiveRegister<J>,
    viewer: &mut Viewer<J>,
    seen: &mut Seen,
) -> bool {
    for _ in 0..3u32 {
        let before = read(viewer, alloc);
        if live.publish(rt).is_ok() {
            return true;
        }
        seen.publications = seen.publications.saturating_add(1);
        if read(viewer, alloc) != before || live.publisher().is_caught_up() {
            seen.wrong = seen.wrong.saturating_add(1);
        }
    }
    false
}

// Appends and publishes again and again. After each publication the viewer must read all that was appended.
fn publish_all<J: Centre, R: Wait>(
    rt: &R,
    alloc: Global,
    live: &mut LiveRegister<J>,
    viewer: &mut Viewer<J>,
    seen: &mut Seen,
) -> Option<()> {
    let mut count: u32 = 0;
    for _ in 0..PUBLICATIONS {
        if !is_appended(alloc, live, count.saturating_add(1), seen) {
            return None;
        }
        count = count.saturating_add(PENDING);
        if !publish(rt, alloc, live, viewer, seen)
            || read(viewer, alloc) != Some(u64::from(count))
        {
            return None;
        }
    }
    Some(())
}

fn done<J: Centre, R: Wait>(
    rt: &R,
    alloc: Global,
    log: NewLog,
    register: Register<Global>,
    seen: &mut Seen,
) -> Option<()>
    requires centre { (log.seen.book ≡ J.book) × (register ≡ J.base) }
{
    let (mut live, mut viewers) = make_live::<J, R>(rt, alloc, log, register, 2).ok()?;
    let done = match viewers.pop() {
        Some(mut viewer) => publish_all(rt, alloc, &mut live, &mut viewer, seen),
        None => None,
    };
    drop(viewers);
    live.close(rt);
    done
}

fn done_once<R: Wait>(rt: &R, alloc: Global, seen: &mut Seen) -> Option<()> {
    let register = empty(alloc)?;
    done::<Brand, R>(rt, alloc, NewLog::new(), register, seen)
}

/// Prints how many calls were refused, how many were wrong, and whether all was published in the end; the exit status.
pub fn report<R: Wait + Print>(rt: &R, alloc: Global) -> u8 {
    let mut seen = Seen {
        appends: 0,
        publications: 0,
        wrong: 0,
    };
    let done = done_once(rt, alloc, &mut seen);
    let word = if done.is_some() { "all" } else { "not all" };
    let (appends, publications, wrong) = (seen.appends, seen.publications, seen.wrong);
    match println!(rt;
        "{appends} appends refused, {publications} publications refused, {wrong} wrong, {word} published"
    ) {
        Ok(()) => 0,
        Err(_) => 5,
    }
}
