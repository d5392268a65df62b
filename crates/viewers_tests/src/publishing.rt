//! A publisher of the commands of `probe_live_register`, by number.
use centre_core::{Query, QueryAnswer, Register};
use probe_live_register::{LiveRegister, command, itsi, limits};
use snapshots::{Centre, Viewer, Visit};
use std::alloc::Global;
use std::sync::{Arc, Wait};

/// A register without commands, with room for the radios of this many commands.
pub fn empty(alloc: Global, commands: u32) -> Option<Register<Global>> {
    Register::new(alloc, limits(commands)?).ok()
}

/// Applies the command of this number and publishes it; whether both were done.
pub fn publish_one<J: Centre, R: Wait>(
    rt: &R,
    alloc: Global,
    live: &mut LiveRegister<J>,
    number: u32,
) -> bool {
    let Some(command) = command(alloc, number) else {
        return false;
    };
    let Ok(command) = Arc::new(alloc, command) else {
        return false;
    };
    live.apply(command) && live.publish(rt).is_ok()
}

/// Applies the commands from 1 to `commands`, and publishes each; whether all were published.
pub fn publish_all<J: Centre, R: Wait>(
    rt: &R,
    alloc: Global,
    live: &mut LiveRegister<J>,
    commands: u32,
) -> bool {
    for number in 1..=commands {
        if !publish_one(rt, alloc, live, number) {
            return false;
        }
    }
    true
}

// Whether the radio of this number is known.
fn is_known<J: Centre>(visit: &Visit<J>, alloc: Global, number: u32) -> Option<bool> {
    let query = Query::Whereabouts(itsi(number)?);
    let reported = visit.query(alloc, &query);
    match &reported {
        Ok(QueryAnswer::Whereabouts { itsi: _, radio }) => Some(radio.is_some()),
        _ => None,
    }
}

// Whether `count` commands were accepted.
fn is_total<J: Centre>(visit: &Visit<J>, alloc: Global, count: u32) -> bool {
    let reported = visit.query(alloc, &Query::Total);
    match &reported {
        Ok(QueryAnswer::Total(total)) => *total == u64::from(count),
        _ => false,
    }
}

/// Whether the copy is the register after the commands from 1 to `count`: the radio of the last one is known, and the radio
/// of the next one is not.
pub fn is_after<J: Centre>(visit: &Visit<J>, alloc: Global, count: u32) -> bool {
    let has_last = count < 2 || is_known(visit, alloc, count) == Some(true);
    let has_next = is_known(visit, alloc, count.saturating_add(1));
    has_last && has_next == Some(false) && is_total(visit, alloc, count)
}

// How many commands the list of the copy has, if the copy is the register after them.
fn count_of<J: Centre>(visit: &Visit<J>, alloc: Global) -> Option<u32> {
    let count = u32::try_from(visit.count()).ok()?;
    if is_after(visit, alloc, count) {
        Some(count)
    } else {
        None
    }
}

/// Enters the copy and leaves it: how many commands its list has, if the copy is the register after them.
pub fn visited<J: Centre>(viewer: Viewer<J>, alloc: Global) -> (Viewer<J>, Option<u32>) {
    match viewer.enter() {
        Ok(visit) => {
            let count = count_of(&visit, alloc);
            (visit.leave(), count)
        }
        Err(viewer) => (viewer, None),
    }
}
