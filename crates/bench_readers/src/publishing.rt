//! Times publications of 64 attaches, and the same attaches applied once to a plain register.
ghost use Rattle.std.specs.Prelude.{◌≡◌, ◌<◌, ◌≤◌};

use crate::filling::{RADIOS, attach, empty, is_filled};
use base::TryCopy;
use centre_core::{Command, Register};
use probe_live_register::{LiveRegister, make_live};
use snapshots::{Centre, NewLog};
use std::alloc::Global;
use std::marker::Brand;
use std::rt::Clock;
use std::sync::{Arc, Wait};
use std::time::{Duration, Instant};

// How many commands each publication has.
const BATCH: u32 = 64;

// How many publications there are.
const ROUNDS: u32 = 2_000;

type Shared = Arc<Command<Global>, Global>;

// A batch of commands, numbered from `first`.
fn batch(alloc: Global, first: u32) -> Option<Vec<Shared>> {
    let mut commands = Vec::with_capacity(alloc, BATCH as usize).ok()?;
    for k in 0..BATCH {
        commands.push(attach(alloc, first.checked_add(k)?)?).ok()?;
    }
    Some(commands)
}

// How long applying the commands takes.
fn applied<R: Clock>(
    rt: &R,
    alloc: Global,
    register: &mut Register<Global>,
    commands: &[Shared],
) -> Option<Duration> {
    let start = Instant::now(rt).ok()?;
    for command in commands {
        if register.apply(alloc, command).is_err() {
            return None;
        }
    }
    start.elapsed(rt).ok()
}

// How long publishing the commands takes.
fn published<J: Centre, R: Wait + Clock>(
    rt: &R,
    live: &mut LiveRegister<J>,
    commands: &[Shared],
) -> Option<Duration> {
    for command in commands {
        if !live.apply(Arc::try_clone(command).ok()?) {
            return None;
        }
    }
    let start = Instant::now(rt).ok()?;
    if live.publish(rt).is_err() {
        return None;
    }
    start.elapsed(rt).ok()
}

// Applies and publishes batch after batch, and prints both times of each.
fn is_timed<J: Centre, R: Wait + Clock + Print>(
    rt: &R,
    alloc: Global,
    live: &mut LiveRegister<J>,
    register: &mut Register<Global>,
) -> Option<()> {
    let mut first = RADIOS + 1;
    for _ in 0..ROUNDS {
        let commands = batch(alloc, first)?;
        let plain = applied(rt, alloc, register, commands.as_slice())?.as_nanos();
        let both = published(rt, live, commands.as_slice())?.as_nanos();
        println!(rt; "published {BATCH} {both} {plain}").ok()?;
        first = first.checked_add(BATCH)?;
    }
    Some(())
}

fn timed<J: Centre, R: Wait + Clock + Print>(
    rt: &R,
    alloc: Global,
    log: NewLog,
    register: Register<Global>,
) -> Option<()>
    requires centre { (log.seen.book ≡ J.book) × (register ≡ J.base) }
{
    let (mut live, viewers) = make_live::<J, R>(rt, alloc, log, register, 1).ok()?;
    drop(viewers);
    let timed = timed_over(rt, alloc, &mut live);
    live.close(rt);
    timed
}

fn timed_over<J: Centre, R: Wait + Clock + Print>(
    rt: &R,
    alloc: Global,
    live: &mut LiveRegister<J>,
) -> Option<()> {
    if !is_filled(rt, alloc, live) {
        return None;
    }
    let mut register = live.register().try_copy().ok()?;
    let timed = is_timed(rt, alloc, live, &mut register);
    drop(register);
    timed
}

fn timed_once<R: Wait + Clock + Print>(rt: &R, alloc: Global) -> Option<()> {
    let register = empty(alloc)?;
    timed::<Brand, R>(rt, alloc, NewLog::new(), register)
}

/// Prints a line for each publication; whether all were measured.
pub fn report<R: Wait + Clock + Print>(rt: &R, alloc: Global) -> bool {
    timed_once(rt, alloc).is_some()
}
