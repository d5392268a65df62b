//! A program for tests and benchmarks of `snapshots`. It opens no file: it prints counts and times.
//!
//! Without an argument it makes publications, whose allocations `tests/run publications` refuses. With an argument, for
//! `bench/readers`, it times publications, and viewers that read beside a publisher. It also times the same work on a plain
//! register.
#![tactic(auto)]

mod filling;
mod publications;
mod publishing;
mod reading;

use std::alloc::Global;
use std::env;
use std::process::ExitCode;
use std::rt::Clock;
use std::sync::Wait;
use std::thread::Threads;

fn main(rt: HostRuntime) -> ExitCode {
    match env::args(&rt) {
        Ok(words) => match words.count() {
            0 | 1 => ExitCode::from(publications::report(&rt, rt.alloc())),
            _ => ExitCode::from(timed(&rt, rt.alloc())),
        },
        Err(_) => ExitCode::from(5),
    }
}

// Times the viewers and the publications; the exit status.
fn timed<R: Threads + Wait + Clock + Print + Sync>(rt: &R, alloc: Global) -> u8 {
    if reading::report(rt, alloc) && publishing::report(rt, alloc) {
        0
    } else {
        5
    }
}
