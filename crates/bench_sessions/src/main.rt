//! Sessions beside a flusher, for tests and benchmarks of `flusher`. It prints counts and times.
//!
//! Without an argument one session submits commands on a disk in memory, whose allocations `tests/run sessions` refuses. With an
//! argument, for `bench/sessions`, it times sessions in threads of their own, and the same commands committed in one thread, on disks
//! in memory; with a second one on disks in a file of that name, which it makes and removes.
#![tactic(auto)]

mod beside;
mod disks;
mod refused;
mod timed;
mod together;

use std::env;
use std::process::ExitCode;

fn main(rt: HostRuntime) -> ExitCode {
    let Ok(mut words) = env::args(&rt) else {
        return ExitCode::from(5);
    };
    words.next();
    if words.next().is_none() {
        return ExitCode::from(refused::report(&rt, rt.alloc()));
    }
    let done = match words.next() {
        Some(name) => timed::report_in_file(&rt, rt.alloc(), &name),
        None => timed::report_in_memory(&rt, rt.alloc()),
    };
    ExitCode::from(if done { 0 } else { 5 })
}
