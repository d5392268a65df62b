//! What the benchmarks run. All its disks are in memory: it opens no file, and prints answers and times.
//!
//! With no word after its name it answers lines over a large register, for `bench/large`, `bench/groups` and `tests/run costs`. With one
//! word it times the journal, for `bench/journal`; with two the rows of registers, for `bench/rows`; with more a register on a disk, for
//! `bench/store`.
#![tactic(auto)]

mod building;
mod filling;
mod journal;
mod reading;
mod register;
mod rows;
mod store;
mod walking;
mod writing;

use std::env;
use std::process::ExitCode;

fn main(rt: HostRuntime) -> ExitCode {
    match env::args(&rt) {
        Ok(words) => match words.count() {
            0 | 1 => ExitCode::from(register::serve(&rt)),
            2 => ExitCode::from(journal::report(&rt)),
            3 => ExitCode::from(rows::report(&rt)),
            _ => ExitCode::from(store::report(&rt)),
        },
        Err(_) => ExitCode::from(5),
    }
}
