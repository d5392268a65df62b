//! Lines that are served one after the other, and what a desk answers to them.

use centre_core::Command;
use console::{Desk, Line, parse_line, run};
use identity::print_number;
use registration::Station;
use std::alloc::{Allocator, Global};

/// Adds a number between two texts.
pub fn put(out: &mut Vec<u8>, before: &str, number: u64, after: &str) -> Option<()> {
    out.extend_from_slice(before.as_bytes()).ok()?;
    print_number(out, number).ok()?;
    out.extend_from_slice(after.as_bytes()).ok()
}

/// The answers of a desk to these lines, in a run with memory from `own`; nothing if the run failed.
pub fn answers<B: Allocator + Copy + Drop, D: Desk<B>>(
    alloc: Global,
    own: B,
    desk: &mut D,
    lines: &[u8],
) -> Option<Vec<u8>> {
    let mut out = Vec::new(alloc);
    let mut reader = lines;
    match run(own, &mut reader, &mut out, Station::new(1), 1 << 20, desk) {
        Ok(_) => Some(out),
        Err(_) => None,
    }
}

/// Whether these are the answers.
pub fn are_answered<B: Allocator + Copy + Drop, D: Desk<B>>(
    alloc: Global,
    own: B,
    desk: &mut D,
    lines: &[u8],
    want: &[u8],
) -> bool {
    match answers(alloc, own, desk, lines) {
        Some(out) => out.as_slice() == want,
        None => false,
    }
}

/// The command that a station's line spells.
pub fn command(alloc: Global, station: u16, line: &str) -> Option<Command<Global>> {
    match parse_line(alloc, Station::new(station), line.as_bytes()) {
        Ok(Line::Apply(command)) => Some(command),
        _ => None,
    }
}
