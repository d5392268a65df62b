// Times how the rows of registers are walked, written, built into tables and read from an image. Each of these ways is run many times.
use crate::filling::{Filling, is_filled};
use crate::reading::{built, read};
use crate::register::LIMITS;
use crate::walking::{MOST, bare, row_by_row};
use crate::writing::{disk, is_written};
use centre_core::Register;
use sector_disk::MemoryDisk;
use std::alloc::Global;
use std::time::{Duration, Instant};

// How many rounds there are.
const ROUNDS: u32 = 5;

// The largest register, a small one, and one that has few radios but the most rules and items.
const FILLINGS: [Filling; 3] = [
    Filling {
        radios: 65_536,
        rules: 4096,
        items: 65_536,
    },
    Filling {
        radios: 16,
        rules: 1,
        items: 16,
    },
    Filling {
        radios: 16,
        rules: 4096,
        items: 65_536,
    },
];

// How often each way is run in a round. One run over a small register is too short to measure, so many are measured together.
fn repeats(filling: &Filling) -> u32 {
    if filling.items > 16 { 1 } else { 1500 }
}

// How many rows were walked, and the time of each way that only walks or writes them.
#[derive(Clone, Copy, Drop)]
struct Walked {
    rows: usize,
    bare: Duration,
    row_by_row: Duration,
    written: Duration,
}

// The times of building the tables of a register, of reading them from its image, and of the walk that building includes.
#[derive(Clone, Copy, Drop)]
struct Made {
    walked: Duration,
    built: Duration,
    read: Duration,
}

// Walks and writes once.
fn walk(
    rt: &HostRuntime,
    register: &Register<Global>,
    list: &mut [[u8; 512]],
    disk: &mut MemoryDisk<Global>,
) -> Option<Walked> {
    let start = Instant::now(rt).ok()?;
    let rows = bare(register, list);
    let bare = start.elapsed(rt).ok()?;
    let start = Instant::now(rt).ok()?;
    let again = row_by_row(register, list);
    let row_by_row = start.elapsed(rt).ok()?;
    let start = Instant::now(rt).ok()?;
    let is_done = is_written(disk, register);
    let written = start.elapsed(rt).ok()?;
    (is_done && again == rows).then_some(Walked {
        rows,
        bare,
        row_by_row,
        written,
    })
}

// Walks the rows, builds the tables and reads the image once.
fn make(
    rt: &HostRuntime,
    register: &Register<Global>,
    disk: &mut MemoryDisk<Global>,
) -> Option<Made> {
    let start = Instant::now(rt).ok()?;
    let rows = bare(register, &mut []);
    let walked = start.elapsed(rt).ok()?;
    let built = built(rt, register)?;
    let read = read(rt, disk, register.count())?;
    (rows > 0).then_some(Made {
        walked,
        built,
        read,
    })
}

// Walks and writes `repeats` times, and adds up rows and times.
fn walk_again(
    rt: &HostRuntime,
    register: &Register<Global>,
    list: &mut [[u8; 512]],
    disk: &mut MemoryDisk<Global>,
    repeats: u32,
) -> Option<Walked> {
    let mut all = walk(rt, register, list, disk)?;
    for _ in 1..repeats {
        let one = walk(rt, register, list, disk)?;
        all = Walked {
            rows: all.rows.checked_add(one.rows)?,
            bare: all.bare.checked_add(one.bare)?,
            row_by_row: all.row_by_row.checked_add(one.row_by_row)?,
            written: all.written.checked_add(one.written)?,
        };
    }
    Some(all)
}

// Makes tables `repeats` times, and adds up the times.
fn make_again(
    rt: &HostRuntime,
    register: &Register<Global>,
    disk: &mut MemoryDisk<Global>,
    repeats: u32,
) -> Option<Made> {
    let mut all = make(rt, register, disk)?;
    for _ in 1..repeats {
        let one = make(rt, register, disk)?;
        all = Made {
            walked: all.walked.checked_add(one.walked)?,
            built: all.built.checked_add(one.built)?,
            read: all.read.checked_add(one.read)?,
        };
    }
    Some(all)
}

// Prints a line: what the register is filled with, how many rows were walked, and the nanoseconds of each way.
fn report_round(rt: &HostRuntime, filling: &Filling, one: &Walked, other: &Made) -> Option<()> {
    let (bare, row_by_row) = (one.bare.as_nanos(), one.row_by_row.as_nanos());
    let written = one.written.as_nanos();
    let (walked, built) = (other.walked.as_nanos(), other.built.as_nanos());
    let read = other.read.as_nanos();
    println!(rt;
        "{} {} {} {} {bare} {row_by_row} {written} {walked} {built} {read}",
        filling.radios, filling.rules, filling.items, one.rows
    )
    .ok()
}

// Prints a line a round. The disk forgets its calls before each way that calls it.
fn rounds(
    rt: &HostRuntime,
    register: &Register<Global>,
    list: &mut [[u8; 512]],
    filling: &Filling,
) -> Option<()> {
    let mut disk = disk(rt.alloc())?;
    let repeats = repeats(filling);
    for _ in 0..ROUNDS {
        disk = disk.crash(&[]);
        let one = walk_again(rt, register, list, &mut disk, repeats)?;
        disk = disk.crash(&[]);
        let other = make_again(rt, register, &mut disk, repeats)?;
        report_round(rt, filling, &one, &other)?;
    }
    Some(())
}

// All rounds over the register, once it is filled.
fn measured(
    rt: &HostRuntime,
    register: &mut Register<Global>,
    list: &mut [[u8; 512]],
    filling: &Filling,
) -> bool {
    is_filled(register, rt.alloc(), filling) && rounds(rt, register, list, filling).is_some()
}

fn is_reported(rt: &HostRuntime, list: &mut [[u8; 512]], filling: &Filling) -> bool {
    match Register::new(rt.alloc(), LIMITS) {
        Ok(mut register) => measured(rt, &mut register, list, filling),
        Err(_) => false,
    }
}

// The exit status: 0, or 5 if something failed.
pub(crate) fn report(rt: &HostRuntime) -> u8 {
    let Ok(mut list) = vec![in rt.alloc(); [0; 512]; MOST] else {
        return 5;
    };
    for filling in &FILLINGS {
        if !is_reported(rt, &mut list, filling) {
            return 5;
        }
    }
    0
}
