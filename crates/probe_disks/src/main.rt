//! Prints each call that a register on a disk makes of the disk, for `tests/disks/disks.py`. It touches only a disk in memory
//! and the standard streams, and knows nothing of files.
//!
//! Standard input begins with the sectors of a disk, each a line `N DIGITS`, and an empty line. Without sectors the disk is
//! formatted. Then each line is a station, a space and a command line of that station. An empty line ends a batch of at
//! most 64 commands.
//!
//! Standard output begins with `disk N`, the number of sectors. Then come the calls that format the disk, those that open it,
//! and those of each batch, with an empty line after each of these. A call is `write N DIGITS`, with the sector's bytes in
//! hexadecimal digits without the zeros at its end, or `sync`. Reads are left out. For each line of a batch the line `answer`
//! follows with the text of its answer.
#![tactic(auto)]

ghost use Rattle.std.specs.Prelude.{◌≤◌, length};

mod watched;

use crate::watched::{Call, Calls, WatchedDisk};
use centre_core::Command;
use checkpoint::Layout;
use console::{Answer, Line, parse_line, print_answer};
use recovery::{Outcome, Store, StoreFault, format};
use registration::{Limits, Station};
use sector_disk::{Disk, MemoryDisk};
use std::alloc::Global;
use std::cell::RefCell;
use std::io::{self, BufRead, BufReader, BufWriter, Write};

/// How many calls the disk allows.
const MOST_CALLS: usize = 65_536;

/// The most commands of a batch.
const MOST_COMMANDS: usize = 64;

fn layout() -> Option<Layout> {
    Layout::new(Limits::new(16, 16, 256, 4)?, 39)
}

/// The command of a line.
fn command(alloc: Global, line: &str) -> io::Result<Command<Global>> {
    let (station, said) = line.split_once(' ').ok_or(io::ErrorKind::InvalidData)?;
    let Ok(station) = station.parse() else {
        return Err(io::ErrorKind::InvalidData.into());
    };
    match parse_line(alloc, Station::new(station), said.as_bytes())? {
        Line::Apply(command) => Ok(command),
        _ => Err(io::ErrorKind::InvalidData.into()),
    }
}

/// The bytes of a sector without the zeros at its end, but always the first.
fn trimmed(sector: &[u8; 512]) -> &[u8] {
    let last = sector.iter().rposition(|byte| *byte != 0);
    &sector[..=last.unwrap_or(0)]
}

fn print_call<W: Write>(alloc: Global, out: &mut W, call: &Call) -> io::Result<()> {
    match call {
        Call::Write(at, bytes) => {
            let digits = hex::encode(alloc, trimmed(bytes))?;
            writeln!(out, "write {at} {digits}")
        }
        Call::Sync => writeln!(out, "sync"),
    }
}

/// Prints the calls that the disk has had, and forgets them.
fn print_calls<W: Write>(alloc: Global, out: &mut W, calls: &Calls) -> io::Result<()> {
    let Ok(calls) = calls.try_replace(Vec::new(alloc)) else {
        return Err(io::ErrorKind::Other.into());
    };
    for call in calls.iter() {
        print_call(alloc, out, call)?;
    }
    Ok(())
}

/// Prints the answer to a command.
fn print_outcome<W: Write>(
    alloc: Global,
    out: &mut W,
    command: &Command<Global>,
    outcome: Outcome<Global>,
) -> io::Result<()> {
    let Outcome::Replied(reply) = outcome else {
        return Err(io::ErrorKind::OutOfMemory.into());
    };
    let mut text = Vec::new(alloc);
    print_answer(&mut text, &Answer::Replied(command.sequence, reply))?;
    out.write_all(b"answer ")?;
    out.write_all(&text)
}

/// The sector that begins with these bytes. Bytes after the first 512 are left out.
fn sector(bytes: &[u8]) -> [u8; 512] {
    let mut sector = [0; 512];
    for (to, byte) in sector.iter_mut().zip(bytes) {
        *to = *byte;
    }
    sector
}

/// Writes the sector that a line gives.
fn write_sector<D: Disk>(alloc: Global, disk: &mut D, line: &str) -> io::Result<()> {
    let (at, digits) = line.split_once(' ').ok_or(io::ErrorKind::InvalidData)?;
    let Ok(at) = at.parse() else {
        return Err(io::ErrorKind::InvalidData.into());
    };
    let Ok(bytes) = hex::decode(alloc, digits) else {
        return Err(io::ErrorKind::InvalidData.into());
    };
    match disk.write(at, &sector(&bytes)) {
        Ok(()) => Ok(()),
        Err(_) => Err(io::ErrorKind::Other.into()),
    }
}

/// Writes the sectors that lines give, up to an empty line. Returns whether there were any.
fn write_sectors<R: BufRead, D: Disk>(
    alloc: Global,
    lines: &mut R,
    disk: &mut D,
) -> io::Result<bool> {
    for written in 0..MOST_CALLS {
        let mut line = String::new(alloc);
        lines.read_line(&mut line)?;
        if line.trim_end().is_empty() {
            return Ok(written > 0);
        }
        write_sector(alloc, disk, line.trim_end())?;
    }
    Err(io::ErrorKind::InvalidData.into())
}

/// Writes the sectors that lines give to the disk, or formats it if they give none.
fn make_ready<R: BufRead, D: Disk>(
    alloc: Global,
    lines: &mut R,
    layout: &Layout,
    disk: &mut D,
) -> io::Result<()> {
    let is_made = if write_sectors(alloc, lines, disk)? {
        disk.sync().is_ok()
    } else {
        format::<Global, D>(disk, layout).is_ok()
    };
    if !is_made {
        return Err(io::ErrorKind::Other.into());
    }
    Ok(())
}

/// A disk with those sectors, or formatted.
fn ready_disk<'a, R: BufRead>(
    alloc: Global,
    lines: &mut R,
    calls: &'a Calls,
) -> io::Result<WatchedDisk<'a, MemoryDisk<Global>>> {
    let layout = layout().ok_or(io::ErrorKind::Other)?;
    let inner = MemoryDisk::new(alloc, layout.sectors() as usize, MOST_CALLS)?;
    let mut disk = WatchedDisk::new(inner, calls);
    make_ready(alloc, lines, &layout, &mut disk)?;
    Ok(disk)
}

/// Commits a batch of at most 64 commands.
fn commit<D: Disk>(
    alloc: Global,
    store: &mut Store<Global, D>,
    batch: &[Command<Global>],
) -> io::Result<Vec<Outcome<Global>, Global>> {
    let mut commands = Vec::new(alloc);
    for command in batch {
        commands.push(command)?;
    }
    if commands.len() > MOST_COMMANDS {
        return Err(io::ErrorKind::InvalidData.into());
    }
    match store.commit(alloc, &commands) {
        Ok(outcomes) => Ok(outcomes),
        Err(StoreFault::Unready) => commit_again(alloc, store, &commands),
        Err(_) => Err(io::ErrorKind::Other.into()),
    }
}

/// Makes a checkpoint, and commits the commands that did not fit.
fn commit_again<D: Disk>(
    alloc: Global,
    store: &mut Store<Global, D>,
    commands: &[&Command<Global>],
) -> io::Result<Vec<Outcome<Global>, Global>>
    requires { length commands.now ≤ 64 }
{
    if store.checkpoint().is_err() {
        return Err(io::ErrorKind::Other.into());
    }
    match store.commit(alloc, commands) {
        Ok(outcomes) => Ok(outcomes),
        Err(_) => Err(io::ErrorKind::Other.into()),
    }
}

/// A register on a disk, and the batch that is being read.
#[derive(Drop)]
struct Session<'a, D: Disk> {
    store: Store<Global, D>,
    calls: &'a Calls,
    batch: Vec<Command<Global>, Global>,
}

impl<'a, D: Disk> Session<'a, D> {
    /// Commits the batch, and writes its calls and answers.
    fn answer<W: Write>(&mut self, alloc: Global, out: &mut W) -> io::Result<()> {
        let outcomes = commit(alloc, &mut self.store, &self.batch)?;
        print_calls(alloc, out, self.calls)?;
        for (command, outcome) in self.batch.iter().zip(outcomes) {
            print_outcome(alloc, out, command, outcome)?;
        }
        self.batch.clear();
        writeln!(out)
    }

    /// Takes a line in, and answers the batch where it ends there.
    fn take_line<W: Write>(&mut self, alloc: Global, out: &mut W, line: &str) -> io::Result<()> {
        if line.is_empty() {
            return self.answer(alloc, out);
        }
        self.batch.push(command(alloc, line)?)?;
        Ok(())
    }
}

/// Opens a disk.
fn open<D: Disk + Drop>(alloc: Global, disk: D, calls: &Calls) -> io::Result<Session<'_, D>> {
    match Store::open(alloc, disk) {
        Ok(store) => Ok(Session {
            store,
            calls,
            batch: Vec::new(alloc),
        }),
        Err(_) => Err(io::ErrorKind::Other.into()),
    }
}

/// Writes the calls that opened the disk, and answers all lines.
fn serve<R: BufRead + Drop, D: Disk, W: Write>(
    alloc: Global,
    lines: R,
    out: &mut W,
    session: &mut Session<'_, D>,
) -> io::Result<()> {
    print_calls(alloc, out, session.calls)?;
    writeln!(out)?;
    for line in lines.lines(alloc) {
        session.take_line(alloc, out, &line?)?;
    }
    Ok(())
}

fn main(rt: HostRuntime) -> io::Result<()> {
    let alloc = rt.alloc();
    let mut out = BufWriter::new(alloc, io::writer(&rt))?;
    let mut lines = BufReader::new(alloc, rt.reader())?;
    let calls = RefCell::new(Vec::new(alloc));
    let disk = ready_disk(alloc, &mut lines, &calls)?;
    writeln!(out, "disk {}", disk.sectors())?;
    print_calls(alloc, &mut out, &calls)?;
    writeln!(out)?;
    let mut session = open(alloc, disk, &calls)?;
    serve(alloc, lines, &mut out, &mut session)?;
    out.flush()
}
