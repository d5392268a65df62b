// Times how a half of a disk in memory is filled with records and read back, again and again.
ghost use Rattle.std.specs.Prelude.{◌≡◌, ◌≤◌, length};
ghost use Rattle.gated_journal.specs.Record.{most_commands};

use centre_core::{Body, Command, Sequence};
use gated_journal::{Form, Journal, Place};
use identity::{BitWriter, Itsi};
use mailbox::Moment;
use registration::{LocationArea, Station};
use sector_disk::{Disk, MemoryDisk};
use std::alloc::Global;
use std::time::{Duration, Instant};

// How often the half is filled and read.
const ROUNDS: u32 = 2_000;

// What was measured: records, and the time of all appends and of all readings.
#[derive(Clone, Copy, Drop)]
struct Timed {
    records: u64,
    appended: Duration,
    read: Duration,
}

// A location update of 23 bytes.
fn update(alloc: Global) -> Option<Command<Global>> {
    let itsi = Itsi::from_number(0x3a80_0e00_07d1)?;
    let area = LocationArea::new(7)?;
    let mut writer = BitWriter::new(alloc);
    writer.put(0x98, 10).ok()?;
    let pdu = writer.finish();
    let (station, sequence) = (Station::new(1), Sequence::new(2)?);
    Command::new(
        station,
        sequence,
        Moment::new(10),
        Body::Mm { itsi, area, pdu },
    )
}

// Adds records of these commands while there is room, and returns how many.
fn fill<D: Disk>(journal: &mut Journal<Global>, disk: &mut D, commands: &[&Command<Global>]) -> u64
    requires end { journal.old.end ≡ 39 }
    requires count { journal.old.count ≡ 0 }
    requires some { 1 ≤ length commands.now }
    requires few { length commands.now ≤ most_commands }
    ensures { journal.new.end ≡ 39 }
{
    let mut records = 0;
    for k in 0..19 {
        if disk.sectors() < 39 || journal.append(disk, commands).is_err() {
            return records;
        }
        records = k + 1;
    }
    records
}

// Closes the first gate.
fn is_empty<D: Disk>(disk: &mut D) -> bool {
    disk.write(0, &[0; 512]).is_ok() && disk.sync().is_ok()
}

// Reads the half, and returns how many records it has.
fn read<D: Disk>(alloc: Global, disk: &mut D) -> u64 {
    if disk.sectors() < 39 {
        return 0;
    }
    let place = Place {
        first: 0,
        end: 39,
        next: 0,
        form: Form::Numbered,
        count: 0,
    };
    match Journal::replay(alloc, disk, place) {
        Ok((_, records)) => records.len() as u64,
        Err(_) => 0,
    }
}

// Fills and reads the half once.
fn round<D: Disk>(
    rt: &HostRuntime,
    journal: &mut Journal<Global>,
    disk: &mut D,
    commands: &[&Command<Global>],
) -> Option<Timed>
    requires end { journal.old.end ≡ 39 }
    requires count { journal.old.count ≡ 0 }
    requires some { 1 ≤ length commands.now }
    requires few { length commands.now ≤ most_commands }
{
    let start = Instant::now(rt).ok()?;
    let records = fill(journal, disk, commands);
    let appended = start.elapsed(rt).ok()?;
    let start = Instant::now(rt).ok()?;
    let again = read(rt.alloc(), disk);
    let read = start.elapsed(rt).ok()?;
    (again == records).then_some(Timed {
        records,
        appended,
        read,
    })
}

fn more(all: Timed, one: Timed) -> Option<Timed> {
    Some(Timed {
        records: all.records.checked_add(one.records)?,
        appended: all.appended.checked_add(one.appended)?,
        read: all.read.checked_add(one.read)?,
    })
}

// All rounds.
fn measured(rt: &HostRuntime, commands: &[&Command<Global>]) -> Option<Timed>
    requires some { 1 ≤ length commands.now }
    requires few { length commands.now ≤ most_commands }
{
    let mut disk = MemoryDisk::new(rt.alloc(), 39, 999).ok()?;
    let mut all = Timed {
        records: 0,
        appended: Duration::from_nanos(0),
        read: Duration::from_nanos(0),
    };
    let mut journal = Journal::start(rt.alloc(), 0, 39, Form::Numbered, 0).ok()?;
    for _ in 0..ROUNDS {
        disk = disk.crash(&[]);
        if !is_empty(&mut disk) {
            return None;
        }
        journal.restart(0, 39, Form::Numbered, 0);
        all = more(all, round(rt, &mut journal, &mut disk, commands)?)?;
    }
    Some(all)
}

// Prints the records and the nanoseconds of each way, for records of one command and of 64.
fn reported(rt: &HostRuntime) -> Option<()> {
    let update = update(rt.alloc())?;
    let one = measured(rt, &[&update])?;
    let many = measured(rt, &[&update; 64])?;
    for (size, all) in [(1, one), (64, many)] {
        let appended = all.appended.as_nanos();
        let read = all.read.as_nanos();
        println!(rt; "{size} {} {appended} {read}", all.records).ok()?;
    }
    Some(())
}

// The exit status: 0, or 5 if something failed.
pub(crate) fn report(rt: &HostRuntime) -> u8 {
    if reported(rt).is_some() { 0 } else { 5 }
}
