//! One record added to two halves of a disk. They are those of the worked disk: from 589 and from 628, 39 sectors each. The
//! records of the second half state the number of their first command.
ghost use Rattle.std.specs.Prelude.{◌≡◌, ◌≤◌, ◌<◌, length};
ghost use Rattle.gated_journal.specs.Settled.{HasNumbersLeft};
ghost use Rattle.gated_journal.specs.declared.form.Form.TheVariants.{Numbered, Plain};

use crate::made;
use centre_core::Command;
use gated_journal::{Form, Journal, JournalError, Place};
use sector_disk::{Disk, DiskError, Failing, FailingDisk, MemoryDisk};
use std::alloc::{AllocError, Global};
use std::test::Fail;

/// How the data sector of a record of an expiry begins.
const EXPIRY_TEXT: [u8; 17] = [0, 1, 0, 0, 0, 11, 0, 1, 0, 0, 0, 3, 0, 0, 0, 11, 6];

/// The same with the number of its first command, the eleventh of all.
const ELEVENTH_TEXT: [u8; 25] = [
    0, 1, 0, 0, 0, 0, 0, 0, 0, 11, 0, 0, 0, 11, 0, 1, 0, 0, 0, 3, 0, 0, 0, 11, 6,
];

/// A record as it is read: its first data sector and its commands.
type Entry = (u64, Vec<Command<Global>>);

fn begins<D: Disk>(disk: &mut D, at: u64, head: &[u8]) -> Result<bool, DiskError> {
    let mut bytes = [7; 512];
    disk.read(at, &mut bytes)?;
    Ok(bytes.starts_with(head))
}

/// Adds one record to both halves, where it fits both.
pub fn add_both<D: Disk>(
    first: &mut Journal<Global>,
    second: &mut Journal<Global>,
    disk: &mut D,
    commands: &[&Command<Global>],
) -> Result<(), JournalError>
    requires first { first.old.end ≡ 628 }
    requires second { second.old.first ≡ 628 }
    requires end { second.old.end ≡ 667 }
    requires count { first.old.count ≤ 100 }
    requires second_count { second.old.count ≤ 100 }
    requires some { 1 ≤ length commands.now }
    requires few { length commands.now ≤ 64 }
{
    if disk.sectors() < 667 || !first.has_room(commands) || !second.has_room(commands) {
        return Err(JournalError::JournalFull);
    }
    first.append_both(disk, second, commands)
}

/// Adds ten records of one command to the first half alone.
fn add_ten<D: Disk>(
    first: &mut Journal<Global>,
    disk: &mut D,
    command: &Command<Global>,
) -> Result<(), JournalError>
    requires end { first.old.end ≡ 628 }
    requires count { first.old.count ≡ 0 }
    ensures end { first.new.end ≡ 628 }
    ensures count { first.new.count ≤ 100 }
{
    for _ in 0..10u64 {
        if disk.sectors() < 667 {
            return Err(JournalError::JournalFull);
        }
        first.append(disk, &[command])?;
    }
    Ok(())
}

/// Adds ten records to the first half, and the eleventh to both. Returns the answer, and the room of each half then.
pub fn eleven<D: Disk>(
    alloc: Global,
    disk: &mut D,
    command: &Command<Global>,
) -> Result<(Result<(), JournalError>, [u64; 2]), AllocError> {
    let mut first = Journal::start(alloc, 589, 39, Form::Plain, 0)?;
    let mut second = Journal::start(alloc, 628, 39, Form::Numbered, 10)?;
    let added = match add_ten(&mut first, disk, command) {
        Ok(()) => add_both(&mut first, &mut second, disk, &[command]),
        fault => fault,
    };
    Ok((added, [first.room(), second.room()]))
}

/// How many records a half has, the first data sector of the last one, and how many commands that has.
fn last_of<D: Disk>(alloc: Global, disk: &mut D, place: Place) -> Option<(usize, u64, usize)>
    requires up { place.first ≤ place.next }
    requires some { place.next < place.end }
    requires counts { HasNumbersLeft place }
{
    if disk.sectors() < place.end {
        return None;
    }
    let (_, records) = Journal::replay(alloc, disk, place).ok()?;
    counted(&records)
}

/// The half of the plain records.
fn first_half() -> Place
    ensures { result ≡ record { first = 589; end = 628; next = 589; form = Plain; count = 0 } }
{
    made::place(589, 39, Form::Plain)
}

/// The half of the numbered records, after ten commands.
fn second_half() -> Place
    ensures { result ≡ record { first = 628; end = 667; next = 628; form = Numbered; count = 10 } }
{
    Place {
        count: 10,
        ..made::place(628, 39, Form::Numbered)
    }
}

fn counted(records: &[Entry]) -> Option<(usize, u64, usize)> {
    match records.last() {
        None => Some((0, 0, 0)),
        Some(last) => Some((records.len(), last.0, last.1.len())),
    }
}

/// Whether the eleventh record is in both halves: its text at 610 and at 629, its gate at 609 and at 628, with a closed
/// gate after each text.
fn is_in_both<D: Disk>(disk: &mut D) -> Result<bool, DiskError> {
    let texts = begins(disk, 610, &EXPIRY_TEXT)? && begins(disk, 629, &ELEVENTH_TEXT)?;
    let gates = begins(disk, 609, &[1, 0])? && begins(disk, 628, &[1, 0])?;
    Ok(texts && gates && begins(disk, 611, &[0; 512])? && begins(disk, 630, &[0; 512])?)
}

fn are_added(alloc: Global, expiry: &Command<Global>) -> Result<bool, AllocError> {
    let mut disk = MemoryDisk::new(alloc, 667, 199)?;
    let (added, rooms) = eleven(alloc, &mut disk, expiry)?;
    let durable = disk.pending(alloc)?.is_empty();
    let there = is_in_both(&mut disk) == Ok(true);
    let first = last_of(alloc, &mut disk, first_half()) == Some((11, 610, 1));
    let second = last_of(alloc, &mut disk, second_half()) == Some((1, 629, 1));
    Ok(added.is_ok() && rooms == [15, 35] && durable && there && first && second)
}

#[test]
fn one_record_in_both_halves(rt: HostRuntime) -> Result<(), Fail> {
    let expiry = made::expiry().ok_or("an expiry")?;
    assert!(rt; are_added(rt.alloc(), &expiry)?);
    Ok(())
}

/// Whether 64 of the longest commands are added to both halves, and read back from each.
fn longest_are_added(alloc: Global) -> Result<bool, Fail> {
    let longest = made::longest(alloc).ok_or("a short data PDU")?;
    let mut disk = MemoryDisk::new(alloc, 667, 199)?;
    let mut first = Journal::start(alloc, 589, 39, Form::Plain, 0)?;
    let mut second = Journal::start(alloc, 628, 39, Form::Numbered, 10)?;
    let added = add_both(&mut first, &mut second, &mut disk, &[&longest; 64]);
    let one = last_of(alloc, &mut disk, first_half()) == Some((1, 590, 64));
    let other = last_of(alloc, &mut disk, second_half()) == Some((1, 629, 64));
    Ok(added.is_ok() && one && other)
}

#[test]
fn the_longest_commands_in_both_halves(rt: HostRuntime) -> Result<(), Fail> {
    assert!(rt; longest_are_added(rt.alloc())?);
    Ok(())
}

/// The disk after this call of the eleventh record has failed. The ten records before it take 50 calls.
fn failed(
    alloc: Global,
    expiry: &Command<Global>,
    call: u64,
    failing: Failing,
) -> Result<Option<MemoryDisk<Global>>, AllocError>
    requires { call ≤ 9 }
{
    let mut disk = FailingDisk::new(MemoryDisk::new(alloc, 667, 199)?, 50 + call, failing);
    let (added, rooms) = eleven(alloc, &mut disk, expiry)?;
    let refused = added == Err(JournalError::DiskFault) && rooms == [17, 37];
    let inner = disk.into_inner();
    Ok((refused == (call < 9)).then_some(inner))
}

/// Whether exactly these sectors are pending after the call has failed.
fn are_pending(
    alloc: Global,
    expiry: &Command<Global>,
    call: u64,
    want: &[u64],
) -> Result<bool, AllocError>
    requires { call ≤ 9 }
{
    match failed(alloc, expiry, call, Failing::Once)? {
        None => Ok(false),
        Some(disk) => Ok(disk.pending(alloc)?.as_slice() == want),
    }
}

/// Whether both texts come before the first sync, and both gates between the two syncs.
fn come_in_two_syncs(alloc: Global, expiry: &Command<Global>) -> Result<bool, AllocError> {
    let texts = are_pending(alloc, expiry, 5, &[610, 611, 629, 630])?;
    let gates = are_pending(alloc, expiry, 8, &[609, 628])?;
    Ok(texts && gates && are_pending(alloc, expiry, 9, &[])?)
}

#[test]
fn both_halves_share_two_syncs(rt: HostRuntime) -> Result<(), Fail> {
    let expiry = made::expiry().ok_or("an expiry")?;
    assert!(rt; come_in_two_syncs(rt.alloc(), &expiry)?);
    Ok(())
}

/// A stop that fills each pending sector of the first half with one byte, and each of the second half with another.
fn stopped(
    alloc: Global,
    disk: MemoryDisk<Global>,
    bytes: [u8; 2],
) -> Result<MemoryDisk<Global>, AllocError> {
    let mut fill = Vec::new(alloc);
    for at in disk.pending(alloc)? {
        let byte = if at < 628 { bytes[0] } else { bytes[1] };
        fill.push((at, [byte; 512]))?;
    }
    Ok(disk.crash(&fill))
}

/// Whether a stop after the failing call leaves the record in each half where its gate was written and holds a 1, or
/// where nothing failed, and nowhere else.
fn is_safe(
    alloc: Global,
    expiry: &Command<Global>,
    call: u64,
    failing: Failing,
    bytes: [u8; 2],
) -> Result<bool, AllocError>
    requires { call ≤ 9 }
{
    let Some(disk) = failed(alloc, expiry, call, failing)? else {
        return Ok(false);
    };
    let mut left = stopped(alloc, disk, bytes)?;
    let first = call == 9 || (call >= 7 && bytes[0] == 1);
    let second = call == 9 || (call == 8 && bytes[1] == 1);
    let ten = if first { (11, 610, 1) } else { (10, 608, 1) };
    let one = if second { (1, 629, 1) } else { (0, 0, 0) };
    let are_first = last_of(alloc, &mut left, first_half()) == Some(ten);
    Ok(are_first && last_of(alloc, &mut left, second_half()) == Some(one))
}

const BYTES: [[u8; 2]; 5] = [[0, 0], [1, 1], [1, 0], [0, 1], [77, 255]];

fn are_all_safe(
    alloc: Global,
    expiry: &Command<Global>,
    failing: Failing,
) -> Result<bool, AllocError> {
    for call in 1..10 {
        for bytes in BYTES {
            if !is_safe(alloc, expiry, call, failing, bytes)? {
                return Ok(false);
            }
        }
    }
    Ok(true)
}

#[test]
fn each_call_fails_once(rt: HostRuntime) -> Result<(), Fail> {
    let expiry = made::expiry().ok_or("an expiry")?;
    assert!(rt; are_all_safe(rt.alloc(), &expiry, Failing::Once)?);
    Ok(())
}

#[test]
fn each_call_fails_with_all_later_ones(rt: HostRuntime) -> Result<(), Fail> {
    let expiry = made::expiry().ok_or("an expiry")?;
    assert!(rt; are_all_safe(rt.alloc(), &expiry, Failing::Always)?);
    Ok(())
}
