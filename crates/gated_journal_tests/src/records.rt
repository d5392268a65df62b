//! Records that are written and read back.
ghost use Rattle.std.specs.Prelude.{◌≡◌, ◌≤◌, ◌+◌, length};

use crate::made;
use centre_core::{Body, Command};
use gated_journal::{Form, Journal, JournalError};
use sector_disk::{Disk, DiskError, Failing, FailingDisk, MemoryDisk};
use std::alloc::{AllocError, Global};
use std::test::Fail;

/// How the data sector of a record of a rule's command begins.
const RULE_TEXT: [u8; 33] = [
    0, 1, 0, 0, 0, 27, 0, 1, 0, 0, 0, 1, 0, 0, 0, 0, 1, 0x18, 0x3a, 0x80, 0x0e, 0, 0, 0, 0, 1, 0,
    0x63, 1, 0, 0, 0x0e, 0x10,
];

/// The same with the number of its first command, the first of all.
const NUMBERED_TEXT: [u8; 41] = [
    0, 1, 0, 0, 0, 0, 0, 0, 0, 1, 0, 0, 0, 27, 0, 1, 0, 0, 0, 1, 0, 0, 0, 0, 1, 0x18, 0x3a, 0x80,
    0x0e, 0, 0, 0, 0, 1, 0, 0x63, 1, 0, 0, 0x0e, 0x10,
];

/// The first bytes of a record of three commands, of 27, 23 and 11 bytes.
const THREE_HEAD: [u8; 6] = [0, 3, 0, 0, 0, 61];

/// The same with the number of its first command, the first of all.
const NUMBERED_HEAD: [u8; 14] = [0, 3, 0, 0, 0, 0, 0, 0, 0, 1, 0, 0, 0, 61];

fn begins<D: Disk>(disk: &mut D, at: u64, head: &[u8]) -> Result<bool, DiskError> {
    let mut bytes = [7; 512];
    disk.read(at, &mut bytes)?;
    Ok(bytes.starts_with(head))
}

/// A record as it is read: its first data sector and its commands.
type Entry = (u64, Vec<Command<Global>>);

/// Whether a half of 39 sectors is read as these records: of each its first data sector, how many commands it has, and the last
/// one's sequence.
fn reads_as<D: Disk>(alloc: Global, disk: &mut D, form: Form, want: &[(u64, usize, u32)]) -> bool {
    if disk.sectors() < 39 {
        return false;
    }
    match Journal::replay(alloc, disk, made::place(0, 39, form)) {
        Ok((_, records)) => are(&records, want),
        Err(_) => false,
    }
}

fn are(records: &[Entry], want: &[(u64, usize, u32)]) -> bool {
    if records.len() != want.len() {
        return false;
    }
    for k in 0..want.len() {
        if !is(&records[k], &want[k]) {
            return false;
        }
    }
    true
}

fn is(record: &Entry, want: &(u64, usize, u32)) -> bool {
    let last = record.1.last().map(|command| command.sequence.number());
    record.0 == want.0 && record.1.len() == want.1 && last == Some(want.2)
}

/// Adds one record of one command.
fn add<D: Disk>(
    journal: &mut Journal<Global>,
    disk: &mut D,
    command: &Command<Global>,
) -> Result<(), JournalError>
    requires end { journal.old.end ≡ 39 }
    requires count { journal.old.count ≤ 100 }
    ensures end { journal.new.end ≡ 39 }
    ensures count { journal.new.count ≤ journal.old.count + 1 }
{
    if disk.sectors() < 39 {
        return Err(JournalError::NoMemory);
    }
    journal.append(disk, &[command])
}

/// Whether a half of 39 sectors is read as one record of a rule's command.
fn reads_the_rule<D: Disk>(alloc: Global, disk: &mut D, form: Form) -> bool {
    if disk.sectors() < 39 {
        return false;
    }
    match Journal::replay(alloc, disk, made::place(0, 39, form)) {
        Ok((_, records)) => records.len() == 1
            && records[0].1.len() == 1
            && is_the_rule(&records[0].1[0]),
        Err(_) => false,
    }
}

fn is_the_rule(command: &Command<Global>) -> bool {
    let (station, sequence) = (command.station.number(), command.sequence.number());
    let is_its_head = (station, sequence, command.moment.number()) == (1, 1, 0);
    match &command.body {
        Body::RuleSet { prefix, rule } => {
            let areas = (rule.low().number(), rule.high().number());
            is_its_head
                && prefix.len() == 24
                && prefix.bits() == 0x3a80_0e00_0000
                && areas == (1, 99)
                && rule.keep() == 3_600
        }
        _ => false,
    }
}

fn one_is_recorded<D: Disk>(
    alloc: Global,
    disk: &mut D,
    rule: &Command<Global>,
    form: Form,
) -> Result<bool, AllocError> {
    let mut journal = Journal::start(alloc, 0, 39, form, 0)?;
    let before = journal.room() == 37 && journal.used() == 0;
    let added = add(&mut journal, disk, rule).is_ok()
        && journal.room() == 35
        && journal.used() == 2;
    Ok(before && added && reads_the_rule(alloc, disk, form))
}

fn is_there<D: Disk>(disk: &mut D, text: &[u8]) -> Result<bool, DiskError> {
    Ok(begins(disk, 0, &[1])? && begins(disk, 1, text)? && begins(disk, 2, &[0; 512])?)
}

fn is_recorded(
    alloc: Global,
    rule: &Command<Global>,
    form: Form,
    text: &[u8],
) -> Result<bool, AllocError> {
    let mut disk = MemoryDisk::new(alloc, 39, 99)?;
    Ok(one_is_recorded(alloc, &mut disk, rule, form)? && is_there(&mut disk, text) == Ok(true))
}

#[test]
fn one_command_in_one_record(rt: HostRuntime) -> Result<(), Fail> {
    let rule = made::rule().ok_or("a rule")?;
    assert!(rt; is_recorded(rt.alloc(), &rule, Form::Plain, &RULE_TEXT)?);
    assert!(rt; is_recorded(rt.alloc(), &rule, Form::Numbered, &NUMBERED_TEXT)?);
    Ok(())
}

/// Whether a journal that starts again judges what is there, reads the one record of a rule's command, and stays at the closed
/// gate.
fn goes_through<D: Disk>(alloc: Global, disk: &mut D, form: Form) -> Option<bool> {
    if disk.sectors() < 39 {
        return None;
    }
    let mut journal = Journal::start(alloc, 0, 39, form, 0).ok()?;
    journal.judge_rest(disk).ok()?;
    let (at, commands) = journal.read_next(alloc, disk).ok()??;
    let is_read = at == 1 && commands.len() == 1 && is_the_rule(&commands[0]);
    let is_last = journal.read_next(alloc, disk).ok()?.is_none();
    Some(is_read && is_last && journal.room() == 35)
}

#[test]
fn records_are_read_one_by_one(rt: HostRuntime) -> Result<(), Fail> {
    let rule = made::rule().ok_or("a rule")?;
    let mut disk = MemoryDisk::new(rt.alloc(), 39, 99)?;
    assert!(rt; one_is_recorded(rt.alloc(), &mut disk, &rule, Form::Numbered)?);
    assert_eq!(rt;
        goes_through(rt.alloc(), &mut disk, Form::Numbered),
        Some(true)
    );
    Ok(())
}

/// Adds 19 records, and returns whether there is then no more room.
fn is_filled<D: Disk>(
    journal: &mut Journal<Global>,
    disk: &mut D,
    command: &Command<Global>,
) -> bool
    requires end { journal.old.end ≡ 39 }
    requires count { journal.old.count ≡ 0 }
    ensures end { journal.new.end ≡ 39 }
    ensures count { journal.new.count ≤ 100 }
{
    for _ in 0..19u64 {
        if add(journal, disk, command).is_err() {
            return false;
        }
    }
    journal.room() == 0
}

/// The records of a full half.
fn nineteen(alloc: Global) -> Result<Vec<(u64, usize, u32)>, AllocError> {
    let mut want = Vec::new(alloc);
    for k in 0..19 {
        want.push((2 * k + 1, 1, 3))?;
    }
    Ok(want)
}

fn is_full(alloc: Global, command: &Command<Global>) -> Result<bool, AllocError> {
    let mut disk = MemoryDisk::new(alloc, 39, 199)?;
    let mut journal = Journal::start(alloc, 0, 39, Form::Plain, 0)?;
    let filled = is_filled(&mut journal, &mut disk, command);
    let refused = add(&mut journal, &mut disk, command) == Err(JournalError::JournalFull);
    let untouched = disk.pending(alloc)?.is_empty() && journal.room() == 0;
    Ok(filled && refused && untouched && reads_as(alloc, &mut disk, Form::Plain, &nineteen(alloc)?))
}

#[test]
fn a_full_journal_writes_nothing(rt: HostRuntime) -> Result<(), Fail> {
    let expiry = made::expiry().ok_or("an expiry")?;
    assert!(rt; is_full(rt.alloc(), &expiry)?);
    Ok(())
}

/// Whether a record whose gate was written and not synced counts after a stop exactly where the stop leaves 1 in the gate.
fn counts(alloc: Global, rule: &Command<Global>, gate: u8) -> Result<bool, AllocError> {
    let mut disk = FailingDisk::new(MemoryDisk::new(alloc, 39, 99)?, 5, Failing::Once);
    let mut journal = Journal::start(alloc, 0, 39, Form::Plain, 0)?;
    let failed = add(&mut journal, &mut disk, rule) == Err(JournalError::DiskFault);
    let mut disk = disk.into_inner().crash(&[(0, [gate; 512])]);
    if gate == 1 {
        Ok(failed && reads_the_rule(alloc, &mut disk, Form::Plain))
    } else {
        Ok(failed && reads_as(alloc, &mut disk, Form::Plain, &[]))
    }
}

fn count_so(alloc: Global, rule: &Command<Global>) -> Result<bool, AllocError> {
    Ok(counts(alloc, rule, 0)? && counts(alloc, rule, 1)? && counts(alloc, rule, 77)?)
}

#[test]
fn a_record_counts_once_its_gate_is_open(rt: HostRuntime) -> Result<(), Fail> {
    let rule = made::rule().ok_or("a rule")?;
    assert!(rt; count_so(rt.alloc(), &rule)?);
    Ok(())
}

pub fn are_recorded<D: Disk>(
    alloc: Global,
    disk: &mut D,
    form: Form,
    commands: &[&Command<Global>],
) -> Result<bool, AllocError>
    requires some { 1 ≤ length commands.now }
    requires few { length commands.now ≤ 64 }
{
    let mut journal = Journal::start(alloc, 0, 39, form, 0)?;
    Ok(disk.sectors() >= 39 && journal.append(disk, commands).is_ok())
}

fn three_are_recorded(alloc: Global, form: Form, head: &[u8]) -> Result<bool, Fail> {
    let rule = made::rule().ok_or("a rule")?;
    let update = made::update(alloc).ok_or("an update")?;
    let expiry = made::expiry().ok_or("an expiry")?;
    let mut disk = MemoryDisk::new(alloc, 39, 99)?;
    let added = are_recorded(alloc, &mut disk, form, &[&rule, &update, &expiry])?;
    let begun = begins(&mut disk, 1, head) == Ok(true);
    Ok(added && begun && reads_as(alloc, &mut disk, form, &[(1, 3, 3)]))
}

#[test]
fn three_commands_in_one_record(rt: HostRuntime) -> Result<(), Fail> {
    assert!(rt; three_are_recorded(rt.alloc(), Form::Plain, &THREE_HEAD)?);
    assert!(rt; three_are_recorded(rt.alloc(), Form::Numbered, &NUMBERED_HEAD)?);
    Ok(())
}

/// Whether 64 of the longest commands are added, and read back.
fn longest_are_recorded(alloc: Global, form: Form) -> Result<bool, Fail> {
    let longest = made::longest(alloc).ok_or("a short data PDU")?;
    let mut disk = MemoryDisk::new(alloc, 39, 199)?;
    let added = are_recorded(alloc, &mut disk, form, &[&longest; 64])?;
    Ok(added && reads_as(alloc, &mut disk, form, &[(1, 64, 4)]))
}

#[test]
fn the_longest_commands_take_36_sectors(rt: HostRuntime) -> Result<(), Fail> {
    assert!(rt; longest_are_recorded(rt.alloc(), Form::Plain)?);
    assert!(rt; longest_are_recorded(rt.alloc(), Form::Numbered)?);
    Ok(())
}

/// Whether a half of so many sectors has room for a record of these commands.
fn has_room(
    alloc: Global,
    sectors: u32,
    form: Form,
    commands: &[&Command<Global>],
) -> Result<bool, AllocError>
    requires { length commands.now ≤ 64 }
{
    let journal = Journal::start(alloc, 0, u64::from(sectors), form, 0)?;
    Ok(journal.has_room(commands))
}

/// Whether one short command takes one data sector, and 64 of the longest take 36. Two more sectors are gates.
fn is_room_known(alloc: Global, form: Form) -> Result<bool, Fail> {
    let expiry = made::expiry().ok_or("an expiry")?;
    let longest = made::longest(alloc).ok_or("a short data PDU")?;
    let short = has_room(alloc, 3, form, &[&expiry])? && !has_room(alloc, 2, form, &[&expiry])?;
    let long = has_room(alloc, 38, form, &[&longest; 64])?
        && !has_room(alloc, 37, form, &[&longest; 64])?;
    Ok(short && long)
}

#[test]
fn room_is_known_before_an_append(rt: HostRuntime) -> Result<(), Fail> {
    assert!(rt; is_room_known(rt.alloc(), Form::Plain)?);
    assert!(rt; is_room_known(rt.alloc(), Form::Numbered)?);
    Ok(())
}
