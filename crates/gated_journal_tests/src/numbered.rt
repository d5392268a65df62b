//! Halves of layout 2: a record whose number does not follow is damage, and is found before any record is given.

use gated_journal::{Form, Journal, JournalError, Place, decode_record};
use sector_disk::{Disk, DiskError, MemoryDisk};
use std::alloc::{AllocError, Global};
use std::test::Fail;

/// A record of one command of 11 bytes, the first of all.
const NUMBERED: [u8; 25] = [
    0, 1, 0, 0, 0, 0, 0, 0, 0, 1, 0, 0, 0, 11, 0, 1, 0, 0, 0, 1, 0, 0, 0, 0, 6,
];

/// The same, in the plain form.
const PLAIN: [u8; 17] = [0, 1, 0, 0, 0, 11, 0, 1, 0, 0, 0, 1, 0, 0, 0, 0, 6];

fn plain() -> [u8; 512] {
    let mut bytes = [0; 512];
    for k in 0..17 {
        bytes[k] = PLAIN[k];
    }
    bytes
}

fn numbered(number: u8) -> [u8; 512] {
    let mut bytes = [0; 512];
    for k in 0..25 {
        bytes[k] = if k == 9 { number } else { NUMBERED[k] };
    }
    bytes
}

/// Writes two records into a half of six sectors.
fn put_both<D: Disk>(disk: &mut D, first: &[u8; 512], second: &[u8; 512]) -> Result<(), DiskError> {
    disk.write(0, &[1; 512])?;
    disk.write(1, first)?;
    disk.write(2, &[1; 512])?;
    disk.write(3, second)?;
    disk.write(4, &[0; 512])
}

/// Whether a half of six sectors, after so many accepted commands, is read as wanted: how many records, or the sector at fault.
fn is_read<D: Disk>(
    alloc: Global,
    disk: &mut D,
    form: Form,
    before: u8,
    want: Result<usize, u64>,
) -> bool {
    if disk.sectors() < 6 {
        return false;
    }
    let count = u64::from(before);
    let place = Place {
        first: 0,
        end: 6,
        next: 0,
        form,
        count,
    };
    match (Journal::replay(alloc, disk, place), want) {
        (Ok((_, records)), Ok(many)) => records.len() == many,
        (Err(JournalError::Damaged(at)), Err(fault)) => at == fault,
        _ => false,
    }
}

/// Whether a half of six sectors, after so many accepted commands, is judged as wanted.
fn is_judged<D: Disk>(
    alloc: Global,
    disk: &mut D,
    form: Form,
    before: u8,
    want: Result<usize, u64>,
) -> bool {
    if disk.sectors() < 6 {
        return false;
    }
    let Ok(mut journal) = Journal::start(alloc, 0, 6, form, u64::from(before)) else {
        return false;
    };
    match (journal.judge_rest(disk), want) {
        (Ok(()), Ok(_)) => true,
        (Err(JournalError::Damaged(at)), Err(fault)) => at == fault,
        _ => false,
    }
}

/// Whether a half with these two records is read and judged as wanted.
fn are_read(
    alloc: Global,
    form: Form,
    before: u8,
    records: [&[u8; 512]; 2],
    want: Result<usize, u64>,
) -> Result<bool, AllocError> {
    let mut disk = MemoryDisk::new(alloc, 6, 99)?;
    let written = put_both(&mut disk, records[0], records[1]).is_ok();
    let read = written && is_read(alloc, &mut disk, form, before, want);
    Ok(read && is_judged(alloc, &mut disk, form, before, want))
}

/// How many commands come before the half, the numbers of its two records, and what it is read as.
const ROWS: [(u8, [u8; 2], Result<usize, u64>); 8] = [
    (0, [1, 2], Ok(2)),
    (4, [5, 6], Ok(2)),
    // One too high, one too low, and 0.
    (4, [6, 7], Err(1)),
    (4, [4, 5], Err(1)),
    (4, [0, 1], Err(1)),
    (0, [1, 3], Err(3)),
    // The same record again, and an earlier one.
    (0, [1, 1], Err(3)),
    (4, [5, 4], Err(3)),
];

/// The first row that is read otherwise.
fn first_wrong(alloc: Global) -> Result<Option<usize>, AllocError> {
    for k in 0..8 {
        let (before, numbers, want) = ROWS[k];
        let records = [&numbered(numbers[0]), &numbered(numbers[1])];
        if !are_read(alloc, Form::Numbered, before, records, want)? {
            return Ok(Some(k));
        }
    }
    Ok(None)
}

#[test]
fn a_number_follows_or_is_damage(rt: HostRuntime) -> Result<(), Fail> {
    assert_eq!(rt; first_wrong(rt.alloc())?, None);
    Ok(())
}

/// Whether a plain record in a numbered half is damage, and the other way round.
fn is_other_form_damage(alloc: Global) -> Result<bool, AllocError> {
    let in_numbered = are_read(alloc, Form::Numbered, 0, [&plain(), &plain()], Err(1))?;
    let second = are_read(alloc, Form::Numbered, 0, [&numbered(1), &plain()], Err(3))?;
    let in_plain = are_read(alloc, Form::Plain, 0, [&numbered(1), &numbered(2)], Err(1))?;
    Ok(in_numbered && second && in_plain)
}

#[test]
fn a_record_of_the_other_form_is_damage(rt: HostRuntime) -> Result<(), Fail> {
    assert!(rt; is_other_form_damage(rt.alloc())?);
    Ok(())
}

/// What a record of one command states: the number of its first command, and how many there are.
fn stated(
    alloc: Global,
    form: Form,
    bytes: &[u8],
) -> Result<Option<(Option<u64>, usize)>, AllocError> {
    match decode_record(alloc, form, bytes)? {
        None => Ok(None),
        Some(record) => Ok(Some((record.first, record.commands.len()))),
    }
}

fn are_stated(alloc: Global) -> Result<bool, AllocError> {
    let numbered = numbered(9);
    let plain = plain();
    let number = stated(alloc, Form::Numbered, &numbered)? == Some((Some(9), 1));
    let none = stated(alloc, Form::Plain, &plain)? == Some((None, 1));
    let neither = stated(alloc, Form::Plain, &numbered)?.is_none();
    Ok(number && none && neither && stated(alloc, Form::Numbered, &plain)?.is_none())
}

#[test]
fn a_record_states_its_number(rt: HostRuntime) -> Result<(), Fail> {
    assert!(rt; are_stated(rt.alloc())?);
    Ok(())
}
