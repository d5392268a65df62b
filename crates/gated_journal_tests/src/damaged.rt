//! Halves that no journal left. Each is read up to the first sector at fault, and that sector is reported.

use crate::made;
use gated_journal::{Form, Journal, JournalError, decode_record};
use linked_list_allocator::LocalHeap;
use sector_disk::{Disk, DiskError, MemoryDisk};
use std::alloc::{AllocError, Global};
use std::test::Fail;

/// A half of four sectors: how its first gate begins, the text after that with the byte `byte` at the place `at`, and byte 0 of
/// the next gate. Then what the half is read as: how many records, or the sector at fault.
struct Row {
    gate: [u8; 2],
    text: [u8; 32],
    at: usize,
    byte: u8,
    next: u8,
    want: Result<usize, u64>,
}

const OPEN: [u8; 2] = [1, 0];

/// A record of one command of 11 bytes.
const ONE: [u8; 32] = [
    0, 1, 0, 0, 0, 11, 0, 1, 0, 0, 0, 1, 0, 0, 0, 0, 6, 0, 0, 0, 0, 0, 0, 0, 0, 0, 0, 0, 0, 0, 0, 0,
];

/// A record of two such commands.
const TWO: [u8; 32] = [
    0, 2, 0, 0, 0, 22, 0, 1, 0, 0, 0, 1, 0, 0, 0, 0, 6, 0, 1, 0, 0, 0, 2, 0, 0, 0, 0, 6, 0, 0, 0, 0,
];

/// A record of 64 commands, of 1,035 bytes.
const MANY: [u8; 32] = [
    0, 64, 0, 0, 4, 11, 0, 1, 0, 0, 0, 1, 0, 0, 0, 0, 6, 0, 0, 0, 0, 0, 0, 0, 0, 0, 0, 0, 0, 0, 0,
    0,
];

const ROWS: [Row; 17] = [
    // A closed gate, by 0 and by another byte.
    Row {
        gate: [0, 0],
        text: ONE,
        at: 0,
        byte: 0,
        next: 0,
        want: Ok(0),
    },
    Row {
        gate: [2, 0],
        text: ONE,
        at: 0,
        byte: 0,
        next: 1,
        want: Ok(0),
    },
    // An open one, whatever follows byte 0.
    Row {
        gate: OPEN,
        text: ONE,
        at: 0,
        byte: 0,
        next: 0,
        want: Ok(1),
    },
    Row {
        gate: [1, 9],
        text: ONE,
        at: 0,
        byte: 0,
        next: 77,
        want: Ok(1),
    },
    Row {
        gate: OPEN,
        text: TWO,
        at: 0,
        byte: 0,
        next: 0,
        want: Ok(1),
    },
    // No command, 65 of them, and more bytes than one can have.
    Row {
        gate: OPEN,
        text: ONE,
        at: 1,
        byte: 0,
        next: 0,
        want: Err(1),
    },
    Row {
        gate: OPEN,
        text: ONE,
        at: 1,
        byte: 65,
        next: 0,
        want: Err(1),
    },
    Row {
        gate: OPEN,
        text: ONE,
        at: 4,
        byte: 2,
        next: 0,
        want: Err(1),
    },
    // The next gate would be after the half.
    Row {
        gate: OPEN,
        text: MANY,
        at: 0,
        byte: 0,
        next: 0,
        want: Err(1),
    },
    Row {
        gate: OPEN,
        text: MANY,
        at: 2,
        byte: 255,
        next: 0,
        want: Err(1),
    },
    // A byte after the commands, and one that the length counts as theirs.
    Row {
        gate: OPEN,
        text: ONE,
        at: 17,
        byte: 1,
        next: 0,
        want: Err(1),
    },
    Row {
        gate: OPEN,
        text: ONE,
        at: 5,
        byte: 12,
        next: 0,
        want: Err(1),
    },
    // A tag that no command has, and a sequence of 0.
    Row {
        gate: OPEN,
        text: ONE,
        at: 16,
        byte: 9,
        next: 0,
        want: Err(1),
    },
    Row {
        gate: OPEN,
        text: ONE,
        at: 11,
        byte: 0,
        next: 0,
        want: Err(1),
    },
    // Two commands stated as one, and one stated as two.
    Row {
        gate: OPEN,
        text: TWO,
        at: 1,
        byte: 1,
        next: 0,
        want: Err(1),
    },
    Row {
        gate: OPEN,
        text: ONE,
        at: 1,
        byte: 2,
        next: 0,
        want: Err(1),
    },
    // An open gate after a record, with a record of no command after it.
    Row {
        gate: OPEN,
        text: ONE,
        at: 0,
        byte: 0,
        next: 1,
        want: Err(3),
    },
];

fn gate(prefix: [u8; 2]) -> [u8; 512] {
    let mut bytes = [0; 512];
    bytes[0] = prefix[0];
    bytes[1] = prefix[1];
    bytes
}

/// A sector that begins with a text, with another byte at a place from 1 on.
fn text(prefix: &[u8; 32], at: usize, byte: u8) -> [u8; 512] {
    let mut bytes = [0; 512];
    for k in 0..32 {
        bytes[k] = if k == at && 0 < k { byte } else { prefix[k] };
    }
    bytes
}

/// Writes a row's half.
fn put_half<D: Disk>(disk: &mut D, row: &Row) -> Result<(), DiskError> {
    disk.write(0, &gate(row.gate))?;
    disk.write(1, &text(&row.text, row.at, row.byte))?;
    disk.write(2, &gate([row.next, 0]))?;
    disk.write(3, &[0; 512])
}

/// Whether a row's half is read as the row states.
fn is_read<D: Disk>(alloc: Global, disk: &mut D, row: &Row) -> bool {
    if put_half(disk, row).is_err() || disk.sectors() < 4 {
        return false;
    }
    match (
        Journal::replay(alloc, disk, made::place(0, 4, Form::Plain)),
        row.want,
    ) {
        (Ok((_, records)), Ok(count)) => records.len() == count,
        (Err(JournalError::Damaged(at)), Err(fault)) => at == fault,
        _ => false,
    }
}

/// Whether a row's half is judged as it is read.
fn is_judged<D: Disk>(alloc: Global, disk: &mut D, row: &Row) -> bool {
    if disk.sectors() < 4 {
        return false;
    }
    let Ok(mut journal) = Journal::start(alloc, 0, 4, Form::Plain, 0) else {
        return false;
    };
    match (journal.judge_rest(disk), row.want) {
        (Ok(()), Ok(_)) => true,
        (Err(JournalError::Damaged(at)), Err(fault)) => at == fault,
        _ => false,
    }
}

/// The first row that is read or judged otherwise.
fn first_wrong(alloc: Global) -> Result<Option<usize>, AllocError> {
    let mut disk = MemoryDisk::new(alloc, 4, 999)?;
    for k in 0..17 {
        if !is_read(alloc, &mut disk, &ROWS[k]) || !is_judged(alloc, &mut disk, &ROWS[k]) {
            return Ok(Some(k));
        }
    }
    Ok(None)
}

#[test]
fn a_half_is_read_up_to_its_first_fault(rt: HostRuntime) -> Result<(), Fail> {
    assert_eq!(rt; first_wrong(rt.alloc())?, None);
    Ok(())
}

/// Whether an open gate in a half's last sector is damage.
fn is_last_damaged(alloc: Global) -> Result<bool, AllocError> {
    let mut disk = MemoryDisk::new(alloc, 1, 9)?;
    if disk.write(0, &[1; 512]).is_err() || disk.sectors() < 1 {
        return Ok(false);
    }
    Ok(matches!(
        Journal::replay(alloc, &mut disk, made::place(0, 1, Form::Plain)),
        Err(JournalError::Damaged(0))
    ))
}

#[test]
fn an_open_gate_in_the_last_sector_is_damage(rt: HostRuntime) -> Result<(), Fail> {
    assert!(rt; is_last_damaged(rt.alloc())?);
    Ok(())
}

/// How many bytes of a record there are, and the byte `byte` at the place `at`; then how many commands they are read as.
const TEXTS: [(usize, usize, u8, Option<usize>); 8] = [
    (0, 0, 0, None),
    (5, 0, 0, None),
    (16, 0, 0, None),
    (17, 0, 0, Some(1)),
    (32, 0, 0, Some(1)),
    (32, 31, 8, None),
    (17, 1, 0, None),
    (17, 16, 9, None),
];

/// The first text that is read otherwise.
fn first_misread(alloc: Global) -> Result<Option<usize>, AllocError> {
    for k in 0..8 {
        let (len, at, byte, want) = TEXTS[k];
        let sector = text(&ONE, at, byte);
        let Some(bytes) = sector.get(..len) else {
            return Ok(Some(k));
        };
        let found = decode_record(alloc, Form::Plain, bytes)?.map(|record| record.commands.len());
        if found != want {
            return Ok(Some(k));
        }
    }
    Ok(None)
}

#[test]
fn a_record_is_read_from_its_bytes(rt: HostRuntime) -> Result<(), Fail> {
    assert_eq!(rt; first_misread(rt.alloc())?, None);
    Ok(())
}

/// The first text that is not refused as it should be in a heap with no room: only a record's bytes take memory.
fn first_wrongly_refused(alloc: Global) -> Result<Option<usize>, Fail> {
    let heap = LocalHeap::new(alloc, 64)?;
    for k in 0..8 {
        let (len, at, byte, want) = TEXTS[k];
        let sector = text(&ONE, at, byte);
        let Some(bytes) = sector.get(..len) else {
            return Ok(Some(k));
        };
        let is_right = match decode_record(&heap, Form::Plain, bytes) {
            Ok(found) => found.is_none() && want.is_none(),
            Err(_) => want.is_some(),
        };
        if !is_right {
            return Ok(Some(k));
        }
    }
    Ok(None)
}

#[test]
fn only_a_record_takes_memory(rt: HostRuntime) -> Result<(), Fail> {
    assert_eq!(rt; first_wrongly_refused(rt.alloc())?, None);
    Ok(())
}
