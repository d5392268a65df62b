//! A register's rows, taken one after another and all together.
use crate::loaded::{is_accepted, row};
use crate::rows::again;
use centre_core::Register;
use identity::{Itsi, Prefix};
use image_rows::{RowPlace, row_after, rows};
use linked_list_allocator::LocalHeap;
use mailbox::{Key, Kind};
use registration::{Limits, Station};
use sds_tl::MessageReference;
use std::alloc::Global;

/// Commands of stations 1 and 3.
const COMMANDS: &str = "\
0001 00000001 00000000 01 18 3a800e000000 0001 0063 01 00000e10=a rule
0001 00000002 00000000 01 00 000000000000 0000 3fff 03 ffffffff=a rule for all
0001 00000003 0000000a 03 3a800e0007d1 0007 000a 2600=radio 2001 comes
0001 00000004 00000014 03 3a800e0007d1 0007 003c 7380480a00007d00=and attaches to group 1000
0003 00000001 00000015 03 3a800e0007d2 0007 000a 2600=radio 2002 comes
0003 00000002 00000016 03 3a800e0007d2 0007 003c 7380480a00007d00=and attaches to group 1000
0001 00000005 00000064 04 3a800e0007d1 3a800e0007d2 0030 820405014849=a message to radio 2002
0003 00000003 00000065 08 3a800e0007d2 3a800e0003e8 0030 820406014849=a message to group 1000
0001 00000006 00000066 04 3a800e0007d1 3a800e0007d2 0030 820409014849=another message to radio 2002
0003 00000004 00000067 04 3a800e0007d2 3a800e0007d1 0020 82100005=a report, which ends the first message
0003 00000005 0000006e 03 3a800e0007d2 0007 000a 2000=radio 2002 comes once more";

/// The rows of the register after them in its image of epoch 1, put together by hand.
const ROWS: &str = "\
16 0000000000000001 000000000000000b 00000002 00000002 00000003 00000002=the header
11 00 000000000000 0000 3fff 03 ffffffff=the rule for all
11 18 3a800e000000 0001 0063 01 00000e10=the other rule
12 3a800e0007d1 0001 0007 01 01 3a800e0003e8 11=radio 2001
12 3a800e0007d2 0003 0007 01 01 3a800e0003e8 11=radio 2002
15 0000000000000008 0000000000000e75 3a800e0007d1 3a800e0007d2 06 00 3a800e0003e8 0030 820406014849=the copy for radio 2001
13 0000000000000009 0000000000000e76 3a800e0007d2 3a800e0007d1 09 00 0030 820409014849=the message for radio 2002
13 000000000000000a 0000000000000e77 3a800e0007d1 3a800e0007d2 05 01 0020 82100005=the report for radio 2001
14 0001 00000006 0000000000000009 0000=station 1
14 0003 00000005 000000000000000b 0008 50=station 3";

/// The only row of a new register in its image of epoch 1.
const EMPTY: &str = "16 0000000000000001";

/// Whether each of the commands was accepted.
fn are_accepted(alloc: Global, register: &mut Register<Global>) -> bool {
    for line in COMMANDS.lines() {
        let Some((command, _)) = line.split_once('=') else {
            return false;
        };
        if !is_accepted(alloc, register, command) {
            return false;
        }
    }
    true
}

/// Whether the row has these bytes, and is read as a row that has them.
fn is_row(alloc: Global, bytes: [u8; 512], line: &str) -> bool {
    let Some((text, _)) = line.split_once('=') else {
        return false;
    };
    again(alloc, &bytes) == Ok(Some(bytes)) && row(alloc, text) == Some(bytes)
}

/// The place of the row after this place, if it is the row of this line.
fn next_in(
    alloc: Global,
    register: &Register<Global>,
    after: Option<RowPlace>,
    line: &str,
) -> Option<RowPlace> {
    let found = row_after(register, 1, after);
    let Some(next) = &found else {
        return None;
    };
    is_row(alloc, next.1, line).then_some(next.0)
}

/// Whether a walk from the first row, and from each to the next, gives these rows and no more.
fn are_walked(alloc: Global, register: &Register<Global>) -> bool {
    let mut after = None;
    for line in ROWS.lines() {
        match next_in(alloc, register, after, line) {
            Some(place) => after = Some(place),
            None => return false,
        }
    }
    row_after(register, 1, after).is_none()
}

/// Whether these are the rows.
fn are_rows(alloc: Global, list: &[[u8; 512]]) -> bool {
    for (row, line) in list.iter().zip(ROWS.lines()) {
        if !is_row(alloc, *row, line) {
            return false;
        }
    }
    list.len() == ROWS.lines().count()
}

/// Whether the list has these rows.
fn are_listed(alloc: Global, register: &Register<Global>) -> bool {
    match rows(register, 1, alloc) {
        Ok(list) => are_rows(alloc, &list),
        Err(_) => false,
    }
}

/// Whether the row after the place has this name; whether there is none, if no row has it.
fn is_followed_by(
    alloc: Global,
    register: &Register<Global>,
    after: Option<RowPlace>,
    name: &str,
) -> bool {
    match ROWS.lines().find(|line| line.ends_with(name)) {
        Some(line) => after.is_some() && next_in(alloc, register, after, line).is_some(),
        None => after.is_some() && row_after(register, 1, after).is_none(),
    }
}

fn rule_place(bits: u64, len: u32) -> Option<RowPlace> {
    Some(RowPlace::Rule(Prefix::new(bits, len)?))
}

/// The place of the radio of the network 234-14 with this short number.
fn radio_place(ssi: u32) -> Option<RowPlace> {
    Some(RowPlace::Radio(Itsi::new(234, 14, ssi)?))
}

/// The place of an item from radio 2001 to radio 2002.
fn mail_place(number: u64, reference: u8) -> Option<RowPlace> {
    let key = Key {
        destination: Itsi::new(234, 14, 2002)?,
        source: Itsi::new(234, 14, 2001)?,
        reference: MessageReference::new(reference),
        kind: Kind::Message,
    };
    Some(RowPlace::Mail(number, key))
}

/// The place of a station's row.
fn served_place(number: u16) -> Option<RowPlace> {
    Some(RowPlace::Served(Station::new(number)))
}

/// Whether a walk goes on from places that have no row.
fn goes_on(alloc: Global, register: &Register<Global>) -> bool {
    is_followed_by(
        alloc,
        register,
        rule_place(0x3a80_0e00_0000, 23),
        "the other rule",
    ) && is_followed_by(
        alloc,
        register,
        rule_place(0x3a80_0e00_07d1, 48),
        "=radio 2001",
    ) && is_followed_by(alloc, register, radio_place(2000), "=radio 2001")
        && is_followed_by(
            alloc,
            register,
            radio_place(2003),
            "the copy for radio 2001",
        )
        && is_followed_by(
            alloc,
            register,
            mail_place(8, 0),
            "the message for radio 2002",
        )
        && is_followed_by(
            alloc,
            register,
            mail_place(9, 8),
            "the message for radio 2002",
        )
        && is_followed_by(
            alloc,
            register,
            mail_place(9, 10),
            "the report for radio 2001",
        )
        && is_followed_by(alloc, register, mail_place(11, 0), "station 1")
        && is_followed_by(alloc, register, served_place(2), "station 3")
        && is_followed_by(alloc, register, served_place(u16::MAX), "none")
}

/// Whether the rows are listed under this heap, or nothing where memory runs out.
fn is_done<'a>(heap: &'a LocalHeap, register: &Register<Global>) -> Option<bool> {
    let Ok(list) = rows(register, 1, heap) else {
        return None;
    };
    Some(list.len() == 10)
}

/// Whether a heap of this size has memory for the rows; nothing where that goes wrong, or leaves some of it in use.
fn is_done_in(alloc: Global, size: usize, register: &Register<Global>) -> Option<bool> {
    let heap = LocalHeap::new(alloc, size).ok()?;
    let done = is_done(&heap, register);
    (heap.used() == 0 && done != Some(false)).then_some(done.is_some())
}

/// How many heaps were too small before the rows were listed.
fn refused(alloc: Global, register: &Register<Global>) -> Option<usize> {
    for k in 0..40 {
        if is_done_in(alloc, 512 * k, register)? {
            return Some(k);
        }
    }
    None
}

/// Whether the list of a new register's rows is its header.
fn is_header(alloc: Global, register: &Register<Global>) -> bool {
    let (Ok(list), Some(header)) = (rows(register, 1, alloc), row(alloc, EMPTY)) else {
        return false;
    };
    list.as_slice() == [header].as_slice()
}

fn are_its_rows(alloc: Global, register: &mut Register<Global>) -> bool {
    is_header(alloc, register)
        && are_accepted(alloc, register)
        && are_walked(alloc, register)
        && are_listed(alloc, register)
        && goes_on(alloc, register)
        && refused(alloc, register).is_some_and(|heaps| heaps > 9)
}

/// Whether a register gives its rows, before and after the commands.
fn are_given(alloc: Global) -> Option<bool> {
    let mut register = Register::new(alloc, Limits::new(16, 16, 256, 4)?).ok()?;
    let are_its_rows = are_its_rows(alloc, &mut register);
    drop(register);
    Some(are_its_rows)
}

#[test]
fn each_row_comes_once(rt: HostRuntime) {
    assert!(rt; are_given(rt.alloc()) == Some(true));
}
