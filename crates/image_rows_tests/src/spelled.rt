//! Each worked row is read, whatever follows it, and written as its bytes; other bytes are no row.
use crate::loaded::row;
use crate::rows::{again, sector};
use std::alloc::{AllocError, Global};

/// The bytes of rows, put together from the table by hand.
const ROWS: &str = "\
16 0000000000000001 0000000000000000 00000000 00000000 00000000 00000000=after a format
16 4000000000000000 4000000000000000 00001000 00010000 00010000 00000040=the greatest numbers
16 0000000000000002 ffffffffffffffff ffffffff ffffffff ffffffff ffffffff=more than any register has
11 18 3a800e000000 0001 0063 01 00000e10=a rule
11 00 000000000000 0000 3fff 03 ffffffff=a rule for all
11 30 3a800e0007d1 0007 0007 00 00000000=a rule for one
12 3a800e0007d1 0001 0007 01 01 3a800e0003e8 13=a radio in a group, class 4, lifetime 3
12 3a800e0007d2 0040 3fff 00 00=a radio that left
12 000000000000 0000 0000 01 02 000000000000 00 ffffffffffff 1f=the least and the greatest group
13 0000000000000008 0000000000000e74 3a800e0007d2 3a800e0007d1 05 00 0030 820405014849=a message
13 4000000000000000 00000001fffffffe 3a800e0007d2 3a800e0007d1 05 01 0020 82180005=a report
13 0000000000000001 0000000000000000 000000000000 ffffffffffff ff 00 0018 ff00ff=a message of no text
15 0000000000000006 0000000000000e74 3a800e0007d2 3a800e0007d1 05 00 3a800e0003e8 0030 820405014849=a copy
14 0001 00000002 0000000000000002 0008 56=a reply
14 0040 ffffffff 4000000000000000 0000=a reply without a PDU";

/// Bytes that are no row.
const OTHERS: &str = "\
00 0000000000000001=a header with tag 0
0f 0000000000000001=a header with tag 15
17 0000000000000001=a header with tag 23
ff 0000000000000001=a header with tag 255
16 0000000000000000 0000000000000000 00000000 00000000 00000000 00000000=epoch 0
16 4000000000000001 0000000000000000 00000000 00000000 00000000 00000000=an epoch above the last
11 18 3a800e000000 0064 0063 01 00000e10=low above high
11 31 3a800e0007d1 0001 0063 01 00000e10=a prefix of 49 bits
12 3a800e0007d1 0001 0007 02 00=neither present nor absent
12 3a800e0007d1 0001 4000 01 00=area 16384
12 3a800e0007d1 0001 0007 01 48=more groups than a sector holds
12 3a800e0007d1 0001 0007 01 01 3a800e0003e8 20=class 8
13 0000000000000008 00000001ffffffff 3a800e0007d2 3a800e0007d1 05 00 0030 820405014849=a deadline above the latest
13 0000000000000008 0000000000000e74 3a800e0007d2 3a800e0007d1 05 02 0030 820405014849=kind 2
13 0000000000000008 0000000000000e74 3a800e0007d2 3a800e0007d1 05 01 0030 820405014849=a message under the key of a report
13 0000000000000008 0000000000000e74 3a800e0007d2 3a800e0007d1 05 00 0020 82100005=a report under the key of a message
13 0000000000000008 0000000000000e74 3a800e0007d2 3a800e0007d1 05 01 0020 82200005=an acknowledgement
15 0000000000000008 0000000000000e74 3a800e0007d2 3a800e0007d1 05 01 3a800e0003e8 0020 82100005=a copy of a report
13 0000000000000008 0000000000000e74 3a800e0007d2 3a800e0007d1 05 01 0018 821000=a report cut short
13 0000000000000008 0000000000000e74 3a800e0007d2 3a800e0007d1 05 00 0000=no PDU
13 0000000000000008 0000000000000e74 3a800e0007d2 3a800e0007d1 05 00 0800 820405=a PDU of 2048 bits
14 0001 00000000 0000000000000002 0008 56=sequence 0
14 0001 00000002 0000000000000002 0801 56=a reply of 2049 bits
14 0001 00000002 0000000000000002 0007 57=a padding bit";

/// Headers of layout 1, and as they are written.
const PLAIN: &str = "\
10 0000000000000001 0000000000000000 00000000 00000000 00000000 00000000=16 0000000000000001 0000000000000000 00000000 00000000 00000000 00000000
10 4000000000000000 4000000000000000 00001000 00010000 00010000 00000040=16 4000000000000000 4000000000000000 00001000 00010000 00010000 00000040";

/// Rows with reserved bits 1, and as they are written.
const RESERVED: &str = "\
13 0000000000000009 0000000000000e74 3a800e0007d1 3a800e0007d2 05 01 0020 82160005=\
13 0000000000000009 0000000000000e74 3a800e0007d1 3a800e0007d2 05 01 0020 82100005
13 0000000000000009 0000000000000e74 3a800e0007d1 3a800e0007d2 05 01 0028 821a0205ff=\
13 0000000000000009 0000000000000e74 3a800e0007d1 3a800e0007d2 05 01 0028 82180205ff";

/// Whether the sector of one text, with this byte after it, is read and written as the sector of the other.
fn is_written(alloc: Global, text: &str, following: u8, other: &str) -> bool {
    let (Some(row), Some(expected)) = (written(alloc, text, following), row(alloc, other)) else {
        return false;
    };
    row == Some(expected)
}

/// What is written again of the sector of a text with this byte after it; nothing where memory runs out.
fn written(alloc: Global, text: &str, following: u8) -> Option<Option<[u8; 512]>> {
    let bytes = sector(alloc, text, following).ok()?;
    again(alloc, &bytes).ok()
}

/// What the text before a `=` is.
#[derive(Clone, Copy)]
enum Form {
    Row,
    Other,
    /// It is written as the text after the `=`.
    Rewritten,
}

fn is_right(alloc: Global, form: Form, line: &str) -> bool {
    let Some((text, rest)) = line.split_once('=') else {
        return false;
    };
    match form {
        Form::Row => is_written(alloc, text, 0, text) && is_written(alloc, text, 255, text),
        Form::Other => written(alloc, text, 0) == Some(None),
        Form::Rewritten => is_written(alloc, text, 0, rest),
    }
}

/// The first line whose text is of another form.
fn first_wrong(alloc: Global, form: Form, lines: &'static str) -> Option<&'static str> {
    for line in lines.lines() {
        if !is_right(alloc, form, line) {
            return Some(line);
        }
    }
    None
}

/// A message of so many bits, all after its reference 0.
fn message(alloc: Global, bits: u16) -> Result<Vec<u8>, AllocError> {
    let mut bytes = sector(
        alloc,
        "13 0000000000000008 0000000000000e74 3a800e0007d2 3a800e0007d1 05 00 0000 820405",
        0,
    )?;
    for (place, byte) in bits.to_be_bytes().iter().enumerate() {
        if let Some(to) = bytes.get_mut(31 + place) {
            *to = *byte;
        }
    }
    Ok(bytes)
}

/// Whether a message of so many bits is written as its bytes, if it is read; nothing where memory runs out.
fn is_message(alloc: Global, bits: u16) -> Option<Option<bool>> {
    let bytes = message(alloc, bits).ok()?;
    match again(alloc, &bytes) {
        Ok(Some(row)) => Some(Some(row.as_slice() == bytes.as_slice())),
        Ok(None) => Some(None),
        Err(_) => None,
    }
}

#[test]
fn rows_have_these_bytes(rt: HostRuntime) {
    assert_eq!(rt; first_wrong(rt.alloc(), Form::Row, ROWS), None);
}

#[test]
fn other_bytes_are_no_row(rt: HostRuntime) {
    assert_eq!(rt; first_wrong(rt.alloc(), Form::Other, OTHERS), None);
}

#[test]
fn reserved_bits_are_taken_for_0(rt: HostRuntime) {
    assert_eq!(rt; first_wrong(rt.alloc(), Form::Rewritten, RESERVED), None);
}

#[test]
fn headers_of_layout_1_are_read(rt: HostRuntime) {
    assert_eq!(rt; first_wrong(rt.alloc(), Form::Rewritten, PLAIN), None);
}

#[test]
fn an_item_has_at_most_2047_bits(rt: HostRuntime) {
    let alloc = rt.alloc();
    assert!(rt;
        is_message(alloc, 2047) == Some(Some(true)) && is_message(alloc, 2048) == Some(None)
    );
}
