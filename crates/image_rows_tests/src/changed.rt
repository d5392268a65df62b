//! Each byte of a worked row changed: refused, or another row.
use crate::rows::{again, sector};
use std::alloc::{AllocError, Global};

/// A row's bytes; then the outcome of each byte with its first bit changed, and with its last bit changed. `r`: no row is
/// read. `t`: another row is read, and written as these bytes. `s`: a row is read that is written as others, since it ends
/// earlier or is a header of layout 1. Written by hand from the table.
const CHANGED: &str = "\
16 0000000000000001 0000000000000000 00000000 00000000 00000000 00000000|r rttttttt tttttttt tttt tttt tttt tttt|r tttttttr tttttttt tttt tttt tttt tttt
11 18 3a800e000000 0001 0063 01 00000e10|r r tttrrr rr rt r tttt|s t tttrrr rt tt t tttt
12 3a800e0007d1 0001 0007 01 01 3a800e0003e8 13|r tttttt tt rt r r tttttt r|r tttttt tt tt t s tttttt t
13 0000000000000008 0000000000000e74 3a800e0007d2 3a800e0007d1 05 00 0030 820405014849|\
r tttttttt rrrrtttt tttttt tttttt r r rt rrrttt|s tttttttt rrrttttt tttttt tttttt r r tt trrttt
15 0000000000000006 0000000000000e74 3a800e0007d2 3a800e0007d1 05 00 3a800e0003e8 0030 820405014849|\
r tttttttt rrrrtttt tttttt tttttt r r tttttt rt rrrttt|r tttttttt rrrttttt tttttt tttttt r r tttttt tt trrttt
14 0001 00000002 0000000000000002 0008 56|r tt tttt tttttttt rt t|r tt tttt tttttttt tt t";

/// The outcome of these bytes, as a letter.
fn letter(alloc: Global, bytes: &[u8]) -> Result<u8, AllocError> {
    match again(alloc, bytes)? {
        None => Ok(b'r'),
        Some(row) => Ok(if row.as_slice() == bytes { b't' } else { b's' }),
    }
}

/// The outcome of the sector with its byte at this place changed by the mask, as a letter.
fn changed(alloc: Global, text: &str, place: usize, mask: u8) -> Result<u8, AllocError> {
    let mut bytes = sector(alloc, text, 0)?;
    if let Some(byte) = bytes.get_mut(place) {
        *byte ^= mask;
    }
    let letter = letter(alloc, &bytes);
    drop(bytes);
    letter
}

/// How many bytes, from the first on, have the outcome that their letter names.
fn right(alloc: Global, text: &str, letters: &str, mask: u8) -> Result<usize, AllocError> {
    let mut place = 0;
    for expected in letters.bytes() {
        if expected != b' ' {
            if changed(alloc, text, place, mask)? != expected {
                return Ok(place);
            }
            place = place.saturating_add(1);
        }
    }
    Ok(place)
}

/// How many digits a text has, in pairs.
fn len(text: &str) -> usize {
    text.bytes().filter(|byte| *byte != b' ').count() / 2
}

fn is_right(alloc: Global, row: &str) -> bool {
    let Some((text, letters)) = row.split_once('|') else {
        return false;
    };
    let Some((first, last)) = letters.split_once('|') else {
        return false;
    };
    let all = Ok(len(text));
    right(alloc, text, first, 128) == all && right(alloc, text, last, 1) == all
}

fn first_wrong(alloc: Global) -> Option<&'static str> {
    for row in CHANGED.lines() {
        if !is_right(alloc, row) {
            return Some(row);
        }
    }
    None
}

#[test]
fn each_byte_counts(rt: HostRuntime) {
    assert_eq!(rt; first_wrong(rt.alloc()), None);
}
