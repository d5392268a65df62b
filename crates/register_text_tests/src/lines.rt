//! Each worked row is printed as its line, and its line is parsed as its row; other texts are no line.
use image_rows::read_row;
use register_text::{parse_row, print_row};
use std::alloc::{AllocError, Global};

/// Rows as bytes, and their lines, both written by hand.
const ROWS: &str = "\
16 0000000000000001 0000000000000008 00000001 00000002 00000003 00000004=count 8 rules 1 radios 2 items 3 stations 4
16 0000000000000001 4000000000000000 00001000 00010000 00010000 00000040=count 4611686018427387904 rules 4096 radios 65536 items 65536 stations 64
11 18 3a800e000000 0001 0063 01 00000e10=rule 234-14-0/24 1 99 1 3600
11 00 000000000000 0000 3fff 03 ffffffff=rule 0-0-0/0 0 16383 3 4294967295
11 30 3a800e0007d1 0007 0007 00 00000000=rule 234-14-2001/48 7 7 0 0
12 3a800e0007d1 0001 0007 01 01 3a800e0003e8 13=radio 234-14-2001 station 1 la 7 present 234-14-1000 4 3
12 3a800e0007d2 0040 3fff 00 00=radio 234-14-2002 station 64 la 16383 absent
12 000000000000 0000 0000 01 02 000000000000 00 ffffffffffff 1f=radio 0-0-0 station 0 la 0 present 0-0-0 0 0 1023-16383-16777215 7 3
13 0000000000000008 0000000000000e74 3a800e0007d2 3a800e0007d1 05 00 0030 820405014849=item 8 234-14-2002 m 234-14-2001 5 3700 48:820405014849
13 4000000000000000 00000001fffffffe 3a800e0007d2 3a800e0007d1 ff 01 0020 821800ff=item 4611686018427387904 234-14-2002 r 234-14-2001 255 8589934590 32:821800FF
15 0000000000000006 0000000000000e74 3a800e0007d2 3a800e0007d1 05 00 3a800e0003e8 0030 820405014849=\
item 6 234-14-2002 m 234-14-2001 5 3700 48:820405014849 234-14-1000
14 0001 00000002 0000000000000002 0008 56=last 1 2 2 8:56
14 0002 00000003 0000000000000004 0003 a0=last 2 3 4 3:A
14 0040 ffffffff 4000000000000000 0000=last 64 4294967295 4611686018427387904 -";

/// Texts that are no row's line.
const OTHERS: &str = "\
count
count 08 rules 1 radios 2 items 3 stations 4
count 8 rules 1 radios 2 items 3 stations 4294967296
count 8 rule 1 radios 2 items 3 stations 4
count 8 rules 1 radios 2 items 3 stations 4 5
counts 8 rules 1 radios 2 items 3 stations 4
Rule 234-14-0/24 1 99 1 3600
rule 234-14-0/24 99 1 1 3600
rule 234-14-1/24 1 99 1 3600
rule 234-14-0/24 1 16384 1 3600
rule 234-14-0/24 1 99 4 3600
rule 234-14-0/24 1 99 1 4294967296
rule  234-14-0/24 1 99 1 3600
rule 234-14-0/24 1 99 1 3600 ~
 rule 234-14-0/24 1 99 1 3600
rule 234-14-0/24 1 99 1
radio 234-14-2001 station 1 la 7 gone
radio 234-14-2001 station 1 la 16384 present
radio 234-14-2001 station 65536 la 7 present
radio 234-14-2001 area 1 la 7 present
radio 234-14-2001 station 1 la 7 present 234-14-1000
radio 234-14-2001 station 1 la 7 present 234-14-1000 4
radio 234-14-2001 station 1 la 7 present 234-14-1000 8 3
radio 234-14-2001 station 1 la 7 present 234-14-1000 4 4
radio 1024-14-2001 station 1 la 7 present
item 8 234-14-2002 x 234-14-2001 5 3700 48:820405014849
item 8 234-14-2002 r 234-14-2001 5 3700 48:820405014849
item 8 234-14-2002 m 234-14-2001 6 3700 48:820405014849
item 8 234-14-2002 m 234-14-2001 256 3700 48:820405014849
item 8 234-14-2002 m 234-14-2001 5 8589934591 48:820405014849
item 8 234-14-2002 m 234-14-2001 5 3700 47:820405014849
item 8 234-14-2002 m 234-14-2001 5 3700 -
item 8 234-14-2002 r 234-14-2001 255 3700 32:821800ff
item 8 234-14-2002 r 234-14-2001 5 3700 32:82160005
item 8 234-14-2002 r 234-14-2001 5 3700 32:82180005 234-14-1000
item 8 234-14-2002 m 234-14-2001 5 3700 48:820405014849 234-14-1000 234-14-1001
last 1 0 2 8:56
last 1 2 2 0:
last 1 2 2 3:a
last 1 2 2 3:B
last 65536 2 2 -
last 1 2 18446744073709551616 -
last 1 2 2
first 1 2 2 -";

/// The value of a hexadecimal digit.
fn digit(byte: u8) -> Option<u8> {
    match byte {
        b'0'..=b'9' => Some(byte - b'0'),
        b'a'..=b'f' => Some(byte - b'a' + 10),
        _ => None,
    }
}

/// The sector that begins with the bytes of hexadecimal digits, spaces left out, and has zeros after them.
fn sector(alloc: Global, text: &str) -> Result<Vec<u8>, AllocError> {
    let mut bytes = Vec::new(alloc);
    let mut high: Option<u8> = None;
    for byte in text.as_bytes() {
        if let Some(value) = digit(*byte) {
            match high.take() {
                None => high = Some(value),
                Some(first) => bytes.push((first << 4) | value)?,
            }
        }
    }
    bytes.resize(512, 0)?;
    Ok(bytes)
}

/// Whether the row of these bytes is printed as the line, after what was there; nothing where it is no row or where it is
/// out of memory.
fn is_printed(alloc: Global, sector: &[u8], line: &str) -> Option<bool> {
    let row = read_row(sector)?;
    let mut out = Vec::new(alloc);
    out.push(b'>').ok()?;
    print_row(&mut out, &alloc, row).ok()?;
    Some(out[0] == b'>' && &out[1..] == line.as_bytes())
}

/// Whether the line is parsed as the row of these bytes; nothing where it is out of memory.
fn is_parsed(alloc: Global, sector: &[u8], line: &str) -> Option<bool> {
    let row = parse_row(&alloc, line.as_bytes()).ok()??;
    Some(row.as_slice() == sector)
}

fn is_both_ways(alloc: Global, text: &str, line: &str) -> Option<bool> {
    let sector = sector(alloc, text).ok()?;
    Some(is_printed(alloc, &sector, line)? && is_parsed(alloc, &sector, line)?)
}

/// The first row that is not printed or parsed as its line.
fn first_wrong(alloc: Global) -> Option<&'static str> {
    for row in ROWS.lines() {
        let Some((text, line)) = row.split_once('=') else {
            return Some(row);
        };
        if is_both_ways(alloc, text, line) != Some(true) {
            return Some(row);
        }
    }
    None
}

/// The first of the texts that is parsed as a row.
fn first_taken(alloc: Global) -> Option<&'static str> {
    for text in OTHERS.lines() {
        if !matches!(parse_row(&alloc, text.as_bytes()), Ok(None)) {
            return Some(text);
        }
    }
    None
}

#[test]
fn rows_have_these_lines(rt: HostRuntime) {
    assert_eq!(rt; first_wrong(rt.alloc()), None);
}

#[test]
fn other_texts_are_no_line(rt: HostRuntime) {
    assert_eq!(rt; first_taken(rt.alloc()), None);
}
