//! Lines and bytes as text.
use centre_core::Command;
use console::{Line, parse_line};
use registration::Station;
use std::alloc::{Allocator, Global};
use std::test::Fail;

/// Lines of station 1 and the bytes of their commands, put together from the table by hand: each tag, the least and the
/// greatest values, and a PDU of no bits.
pub const COMMANDS: &str = "\
1 0 rule 234-14-0/24 1 99 1 3600=000100000001000000000118 3a800e000000 0001 0063 01 00000e10
9 0 rule 0-0-0/0 0 16383 3 4294967295=0001 00000009 00000000 01 00 000000000000 0000 3fff 03 ffffffff
7 4294967295 unrule 234-14-2001/48=0001 00000007 ffffffff 02 30 3a800e0007d1
2 10 mm 234-14-2001 7 10:260=0001 00000002 0000000a 03 3a800e0007d1 0007 000a 2600
8 0 mm 1023-16383-16777215 16383 0:=0001 00000008 00000000 03 ffffffffffff 3fff 0000
3 0 sds 234-14-2001 234-14-2002 48:820405014849=0001 00000003 00000000 04 3a800e0007d1 3a800e0007d2 0030 820405014849
4 256 sent 234-14-2002 234-14-2001 5 m=0001 00000004 00000100 05 3a800e0007d2 3a800e0007d1 05 00
4294967295 0 expire=0001 ffffffff 00000000 06
5 0 delete 234-14-2001 234-14-2002 255 r=0001 00000005 00000000 07 3a800e0007d1 3a800e0007d2 ff 01
6 0 gsds 234-14-2001 234-14-1000 9:F08=0001 00000006 00000000 08 3a800e0007d1 3a800e0003e8 0009 f080";

/// Bytes that spell no command: no bytes, a byte missing, a byte too many, and each field out of its range.
pub const OTHERS: &str = "\
=nothing
00010000000100000000=no tag
0001000000010000000006 00=a byte after the last
0001 00000001 00000000 01 18 3a800e000000 0001 0063 01 00000e=a byte missing
0001 00000002 0000000a 03 3a800e0007d1 0007 000a 26=a byte of a PDU missing
0001 00000000 00000000 06=sequence 0
0001 00000001 00000000 00=tag 0
0001 00000001 00000000 09=tag 9
0001 00000001 00000000 01 18 3a800e000000 0064 0063 01 00000e10=low above high
0001 00000001 00000000 01 18 3a800e000000 0001 4000 01 00000e10=area 16384
0001 00000002 0000000a 03 3a800e0007d1 4000 000a 2600=area 16384 of a radio
0001 00000001 00000000 01 18 3a800e000000 0001 0063 04 00000e10=lifetime 4
0001 00000001 00000000 02 31 3a800e0007d1=a prefix of 49 bits
0001 00000001 00000000 02 18 3a800e000001=a bit after a prefix
0001 00000002 0000000a 03 3a800e0007d1 0007 000a 2620=the first padding bit
0001 00000002 0000000a 03 3a800e0007d1 0007 000a 2601=the last padding bit
0001 00000004 00000100 05 3a800e0007d2 3a800e0007d1 05 02=kind 2";

/// The value of a hexadecimal digit.
fn digit(byte: u8) -> Option<u8> {
    match byte {
        b'0'..=b'9' => Some(byte - b'0'),
        b'a'..=b'f' => Some(byte - b'a' + 10),
        _ => None,
    }
}

/// The bytes of hexadecimal digits; spaces are skipped.
pub fn bytes_of(alloc: Global, text: &str) -> Result<Vec<u8>, Fail> {
    let mut bytes = Vec::new(alloc);
    let mut high: Option<u8> = None;
    for byte in text.as_bytes() {
        if let Some(value) = digit(*byte) {
            match high.take() {
                None => high = Some(value),
                Some(first) => bytes.push((first << 4) | value)?,
            }
        }
    }
    Ok(bytes)
}

/// The command of a line of station 1.
pub fn command<A: Allocator>(alloc: A, line: &str) -> Option<Command<A>> {
    match parse_line(alloc, Station::new(1), line.as_bytes()) {
        Ok(Line::Apply(command)) => Some(command),
        _ => None,
    }
}
