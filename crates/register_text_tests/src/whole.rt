//! A whole text is read as a register, which is written as the same text. Each cut, each changed line and each long line is
//! refused with its number.
use register_text::{Cause, LoadFault, read_register, write_register};
use registration::Limits;
use std::alloc::Global;
use std::io::{Error, ErrorKind, Read};

/// A register with one entry of each kind, written by hand.
const TEXT: &str = "\
tetra-switch register 1 rules 16 radios 16 items 256 stations 4
count 8 rules 1 radios 2 items 1 stations 1
rule 234-14-0/24 1 99 1 3600
radio 234-14-2001 station 1 la 7 present 234-14-1000 4 3
radio 234-14-2002 station 1 la 7 absent
item 8 234-14-2002 m 234-14-2001 5 3700 48:820405014849
last 1 2 2 8:56
";

/// Texts that are read up to a line, with its number and what is wrong with it: h, s, p or c for cut.
const FAULTY: &str = "\
1h=tetra-switch register 2 rules 16 radios 16 items 256 stations 4;
1h=tetra-switch register 1 rules 16 radios 16 items 256;
1h=count 0 rules 0 radios 0 items 0 stations 0;
1h=;
1c=tetra-switch register 1 rules 16 radios 16 items 256 stations 4
2c=tetra-switch register 1 rules 16 radios 16 items 256 stations 4;
2s=tetra-switch register 1 rules 16 radios 16 items 256 stations 4;count 8;
2s=tetra-switch register 1 rules 16 radios 16 items 256 stations 4;;
2p=tetra-switch register 1 rules 16 radios 16 items 256 stations 4;count 0 rules 17 radios 0 items 0 stations 0;
2p=tetra-switch register 1 rules 16 radios 16 items 256 stations 4;last 1 2 2 8:56;
3c=tetra-switch register 1 rules 16 radios 16 items 256 stations 4;count 1 rules 1 radios 0 items 0 stations 0;
3c=tetra-switch register 1 rules 16 radios 16 items 256 stations 4;count 1 rules 1 radios 0 items 0 stations 0;rule 234-14-0/24 1 99 1 3600
3p=tetra-switch register 1 rules 16 radios 16 items 256 stations 4;count 0 rules 0 radios 0 items 0 stations 0;rule 234-14-0/24 1 99 1 3600;
4s=tetra-switch register 1 rules 16 radios 16 items 256 stations 4;count 1 rules 2 radios 0 items 0 stations 0;\
rule 234-14-0/24 1 99 1 3600;rule 234-14-0/24 1 99 1 03600;
4p=tetra-switch register 1 rules 16 radios 16 items 256 stations 4;count 1 rules 2 radios 0 items 0 stations 0;\
rule 234-14-0/24 1 99 1 3600;rule 234-14-0/24 1 99 1 3600;";

/// Gives the bytes of a text one by one, an interruption before each, and then an error or the end.
#[derive(Drop)]
struct Slow<'a> {
    left: &'a [u8],
    fails: bool,
    interrupts: bool,
}

impl<'a> Read for Slow<'a> {
    fn read(&mut self, buffer: &mut [u8]) -> Result<usize, Error> {
        self.interrupts = !self.interrupts;
        if self.interrupts {
            return Err(Error::from(ErrorKind::Interrupted));
        }
        match (self.left, buffer) {
            ([first, rest @ ..], [place, ..]) => {
                *place = *first;
                self.left = rest;
                Ok(1)
            }
            _ if self.fails => Err(Error::from(ErrorKind::Other)),
            _ => Ok(0),
        }
    }
}

fn limits() -> Option<Limits> {
    Limits::new(16, 16, 256, 4)
}

/// Whether what the reader gives is read as a register that is written as this text.
fn is_written<R: Read>(alloc: Global, reader: &mut R, text: &str) -> Option<bool> {
    let Ok(register) = read_register(alloc, limits()?, reader) else {
        return Some(false);
    };
    let mut out = Vec::new(alloc);
    let written = write_register(&alloc, &mut out, &register);
    drop(register);
    Some(written.is_ok() && out.as_slice() == text.as_bytes())
}

/// The fault of what the reader gives.
fn fault_of<R: Read>(alloc: Global, reader: &mut R) -> Option<LoadFault> {
    match read_register(alloc, limits()?, reader) {
        Ok(register) => {
            drop(register);
            None
        }
        Err(fault) => Some(fault),
    }
}

fn is_again(alloc: Global) -> Option<bool> {
    let mut whole = TEXT.as_bytes();
    let mut slow = Slow {
        left: TEXT.as_bytes(),
        fails: false,
        interrupts: false,
    };
    Some(is_written(alloc, &mut whole, TEXT)? && is_written(alloc, &mut slow, TEXT)?)
}

#[test]
fn text_is_read_and_written(rt: HostRuntime) {
    assert!(rt; is_again(rt.alloc()) == Some(true));
}

/// How many line feeds there are.
fn feeds(text: &[u8]) -> u64 {
    let mut count = 0u64;
    for byte in text {
        if *byte == b'\n' {
            count = count.saturating_add(1);
        }
    }
    count
}

/// The first prefix of the text that is not refused as cut in its last line.
fn first_uncut(alloc: Global) -> Option<usize> {
    let text = TEXT.as_bytes();
    for end in 0..text.len() {
        let prefix = &text[..end];
        let mut reader = prefix;
        if fault_of(alloc, &mut reader) != Some(LoadFault::Cut(feeds(prefix).saturating_add(1))) {
            return Some(end);
        }
    }
    None
}

#[test]
fn each_cut_is_refused(rt: HostRuntime) {
    assert!(rt; first_uncut(rt.alloc()).is_none());
}

/// The fault that a row of the table names.
fn named(name: &str) -> Option<LoadFault> {
    let [number, cause] = name.as_bytes() else {
        return None;
    };
    let number = u64::from(number.checked_sub(b'0')?);
    match cause {
        b'h' => Some(LoadFault::Line(number, Cause::Head)),
        b's' => Some(LoadFault::Line(number, Cause::Spelling)),
        b'p' => Some(LoadFault::Line(number, Cause::Place)),
        b'c' => Some(LoadFault::Cut(number)),
        _ => None,
    }
}

/// The bytes of a row's text, where ; is a line feed.
fn bytes(alloc: Global, text: &str) -> Option<Vec<u8>> {
    let mut bytes = Vec::new(alloc);
    for byte in text.as_bytes() {
        let byte = if *byte == b';' { b'\n' } else { *byte };
        bytes.push(byte).ok()?;
    }
    Some(bytes)
}

/// The first row whose text has another fault.
fn first_other(alloc: Global) -> Option<&'static str> {
    for row in FAULTY.lines() {
        let Some((name, text)) = row.split_once('=') else {
            return Some(row);
        };
        let Some(text) = bytes(alloc, text) else {
            return Some(row);
        };
        let mut reader = text.as_slice();
        let fault = fault_of(alloc, &mut reader);
        if fault.is_none() || fault != named(name) {
            return Some(row);
        }
    }
    None
}

#[test]
fn each_fault_has_its_line(rt: HostRuntime) {
    assert!(rt; first_other(rt.alloc()).is_none());
}

/// The fault of the first line of the text, if it comes, and so many bytes after it without a line feed.
fn long_fault(alloc: Global, headed: bool, count: usize) -> Option<LoadFault> {
    let mut text = Vec::new(alloc);
    if headed {
        text.extend_from_slice(TEXT.lines().next()?.as_bytes())
            .ok()?;
        text.push(b'\n').ok()?;
    }
    let whole = text.len().checked_add(count)?;
    text.resize(whole, b'c').ok()?;
    let mut reader = text.as_slice();
    fault_of(alloc, &mut reader)
}

#[test]
fn long_lines_are_refused(rt: HostRuntime) {
    let alloc = rt.alloc();
    assert!(rt; long_fault(alloc, false, 4096) == Some(LoadFault::Cut(1)));
    assert!(rt; long_fault(alloc, true, 4096) == Some(LoadFault::Cut(2)));
    assert!(rt; long_fault(alloc, false, 4097) == Some(LoadFault::Line(1, Cause::Head)));
    assert!(rt; long_fault(alloc, true, 200_000) == Some(LoadFault::Line(2, Cause::Spelling)));
}

/// The fault of a reader that fails after the text.
fn failed(alloc: Global) -> Option<LoadFault> {
    let mut reader = Slow {
        left: TEXT.as_bytes(),
        fails: true,
        interrupts: false,
    };
    fault_of(alloc, &mut reader)
}

#[test]
fn failed_read_is_reported(rt: HostRuntime) {
    assert!(rt; failed(rt.alloc()) == Some(LoadFault::Read));
}
