//! Each worked command is written and read as its bytes. Other bytes are no command.
use crate::rows::{COMMANDS, OTHERS, bytes_of, command};
use command_bytes::{after_first, append, decode, decode_first, encode, text_len};
use std::alloc::Global;
use std::test::Fail;

/// Whether these bytes are read as one command, which is written as the same bytes.
fn is_read(alloc: Global, bytes: &[u8]) -> Result<bool, Fail> {
    match decode(alloc, bytes)? {
        Some(command) => Ok(encode(alloc, &command)?.as_slice() == bytes),
        None => Ok(false),
    }
}

/// Whether these bytes, with others after them, are read as one command and those others.
fn is_read_first(alloc: Global, bytes: &[u8]) -> Result<bool, Fail> {
    let mut more = Vec::from_slice(alloc, bytes)?;
    more.extend_from_slice(&[9, 1])?;
    match decode_first(alloc, &more)? {
        Some((command, rest)) => Ok(
            rest == [9, 1].as_slice()
                && after_first::<Global>(&more).is_some_and(|after| after == rest)
                && encode(alloc, &command)?.as_slice() == bytes,
        ),
        None => Ok(false),
    }
}

/// Whether the line's command is written as these bytes.
fn is_written(alloc: Global, line: &str, bytes: &[u8]) -> Result<bool, Fail> {
    let Some(command) = command(alloc, line) else {
        return Ok(false);
    };
    let mut room = Vec::with_capacity(alloc, text_len(&command))?;
    append(&mut room, &command);
    Ok(
        text_len(&command) == bytes.len()
            && room.as_slice() == bytes
            && encode(alloc, &command)?.as_slice() == bytes,
    )
}

fn is_spelled(alloc: Global, line: &str, text: &str) -> Result<bool, Fail> {
    let bytes = bytes_of(alloc, text)?;
    Ok(is_written(alloc, line, &bytes)? && is_read(alloc, &bytes)? && is_read_first(alloc, &bytes)?)
}

/// The first row whose line is not written and read as its bytes.
fn first_wrong(alloc: Global) -> Result<Option<&'static str>, Fail> {
    for row in COMMANDS.lines() {
        match row.split_once('=') {
            Some((line, text)) if is_spelled(alloc, line, text)? => {}
            _ => return Ok(Some(row)),
        }
    }
    Ok(None)
}

/// The first row of bytes that are read as a command.
fn first_read(alloc: Global) -> Result<Option<&'static str>, Fail> {
    for row in OTHERS.lines() {
        match row.split_once('=') {
            Some((text, _)) if decode(alloc, &bytes_of(alloc, text)?)?.is_none() => {}
            _ => return Ok(Some(row)),
        }
    }
    Ok(None)
}

/// A short data PDU of so many bits, all 0.
fn message(alloc: Global, bits: u16) -> Result<Vec<u8>, Fail> {
    let mut bytes = bytes_of(alloc, "0001 00000003 00000000 04 3a800e0007d1 3a800e0007d2")?;
    bytes.extend_from_slice(&bits.to_be_bytes())?;
    bytes.resize(25 + (bits as usize + 7) / 8, 0)?;
    Ok(bytes)
}

fn longest_is_read(alloc: Global) -> Result<bool, Fail> {
    let bytes = message(alloc, 2048)?;
    let too_long = message(alloc, 2049)?;
    Ok(bytes.len() == 281 && is_read(alloc, &bytes)? && decode(alloc, &too_long)?.is_none())
}

#[test]
fn commands_have_these_bytes(rt: HostRuntime) -> Result<(), Fail> {
    assert_eq!(rt; first_wrong(rt.alloc())?, None);
    Ok(())
}

#[test]
fn other_bytes_are_none(rt: HostRuntime) -> Result<(), Fail> {
    assert_eq!(rt; first_read(rt.alloc())?, None);
    Ok(())
}

#[test]
fn a_pdu_has_at_most_2048_bits(rt: HostRuntime) -> Result<(), Fail> {
    assert!(rt; longest_is_read(rt.alloc())?);
    Ok(())
}
