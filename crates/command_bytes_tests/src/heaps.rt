//! Heaps of rising size. Each allocation is refused in turn, and all memory is freed.
use crate::rows::{bytes_of, command};
use command_bytes::{decode, encode};
use linked_list_allocator::LocalHeap;
use std::alloc::Global;
use std::test::Fail;

/// A command with a message of more bits than are kept in place.
const LINE: &str = "3 0 sds 234-14-2001 234-14-2002 96:820405014849484948494849";

/// Nothing if memory runs out in this heap; else whether the bytes are read, and written as the same bytes.
fn is_done<'a>(heap: &'a LocalHeap, bytes: &[u8]) -> Option<bool> {
    let Ok(found) = decode(heap, bytes) else {
        return None;
    };
    let Some(command) = found else {
        return Some(false);
    };
    match encode(heap, &command) {
        Ok(text) => Some(text.as_slice() == bytes),
        Err(_) => None,
    }
}

/// How many heaps were too small before the bytes were read and written.
fn refused(alloc: Global, bytes: &[u8]) -> Result<Option<usize>, Fail> {
    for k in 0..40 {
        let heap = LocalHeap::new(alloc, 16 * k)?;
        let done = is_done(&heap, bytes);
        if heap.used() > 0 || done == Some(false) {
            return Ok(None);
        }
        if done == Some(true) {
            return Ok(Some(k));
        }
    }
    Ok(None)
}

fn is_refused_in_turn(alloc: Global) -> Result<bool, Fail> {
    let Some(command) = command(alloc, LINE) else {
        return Ok(false);
    };
    let bytes = encode(alloc, &command)?;
    Ok(refused(alloc, &bytes)?.is_some_and(|heaps| heaps > 2))
}

/// Whether the bytes are a command; nothing if memory runs out in this heap.
fn answered<'a>(heap: &'a LocalHeap, bytes: &[u8]) -> Option<bool> {
    match decode(heap, bytes) {
        Ok(Some(_)) => Some(true),
        Ok(None) => Some(false),
        Err(_) => None,
    }
}

/// Bytes, and the answer to them in a heap without memory. Only a command with a PDU needs memory.
const ANSWERED: &str = "\
0001 00000002 0000000a 03 3a800e0007d1 0007 0107 000000000000000000000000000000000000000000000000000000000000000001=none
0001 00000002 0000000a 03 3a800e0007d1 0007 0107 00000000000000000000000000000000000000000000000000000000000000000000=none
0001 00000002 0000000a 03 3a800e0007d1 0007 0107 000000000000000000000000000000000000000000000000000000000000000000=memory
0001 00000001 00000000 06=command";

fn is_answer(answer: Option<bool>, word: &str) -> bool {
    match answer {
        None => word == "memory",
        Some(true) => word == "command",
        Some(false) => word == "none",
    }
}

/// The first row with another answer.
fn first_otherwise(alloc: Global) -> Result<Option<&'static str>, Fail> {
    let heap = LocalHeap::new(alloc, 0)?;
    for row in ANSWERED.lines() {
        match row.split_once('=') {
            Some((text, word)) if is_answer(answered(&heap, &bytes_of(alloc, text)?), word) => {}
            _ => return Ok(Some(row)),
        }
    }
    Ok(None)
}

#[test]
fn each_growth_is_refused_in_turn(rt: HostRuntime) -> Result<(), Fail> {
    assert!(rt; is_refused_in_turn(rt.alloc())?);
    Ok(())
}

#[test]
fn only_a_pdu_needs_memory(rt: HostRuntime) -> Result<(), Fail> {
    assert_eq!(rt; first_otherwise(rt.alloc())?, None);
    Ok(())
}
