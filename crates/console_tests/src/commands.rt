//! Commands by themselves: which values are in range, and copies.

use crate::answered::command;
use centre_core::{Body, Command, Sequence};
use identity::{BitWriter, Bits, Itsi};
use linked_list_allocator::LocalHeap;
use mailbox::Moment;
use registration::Station;
use std::alloc::Global;

fn zeros(alloc: Global, len: u32) -> Option<Bits<Global>> {
    let mut writer = BitWriter::new(alloc);
    for _ in 0..len {
        writer.put(0, 1).ok()?;
    }
    Some(writer.finish())
}

/// A message of so many zeros from a radio to itself.
fn message(alloc: Global, bits: u32) -> Option<Body<Global>> {
    let source = Itsi::new(234, 14, 2001)?;
    Some(Body::Sds {
        source,
        destination: source,
        pdu: zeros(alloc, bits)?,
    })
}

/// A command of station 1.
fn made(sequence: u32, body: Body<Global>) -> Option<Command<Global>> {
    Command::new(
        Station::new(1),
        Sequence::new(sequence)?,
        Moment::new(0),
        body,
    )
}

fn is_made(alloc: Global, sequence: u32, bits: u32) -> Option<bool> {
    Some(made(sequence, message(alloc, bits)?).is_some())
}

/// Sequences and numbers of bits, and whether there is such a command.
const RANGES: [(u32, u32, bool); 5] = [
    (0, 8, false),
    (1, 8, true),
    (u32::MAX, 8, true),
    (1, 2048, true),
    (1, 2049, false),
];

fn are_in_range(alloc: Global) -> bool {
    for (sequence, bits, want) in RANGES {
        if is_made(alloc, sequence, bits) != Some(want) {
            return false;
        }
    }
    true
}

#[test]
fn a_command_has_a_sequence_and_a_pdu_in_range(rt: HostRuntime) {
    assert!(rt; are_in_range(rt.alloc()));
}

fn has_number(number: u32) -> bool {
    match Sequence::new(number) {
        Some(sequence) => sequence.number() == number,
        None => false,
    }
}

#[test]
fn a_sequence_counts_from_1(rt: HostRuntime) {
    assert!(rt; Sequence::new(0).is_none());
    assert!(rt; has_number(1) && has_number(2) && has_number(u32::MAX));
    assert!(rt; Sequence::new(1) != Sequence::new(2));
}

/// Whether a copy has this head.
fn has_head(copy: &Command<&LocalHeap>) -> bool {
    let (station, sequence) = (copy.station.number(), copy.sequence.number());
    (station, sequence, copy.moment.number()) == (4, 7, 100)
}

/// Whether the copy of this command in a heap has its head.
fn is_copied_with_its_head(alloc: Global, heap: &LocalHeap, line: &str) -> bool {
    match command(alloc, 4, line) {
        Some(command) => match command.try_copy(heap) {
            Ok(copy) => has_head(&copy),
            Err(_) => false,
        },
        None => false,
    }
}

/// Whether a message of so many bits can be copied into this heap.
fn is_copied(alloc: Global, heap: &LocalHeap, bits: u32) -> Option<bool> {
    let command = made(1, message(alloc, bits)?)?;
    Some(command.try_copy(heap).is_ok())
}

fn are_copied(alloc: Global, heap: &LocalHeap, full: &LocalHeap) -> bool {
    is_copied_with_its_head(alloc, heap, "7 100 rule 234-14-0/24 1 99 1 3600")
        && is_copied_with_its_head(alloc, full, "7 100 expire")
        && is_copied(alloc, heap, 2048) == Some(true)
        && is_copied(alloc, full, 2048) == Some(false)
}

fn are_copied_in_heaps(alloc: Global) -> Option<bool> {
    let heap = LocalHeap::new(alloc, 1 << 10).ok()?;
    let full = LocalHeap::new(alloc, 64).ok()?;
    Some(are_copied(alloc, &heap, &full))
}

#[test]
fn a_command_is_copied(rt: HostRuntime) {
    assert!(rt; are_copied_in_heaps(rt.alloc()) == Some(true));
}
