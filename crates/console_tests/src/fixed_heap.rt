//! A register and its console in a heap of fixed size. Each round of 12 commands, of more than 10,000 commands in all, ends in
//! the state where it began, and takes no more memory than the first round. When the register is dropped, every byte is free
//! again.

use crate::answered::{are_answered, put};
use crate::limits::usual;
use centre_core::Register;
use linked_list_allocator::LocalHeap;
use std::alloc::Global;

/// The commands of a round, without their sequences, and the answers, without their numbers. A rule is set and cleared. A
/// radio is attached and detached, joins a group and leaves all. Messages end by a report that is acknowledged, by their
/// deadline, and by deletion.
const ROUND: [(&str, &str); 12] = [
    (" 0 rule 234-14-0/24 1 99 1 3600\n", " -\n"),
    (" 10 mm 234-14-2001 7 10:260\n", " 8:56\n"),
    (
        " 20 mm 234-14-2001 7 60:7380480A00007D0\n",
        " 62:B3704C0980001F40\n",
    ),
    (" 100 sds 234-14-2001 234-14-2002 48:820405014849\n", " -\n"),
    (" 100 sds 234-14-2001 234-14-2001 48:820405014849\n", " -\n"),
    (" 110 sds 234-14-2001 234-14-2001 32:82100005\n", " -\n"),
    (" 120 sds 234-14-2001 234-14-2001 32:82200005\n", " -\n"),
    (" 3700 expire\n", " -\n"),
    (" 130 mm 234-14-2001 7 7:74\n", " 7:B0\n"),
    (" 140 mm 234-14-2001 0 5:10\n", " -\n"),
    (" 150 rule 234-14-2001/48 1 1 0 0\n", " -\n"),
    (" 160 unrule 234-14-2001/48\n", " -\n"),
];

/// Lines, and their answers.
#[derive(Drop)]
struct Talk {
    lines: Vec<u8>,
    answers: Vec<u8>,
}

/// Adds the command of this sequence, which is accepted under the same number.
fn add(talk: &mut Talk, number: u64, line: &str, answer: &str) -> bool {
    put(&mut talk.lines, "", number, line).is_some()
        && put(&mut talk.answers, "", number, "").is_some()
        && put(&mut talk.answers, " ok ", number, answer).is_some()
}

/// Adds so many rounds, after so many commands.
fn add_rounds(talk: &mut Talk, before: u64, rounds: u32) -> bool {
    let mut number = before;
    for _ in 0..rounds {
        for (line, answer) in ROUND {
            number = number.saturating_add(1);
            if !add(talk, number, line, answer) {
                return false;
            }
        }
    }
    true
}

fn rounds_after(alloc: Global, before: u64, rounds: u32) -> Option<Talk> {
    let mut talk = Talk {
        lines: Vec::new(alloc),
        answers: Vec::new(alloc),
    };
    let are_added = add_rounds(&mut talk, before, rounds);
    are_added.then_some(talk)
}

/// Whether the answers are these, and the second talk leaves the heap as the first one did.
fn are_even<'a>(
    alloc: Global,
    heap: &'a LocalHeap,
    desk: &mut Register<&'a LocalHeap>,
    first: &Talk,
    second: &Talk,
) -> bool {
    let once = are_answered(alloc, heap, desk, &first.lines, &first.answers);
    let used = heap.used();
    once && are_answered(alloc, heap, desk, &second.lines, &second.answers) && heap.used() == used
}

/// The same at a new desk in the heap.
fn is_even(alloc: Global, heap: &LocalHeap, first: &Talk, second: &Talk) -> Option<bool> {
    let limits = usual()?;
    let mut desk = Register::new(heap, limits).ok()?;
    let even = are_even(alloc, heap, &mut desk, first, second);
    drop(desk);
    Some(even)
}

/// The same where the heap is then as free as it was.
fn is_free_again(alloc: Global, size: usize) -> Option<bool> {
    let first = rounds_after(alloc, 0, 1)?;
    let second = rounds_after(alloc, 12, 900)?;
    let heap = LocalHeap::new(alloc, size).ok()?;
    let empty = heap.used();
    let even = is_even(alloc, &heap, &first, &second);
    Some(even == Some(true) && heap.used() == empty)
}

#[test]
fn ten_thousand_commands_leave_no_trace(rt: HostRuntime) {
    assert!(rt; is_free_again(rt.alloc(), 1 << 16) == Some(true));
}
