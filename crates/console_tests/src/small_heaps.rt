//! A run in heaps of rising size, its own or its register's. Each allocation is refused in turn, and the answer reports it.

use crate::answered::answers;
use crate::least_heap::least_heap;
use crate::limits::usual;
use centre_core::Register;
use linked_list_allocator::LocalHeap;
use std::alloc::Global;

const LINES: &str = "1 0 rule 234-14-0/24 1 99 1 3600\n\
     2 10 mm 234-14-2001 7 10:260\n\
     3 20 mm 234-14-2001 7 60:7380480A00007D0\n\
     4 30 sds 234-14-2001 234-14-2002 48:820405014849\n\
     5 40 sds 234-14-2001 234-14-2002 88:8204060148494A4B4C4D4E\n\
     groups 234-14-2001\n\
     mail 234-14-2002\n";

/// How the answers begin if memory runs out for the first line, for the second and so on, and for none.
const PREFIXES: [&str; 8] = [
    "1 no memory\n",
    "1 ok 1 -\n2 no memory\n",
    "1 ok 1 -\n2 ok 2 8:56\n3 no memory\n",
    "1 ok 1 -\n2 ok 2 8:56\n3 ok 3 62:B3704C0980001F40\n4 no memory\n",
    "1 ok 1 -\n2 ok 2 8:56\n3 ok 3 62:B3704C0980001F40\n4 ok 4 -\n5 no memory\n",
    "1 ok 1 -\n2 ok 2 8:56\n3 ok 3 62:B3704C0980001F40\n4 ok 4 -\n5 ok 5 -\nline 6 no memory\n",
    "1 ok 1 -\n2 ok 2 8:56\n3 ok 3 62:B3704C0980001F40\n4 ok 4 -\n5 ok 5 -\ngroups 234-14-2001 1\ngroup 234-14-1000 4 1\n\
     line 7 no memory\n",
    "1 ok 1 -\n2 ok 2 8:56\n3 ok 3 62:B3704C0980001F40\n4 ok 4 -\n5 ok 5 -\ngroups 234-14-2001 1\ngroup 234-14-1000 4 1\n\
     mail 234-14-2002 2\nitem 4 m 234-14-2001 5 3630 48:820405014849\n\
     item 5 m 234-14-2001 6 3640 88:8204060148494A4B4C4D4E\n",
];

/// Which of the prefixes this text begins with; 9 if it is none.
fn prefix_of(text: &[u8]) -> usize {
    for (at, prefix) in PREFIXES.iter().enumerate() {
        if text.starts_with(prefix.as_bytes()) {
            return at.saturating_add(1);
        }
    }
    9
}

/// How the answers begin with these heaps of the run and of the register; 0 if one of the two can't be made.
fn reached_in(alloc: Global, own: &LocalHeap, other: &LocalHeap) -> Option<usize> {
    let limits = usual()?;
    let Ok(mut desk) = Register::new(other, limits) else {
        return Some(0);
    };
    let said = answers(alloc, own, &mut desk, LINES.as_bytes());
    drop(desk);
    match said {
        Some(out) => Some(prefix_of(&out)),
        None => Some(0),
    }
}

/// The same of heaps of these sizes.
fn reached(alloc: Global, own: usize, other: usize) -> Option<usize> {
    let own = LocalHeap::new(alloc, own).ok()?;
    let other = LocalHeap::new(alloc, other).ok()?;
    reached_in(alloc, &own, &other)
}

/// Where runs end if the register has a heap of rising size.
fn ends_of_registers(alloc: Global) -> Option<[bool; 10]> {
    let mut ends = [false; 10];
    for step in 0..512usize {
        ends[reached(alloc, 1 << 16, 64 * step)?.min(9)] = true;
    }
    Some(ends)
}

/// Where runs end if their own heap has a rising size, from less than they reserve.
fn ends_of_runs(alloc: Global) -> Option<[bool; 10]> {
    let first = least_heap(alloc)?.saturating_sub(1 << 10);
    let mut ends = [false; 10];
    for step in 0..512usize {
        let own = first.saturating_add(8 * step);
        ends[reached(alloc, own, 1 << 16)?.min(9)] = true;
    }
    Some(ends)
}

/// Whether runs end in each of these ways, and in no other way.
fn are_seen(ends: Option<[bool; 10]>, ways: &[usize]) -> bool {
    let Some(ends) = ends else {
        return false;
    };
    for (way, seen) in ends.iter().enumerate() {
        if *seen != ways.contains(&way) {
            return false;
        }
    }
    true
}

/// A rule, a radio, its groups and each message take memory of the register.
#[test]
fn a_little_register_goes_on(rt: HostRuntime) {
    assert!(rt; are_seen(ends_of_registers(rt.alloc()), &[0, 1, 2, 3, 4, 5, 8]));
}

/// The groups of a PDU and a list of items take memory of the run. A PDU of up to 64 bits takes none.
#[test]
fn little_memory_is_reported(rt: HostRuntime) {
    assert!(rt; are_seen(ends_of_runs(rt.alloc()), &[0, 3, 7, 8]));
}
