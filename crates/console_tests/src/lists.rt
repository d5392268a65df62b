//! Lists in heaps of fixed size. In each round radios attach, join a group, get messages to it, and detach. Each answer, each
//! list that runs out of memory and each list of members frees its memory, so each round leaves the heaps as they were. If one
//! list a round were kept, it would fill them.

use crate::answered::are_answered;
use crate::least_heap::least_heap;
use centre_core::Register;
use linked_list_allocator::LocalHeap;
use registration::Limits;
use std::alloc::Global;

/// Radios attach, two join a group, and each of the two gets a copy of a message.
const COME: &str = "1 0 rule 234-14-0/24 1 99 1 3600\n\
     2 10 mm 234-14-2001 7 10:260\n\
     3 10 mm 234-14-2002 7 10:260\n\
     4 10 mm 234-14-2003 7 10:260\n\
     5 20 mm 234-14-2001 7 60:7380480A00007D0\n\
     6 20 mm 234-14-2002 7 60:7380480A00007D0\n\
     7 100 gsds 234-14-2003 234-14-1000 48:820005014849\n\
     8 100 gsds 234-14-2003 234-14-1000 48:820005014849\n\
     groups 234-14-2001\n\
     members 234-14-1000\n\
     mail 234-14-2002\n";

const HAVE_COME: &str = "1 ok 1 -\n\
     2 ok 2 8:56\n\
     3 ok 3 8:56\n\
     4 ok 4 8:56\n\
     5 ok 5 62:B3704C0980001F40\n\
     6 ok 6 62:B3704C0980001F40\n\
     7 ok 7 -\n\
     8 no reference-busy\n\
     groups 234-14-2001 1\n\
     group 234-14-1000 4 1\n\
     members 234-14-1000 2\n\
     member 234-14-2001 4\n\
     member 234-14-2002 4\n\
     mail 234-14-2002 1\n\
     item 7 m 234-14-2003 5 3700 48:820005014849 234-14-1000\n";

/// There is memory for a PDU, and for no list.
const LITTLE: &str = "8 100 sds 234-14-2003 234-14-2001 48:820005014849\n\
     8 100 gsds 234-14-2003 234-14-1000 48:820006014849\n\
     groups 234-14-2001\n\
     members 234-14-1000\n\
     mail 234-14-2001\n";

const TOO_LITTLE: &str = "8 no reference-busy\n\
     8 no memory\n\
     line 3 no memory\n\
     line 4 no memory\n\
     line 5 no memory\n";

/// A list of nine items, or its text, runs out of memory.
const MORE: &str = "members 234-14-1000\n\
     8 110 gsds 234-14-2003 234-14-1000 392:82000001000000000000000000000000000000000000000000000000000000000000000000000000000000000000000000\n\
     9 110 gsds 234-14-2003 234-14-1000 392:82000101000000000000000000000000000000000000000000000000000000000000000000000000000000000000000000\n\
     10 110 gsds 234-14-2003 234-14-1000 392:82000201000000000000000000000000000000000000000000000000000000000000000000000000000000000000000000\n\
     11 110 gsds 234-14-2003 234-14-1000 392:82000301000000000000000000000000000000000000000000000000000000000000000000000000000000000000000000\n\
     12 110 gsds 234-14-2003 234-14-1000 392:82000401000000000000000000000000000000000000000000000000000000000000000000000000000000000000000000\n\
     13 110 gsds 234-14-2003 234-14-1000 392:82000601000000000000000000000000000000000000000000000000000000000000000000000000000000000000000000\n\
     14 110 gsds 234-14-2003 234-14-1000 392:82000701000000000000000000000000000000000000000000000000000000000000000000000000000000000000000000\n\
     15 110 gsds 234-14-2003 234-14-1000 392:82000801000000000000000000000000000000000000000000000000000000000000000000000000000000000000000000\n\
     mail 234-14-2001\n";

const TOO_MUCH: &str = "members 234-14-1000 2\n\
     member 234-14-2001 4\n\
     member 234-14-2002 4\n\
     8 ok 8 -\n\
     9 ok 9 -\n\
     10 ok 10 -\n\
     11 ok 11 -\n\
     12 ok 12 -\n\
     13 ok 13 -\n\
     14 ok 14 -\n\
     15 ok 15 -\n\
     line 10 no memory\n";

/// The copies end, and the radios leave the group and detach.
const GO: &str = "16 120 sent 234-14-2001 234-14-2003 5 m\n\
     17 120 delete 234-14-2002 234-14-2003 5 m\n\
     18 3710 expire\n\
     19 130 mm 234-14-2001 7 7:74\n\
     20 130 mm 234-14-2002 7 7:74\n\
     21 140 mm 234-14-2001 7 5:10\n\
     22 140 mm 234-14-2002 7 5:10\n\
     23 140 mm 234-14-2003 7 5:10\n\
     groups 234-14-2001\n\
     members 234-14-1000\n\
     mail 234-14-2001\n";

const HAVE_GONE: &str = "16 ok 16 -\n\
     17 ok 17 -\n\
     18 ok 18 -\n\
     19 ok 19 7:B0\n\
     20 ok 20 7:B0\n\
     21 ok 21 -\n\
     22 ok 22 -\n\
     23 ok 23 -\n\
     groups 234-14-2001 0\n\
     members 234-14-1000 0\n\
     mail 234-14-2001 0\n";

/// A heap for the register and most of its runs, one without room for a list, and one without room for a long list.
#[derive(Clone, Copy)]
struct Heaps<'a> {
    ample: &'a LocalHeap,
    little: &'a LocalHeap,
    narrow: &'a LocalHeap,
}

fn are_answers_right<'a>(
    alloc: Global,
    heaps: Heaps<'a>,
    desk: &mut Register<&'a LocalHeap>,
) -> bool {
    are_answered(
        alloc,
        heaps.ample,
        desk,
        COME.as_bytes(),
        HAVE_COME.as_bytes(),
    ) && are_answered(
        alloc,
        heaps.little,
        desk,
        LITTLE.as_bytes(),
        TOO_LITTLE.as_bytes(),
    ) && are_answered(
        alloc,
        heaps.narrow,
        desk,
        MORE.as_bytes(),
        TOO_MUCH.as_bytes(),
    ) && are_answered(
        alloc,
        heaps.ample,
        desk,
        GO.as_bytes(),
        HAVE_GONE.as_bytes(),
    )
}

fn is_round_answered<'a>(alloc: Global, heaps: Heaps<'a>) -> Option<bool> {
    let limits = Limits::new(16, 16, 256, 4)?;
    let mut desk = Register::new(heaps.ample, limits).ok()?;
    let are_answers_right = are_answers_right(alloc, heaps, &mut desk);
    drop(desk);
    Some(are_answers_right)
}

/// Whether so many rounds get their answers, and each leaves the heaps as they were.
fn are_even<'a>(alloc: Global, heaps: Heaps<'a>, rounds: u32) -> bool {
    let used = [heaps.ample.used(), heaps.little.used(), heaps.narrow.used()];
    for _ in 0..rounds {
        if is_round_answered(alloc, heaps) != Some(true)
            || [heaps.ample.used(), heaps.little.used(), heaps.narrow.used()] != used
        {
            return false;
        }
    }
    true
}

fn are_freed(alloc: Global) -> Option<bool> {
    let least = least_heap(alloc)?;
    let ample = LocalHeap::new(alloc, least.saturating_add(1 << 14)).ok()?;
    let little = LocalHeap::new(alloc, least.saturating_add(16)).ok()?;
    let narrow = LocalHeap::new(alloc, least.saturating_add(2304)).ok()?;
    let heaps = Heaps {
        ample: &ample,
        little: &little,
        narrow: &narrow,
    };
    Some(are_even(alloc, heaps, 300))
}

#[test]
fn lists_are_freed(rt: HostRuntime) {
    assert!(rt; are_freed(rt.alloc()) == Some(true));
}
