//! The plain list in small heaps. What it answers in a large one is compared with the tree, in `trees`.

use crate::list::PrefixList;
use crate::trees::number::Number;
use base::TryCopy;
use identity::Prefix;
use linked_list_allocator::LocalHeap;
use std::alloc::Global;
use std::test::Fail;

/// Whether there is memory for the insert. A refused one must return its pair and change nothing.
fn is_inserted(list: &mut PrefixList<Number, &LocalHeap>, number: u64) -> Result<bool, Fail> {
    let (prefix, before) = (Prefix::whole(number), list.len());
    match list.insert(prefix, Number(number)) {
        Ok(_) => Ok(true),
        Err((back, value)) => {
            if !back.same(&prefix) || value != Number(number) || list.len() != before {
                return Err(Fail::from("a refused insert changed the list"));
            }
            Ok(false)
        }
    }
}

fn copies(list: &PrefixList<Number, &LocalHeap>) -> bool {
    list.try_copy().is_ok()
}

fn lists(list: &PrefixList<Number, &LocalHeap>, heap: &LocalHeap) -> bool {
    list.entries(heap).is_ok()
}

/// How many of ten calls have memory in a heap: eight inserts, then a copy and the list of entries.
fn taken(alloc: Global, size: usize) -> Result<u64, Fail> {
    let heap = LocalHeap::new(alloc, size)?;
    let mut list = PrefixList::new_in(&heap);
    for number in 0..8u64 {
        if !is_inserted(&mut list, number)? {
            return Ok(number);
        }
    }
    Ok(8 + u64::from(copies(&list)) + u64::from(lists(&list, &heap)))
}

#[test]
fn each_growth_may_be_refused(rt: HostRuntime) -> Result<(), Fail> {
    let (mut short, mut uncopied, mut copied) = (false, false, false);
    for step in 1..40usize {
        match taken(rt.alloc(), step * 32)? {
            0..=7 => short = true,
            8..=9 => uncopied = true,
            _ => copied = true,
        }
    }
    assert!(rt; short && uncopied && copied);
    Ok(())
}
