//! A closure that changes a value of the tree, or drops it, and with it its node.

use crate::trees::number::Number;
use identity::Prefix;
use linked_list_allocator::LocalHeap;
use prefix_tree::PrefixTree;
use std::alloc::{Allocator, Global};
use std::test::Fail;

/// Adds to the value at a prefix, if there is one, and answers the value before.
pub fn raise<A: Allocator>(
    tree: &mut PrefixTree<Number, A>,
    prefix: &Prefix,
    more: u64,
) -> Option<Number> {
    tree.change(prefix, |before| {
        (before, Some(Number(before.0.wrapping_add(more))))
    })
}

/// Drops the value at a prefix, and answers it.
pub fn drop_value<A: Allocator>(
    tree: &mut PrefixTree<Number, A>,
    prefix: &Prefix,
) -> Option<Number> {
    tree.change(prefix, |before| (before, None))
}

// Two prefixes that part at their last bit, one that begins both, and the values there.
const ENTRIES: [(u64, u32, u64); 3] = [
    (0x6000_0000_0000, 24, 1),
    (0x6000_0000_0004, 48, 2),
    (0x6000_0000_0005, 48, 3),
];

fn grow<A: Allocator + Clone>(tree: &mut PrefixTree<Number, A>) -> bool {
    let mut all = true;
    for (bits, len, value) in ENTRIES {
        all = tree.insert(Prefix::of(bits, len), Number(value)).is_ok() && all;
    }
    all
}

// A prefix, what its value is raised by (0: it is dropped), the value before and after, and how many nodes there are
// after. At first these are the root, the three of the entries, and the one where two of them part.
const CHANGES: [(u64, u32, u64, u64, u64, usize); 9] = [
    (0x6000_0000_0004, 48, 10, 2, 12, 5),
    (0x6000_0000_0006, 48, 10, 0, 0, 5),
    (0x6000_0000_0004, 47, 10, 0, 0, 5),
    (0x6000_0000_0004, 47, 0, 0, 0, 5),
    (0x6000_0000_0004, 48, 0, 12, 0, 3),
    (0x6000_0000_0004, 48, 10, 0, 0, 3),
    (0x6000_0000_0000, 24, 0, 1, 0, 2),
    (0x6000_0000_0005, 48, 10, 3, 13, 2),
    (0x6000_0000_0005, 48, 0, 13, 0, 1),
];

fn changed(tree: &mut PrefixTree<Number, Global>, prefix: &Prefix, more: u64) -> u64 {
    let before = if more == 0 {
        drop_value(tree, prefix)
    } else {
        raise(tree, prefix, more)
    };
    before.map_or(0, |number| number.0)
}

// The first row that the tree does not agree with; nothing where it agrees with all.
fn first_wrong(tree: &mut PrefixTree<Number, Global>) -> Option<usize> {
    let mut row = 0usize;
    for (bits, len, more, before, then, nodes) in CHANGES {
        let prefix = Prefix::of(bits, len);
        let answer = changed(tree, &prefix, more);
        let now = tree.find(&prefix).map_or(0, |number| number.0);
        if answer != before || now != then || tree.nodes() != nodes {
            return Some(row);
        }
        row = row.saturating_add(1);
    }
    None
}

fn wrong_row(alloc: Global) -> Option<usize> {
    let mut tree = PrefixTree::new_in(alloc);
    let grown = grow(&mut tree);
    let wrong = first_wrong(&mut tree);
    drop(tree);
    if grown { wrong } else { Some(99) }
}

#[test]
fn a_closure_changes_a_value_or_drops_it(rt: HostRuntime) -> Result<(), Fail> {
    assert_eq!(rt; wrong_row(rt.alloc()), None);
    Ok(())
}

type Blocks<'h> = Vec<Vec<u8, &'h LocalHeap>, Global>;

// Takes all that is free in the heap, in the smallest blocks.
fn take_rest<'h>(blocks: &mut Blocks<'h>, heap: &'h LocalHeap) -> Result<bool, Fail> {
    for _ in 0..4096u32 {
        match Vec::with_capacity(heap, 1) {
            Ok(block) => blocks.push(block)?,
            Err(_) => return Ok(true),
        }
    }
    Ok(false)
}

// Whether each value is raised, and none at another prefix.
fn are_raised(tree: &mut PrefixTree<Number, &LocalHeap>) -> bool {
    let mut all = raise(tree, &Prefix::of(0, 48), 10).is_none();
    for (bits, len, value) in ENTRIES {
        all = raise(tree, &Prefix::of(bits, len), 10) == Some(Number(value)) && all;
    }
    all
}

// Whether each raised value is dropped, and none at another prefix.
fn are_dropped(tree: &mut PrefixTree<Number, &LocalHeap>) -> bool {
    let mut all = drop_value(tree, &Prefix::of(0, 48)).is_none();
    for (bits, len, value) in ENTRIES {
        all = drop_value(tree, &Prefix::of(bits, len)) == Some(Number(value + 10)) && all;
    }
    all
}

// Whether all values are changed and then dropped in a heap of which nothing is free, and their nodes are freed.
fn needs_nothing<'h>(blocks: &mut Blocks<'h>, heap: &'h LocalHeap) -> Result<bool, Fail> {
    let free = heap.used();
    let mut tree = PrefixTree::new_in(heap);
    let grown = grow(&mut tree);
    let grown = grown && heap.used() > free;
    let nodes = heap.used().wrapping_sub(free);
    let full = take_rest(blocks, heap)?;
    let used = heap.used();
    let raised = are_raised(&mut tree) && heap.used() == used;
    let dropped = are_dropped(&mut tree) && used.wrapping_sub(heap.used()) == nodes;
    Ok(grown && full && raised && dropped)
}

fn is_done_in(alloc: Global, heap: &LocalHeap) -> Result<bool, Fail> {
    let mut blocks = Vec::new(alloc);
    needs_nothing(&mut blocks, heap)
}

#[test]
fn a_closure_takes_no_memory(rt: HostRuntime) -> Result<(), Fail> {
    let heap = LocalHeap::new(rt.alloc(), 4096)?;
    assert!(rt; is_done_in(rt.alloc(), &heap)?);
    Ok(())
}
