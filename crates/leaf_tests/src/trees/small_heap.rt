use crate::trees::number::Number;
use base::TryCopy;
use identity::Prefix;
use linked_list_allocator::LocalHeap;
use prefix_tree::PrefixTree;
use std::alloc::Global;
use std::test::Fail;

type Tree<'a> = PrefixTree<Number, &'a LocalHeap>;

// The entries' 48 bits and numbers, in the order of the walk.
fn listed(alloc: Global, tree: &Tree) -> Result<Vec<(u64, u64)>, Fail> {
    let mut list = Vec::new(alloc);
    for (prefix, number) in tree.walk(alloc)? {
        list.push((prefix.bits(), number.0))?;
    }
    Ok(list)
}

// Whether the tree has these entries, and as much of its heap is in use.
fn is_same(
    alloc: Global,
    heap: &LocalHeap,
    tree: &Tree,
    list: &[(u64, u64)],
    used: usize,
) -> Result<bool, Fail> {
    Ok(listed(alloc, tree)?.as_slice() == list && heap.used() == used)
}

fn is_copied(tree: &Tree) -> bool {
    tree.try_copy().is_ok()
}

// Whether the tree takes a number, or returns the pair.
fn is_taken(tree: &mut Tree, prefix: Prefix, number: u64) -> Option<bool> {
    match tree.insert(prefix, Number(number)) {
        Ok(_) => Some(true),
        Err((back, value)) => (back.same(&prefix) && value == Number(number)).then_some(false),
    }
}

// Whether the tree takes a number; nothing where a refusal changes something.
fn tried(
    alloc: Global,
    heap: &LocalHeap,
    tree: &mut Tree,
    prefix: Prefix,
    number: u64,
) -> Result<Option<bool>, Fail> {
    let (before, used) = (listed(alloc, tree)?, heap.used());
    if is_taken(tree, prefix, number) == Some(true) {
        return Ok(Some(true));
    }
    Ok(is_same(alloc, heap, tree, &before, used)?.then_some(false))
}

// Whether the tree can be copied; nothing where that changes something.
fn copied(alloc: Global, heap: &LocalHeap, tree: &Tree) -> Result<Option<bool>, Fail> {
    let (before, used) = (listed(alloc, tree)?, heap.used());
    let copied = is_copied(tree);
    Ok(is_same(alloc, heap, tree, &before, used)?.then_some(copied))
}

// Whether numbers from 0 upward are taken until one is refused, which changes nothing.
fn is_filled(alloc: Global, heap: &LocalHeap, tree: &mut Tree) -> Result<bool, Fail> {
    for number in 0..4096u64 {
        if tried(alloc, heap, tree, Prefix::whole(number), number)? != Some(true) {
            return Ok(number > 0);
        }
    }
    Ok(false)
}

fn is_full(alloc: Global, heap: &LocalHeap) -> Result<bool, Fail> {
    let mut tree = PrefixTree::new_in(heap);
    let filled = is_filled(alloc, heap, &mut tree)?;
    Ok(filled && copied(alloc, heap, &tree)? == Some(false))
}

#[test]
fn a_full_heap_returns_the_pair(rt: HostRuntime) -> Result<(), Fail> {
    let heap = LocalHeap::new(rt.alloc(), 4096)?;
    assert!(rt; is_full(rt.alloc(), &heap)?);
    Ok(())
}

const LENS: [u32; 4] = [0, 1, 3, 6];

// How many of four prefixes are set until one is refused; nothing where a refusal changes something.
fn taken(alloc: Global, heap: &LocalHeap, tree: &mut Tree) -> Result<Option<usize>, Fail> {
    let mut count = 0usize;
    for len in LENS {
        match tried(alloc, heap, tree, Prefix::of(0x6000_0000_0000, len), 7)? {
            Some(true) => count = count.saturating_add(1),
            Some(false) => return Ok(Some(count)),
            None => return Ok(None),
        }
    }
    Ok(Some(count))
}

// The same in a heap of this size, and whether the tree can then be copied.
fn taken_in(alloc: Global, size: usize) -> Result<Option<(usize, bool)>, Fail> {
    let heap = LocalHeap::new(alloc, size)?;
    let mut tree = PrefixTree::new_in(&heap);
    let count = taken(alloc, &heap, &mut tree)?;
    let copied = copied(alloc, &heap, &tree)?;
    Ok(count.zip(copied))
}

// Whether heaps of rising size take one prefix after the other, and in the end a copy.
fn are_taken_in_turn(alloc: Global) -> Result<bool, Fail> {
    let (mut last, mut all) = (0usize, false);
    for size in 1..64usize {
        let Some((count, copied)) = taken_in(alloc, 16 * size)? else {
            return Ok(false);
        };
        if count < last || count - last > 1 {
            return Ok(false);
        }
        last = count;
        all = count == 4 && copied;
    }
    Ok(all)
}

#[test]
fn each_growth_is_refused_in_turn(rt: HostRuntime) -> Result<(), Fail> {
    assert!(rt; are_taken_in_turn(rt.alloc())?);
    Ok(())
}

const DEEP: [u32; 4] = [0, 48, 47, 3];

fn are_set(tree: &mut Tree) -> bool {
    let mut all = true;
    for len in DEEP {
        all = tree
            .insert(Prefix::of(0x6000_0000_0001, len), Number(7))
            .is_ok()
            && all;
    }
    all
}

fn are_removed(tree: &mut Tree) -> bool {
    let mut all = true;
    for len in DEEP {
        all = tree.take(&Prefix::of(0x6000_0000_0001, len)).is_some() && all;
    }
    all
}

// Whether prefixes take memory of the heap when they are set, and all of it is freed once they are removed.
fn is_freed(heap: &LocalHeap) -> bool {
    let used = heap.used();
    let mut tree = PrefixTree::new_in(heap);
    let grown = are_set(&mut tree) && heap.used() > used;
    grown && are_removed(&mut tree) && heap.used() == used
}

#[test]
fn removal_frees_all_nodes(rt: HostRuntime) -> Result<(), Fail> {
    let heap = LocalHeap::new(rt.alloc(), 16384)?;
    assert!(rt; is_freed(&heap));
    Ok(())
}
