//! Each growth refused in turn: the row is taken once there is memory, and all of it comes back.
use crate::loaded::{is_finished, limits, row};
use image_rows::Loader;
use linked_list_allocator::LocalHeap;
use std::alloc::Global;

/// A row of each kind.
const ROWS: &str = "\
16 0000000000000001 0000000000000006 00000002 00000002 00000002 00000001
11 18 3a800e000000 0001 0063 01 00000e10
11 30 3a800e0007d1 0001 0063 01 00000e10
12 3a800e0007d1 0001 0007 01 02 3a800e0003e8 11 3a800e0003e9 11
12 3a800e0007d2 0001 0007 01 01 3a800e0003e8 11
13 0000000000000005 0000000000000e88 3a800e0007d1 3a800e0007d2 05 01 0060 821002050102030405060708
15 0000000000000006 0000000000000e74 3a800e0007d2 3a800e0007d1 05 00 3a800e0003e8 0030 820405014849
14 0001 00000006 0000000000000006 0060 010203040506070809101112";

/// How much a heap has.
const ROOM: usize = 16_384;

/// Takes the row; where memory runs out, once more without the weight. Nothing where that goes wrong.
fn taken<'a>(
    loader: &mut Loader<&'a LocalHeap>,
    weight: &mut Option<Vec<u8, &'a LocalHeap>>,
    row: &[u8; 512],
) -> Option<bool> {
    match loader.take(row) {
        Ok(true) => Some(false),
        Ok(false) => None,
        Err(_) => {
            drop(weight.take());
            match loader.take(row) {
                Ok(true) => Some(true),
                _ => None,
            }
        }
    }
}

/// How many times memory ran out until the loader was whole; nothing where that goes wrong.
fn all_taken<'a>(
    alloc: Global,
    loader: &mut Loader<&'a LocalHeap>,
    weight: &mut Option<Vec<u8, &'a LocalHeap>>,
) -> Option<usize> {
    let mut wanted = 0_usize;
    for text in ROWS.lines() {
        if taken(loader, weight, &row(alloc, text)?)? {
            wanted = wanted.saturating_add(1);
        }
    }
    loader.is_whole().then_some(wanted)
}

/// The same from the first row on.
fn all_loaded<'a>(
    alloc: Global,
    mut loader: Loader<&'a LocalHeap>,
    weight: &mut Option<Vec<u8, &'a LocalHeap>>,
) -> Option<usize> {
    let wanted = all_taken(alloc, &mut loader, weight);
    if is_finished(loader) { wanted } else { None }
}

/// How many times memory ran out beside so great a weight; nothing where that goes wrong.
fn wanted(alloc: Global, heap: &LocalHeap, size: usize) -> Option<usize> {
    let limits = limits()?;
    let mut weight = Some(Vec::with_capacity(heap, size).ok()?);
    let wanted = match Loader::new(heap, limits) {
        Ok(loader) => all_loaded(alloc, loader, &mut weight),
        Err(_) => Some(1),
    };
    drop(weight);
    wanted
}

/// The same in a new heap, which gets all of its memory back.
fn wanted_beside(alloc: Global, size: usize) -> Option<usize> {
    let heap = LocalHeap::new(alloc, ROOM).ok()?;
    let wanted = wanted(alloc, &heap, size);
    if heap.used() > 0 { None } else { wanted }
}

/// Beside how many weights memory ran out, from the greatest on; nothing where something goes wrong.
fn weights(alloc: Global) -> Option<usize> {
    for k in 0..ROOM / 8 {
        if wanted_beside(alloc, ROOM.saturating_sub(64 + 8 * k))? == 0 {
            return Some(k);
        }
    }
    None
}

#[test]
fn rows_are_taken_once_there_is_memory(rt: HostRuntime) {
    assert!(rt; weights(rt.alloc()).is_some_and(|count| count > 20));
}
