//! Heaps of rising size: each growth of an item's PDU is refused in turn, and all memory comes back.
use crate::rows::{item_row, sector};
use image_rows::{ReadRow, read_row};
use linked_list_allocator::LocalHeap;
use std::alloc::Global;

const REPORT: &str =
    "13 0000000000000009 0000000000000e74 3a800e0007d1 3a800e0007d2 05 01 0060 821000050102030405060708";

/// Nothing where memory runs out, else whether the item is read and written again under this heap.
fn is_done<'a>(heap: &'a LocalHeap, bytes: &[u8]) -> Option<bool> {
    let Some(ReadRow::Mail(read)) = read_row(bytes) else {
        return Some(false);
    };
    let Ok(item) = read.copy(&heap) else {
        return None;
    };
    let row = item_row(&item);
    drop(item);
    Some(match &row {
        Some(row) => row.as_slice() == bytes,
        None => false,
    })
}

/// Whether a heap of this size has memory for the item; nothing where that goes wrong, or leaves some of it in use.
fn is_done_in(alloc: Global, size: usize, bytes: &[u8]) -> Option<bool> {
    let heap = LocalHeap::new(alloc, size).ok()?;
    let done = is_done(&heap, bytes);
    (heap.used() == 0 && done != Some(false)).then_some(done.is_some())
}

/// How many heaps were too small before the item was read.
fn refused(alloc: Global, bytes: &[u8]) -> Option<usize> {
    for k in 0..60 {
        if is_done_in(alloc, 8 * k, bytes)? {
            return Some(k);
        }
    }
    None
}

fn heaps_refused(alloc: Global) -> Option<usize> {
    let bytes = sector(alloc, REPORT, 0).ok()?;
    let refused = refused(alloc, &bytes);
    drop(bytes);
    refused
}

#[test]
fn each_growth_is_refused_in_turn(rt: HostRuntime) {
    assert!(rt; heaps_refused(rt.alloc()).is_some_and(|heaps| heaps > 2));
}
