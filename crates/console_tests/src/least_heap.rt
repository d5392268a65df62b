//! What a run reserves before its first line.

use crate::answered::answers;
use crate::limits::usual;
use centre_core::Register;
use linked_list_allocator::LocalHeap;
use std::alloc::Global;

/// Whether a run over no line begins in a heap of this size.
fn begins(alloc: Global, size: usize) -> Option<bool> {
    let limits = usual()?;
    let heap = LocalHeap::new(alloc, size).ok()?;
    let mut desk = Register::new(alloc, limits).ok()?;
    let said = answers(alloc, &heap, &mut desk, b"");
    drop(desk);
    Some(said.is_some())
}

/// Steps by which the size is found, the greatest first.
const STEPS: [usize; 13] = [
    65536, 32768, 16384, 8192, 4096, 2048, 1024, 512, 256, 128, 64, 32, 16,
];

/// The size of the smallest heap in which a run begins, a multiple of 16 bytes.
pub fn least_heap(alloc: Global) -> Option<usize> {
    let mut size: usize = 0;
    for step in STEPS {
        let next = size.saturating_add(step);
        if !begins(alloc, next)? {
            size = next;
        }
    }
    Some(size.saturating_add(16))
}
