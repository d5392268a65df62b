//! Calls of the disk that fail, and stops after them.
use crate::made::{begins, current_epoch, formatted, is_image, layout, register, turn, write};
use centre_core::Register;
use checkpoint::{Layout, Side};
use sector_disk::{Disk, DiskError, Failing, FailingDisk, MemoryDisk};
use std::alloc::{AllocError, Global};

/// Writes the image to side B, switches to it, and returns whether both succeed.
fn both<D: Disk>(disk: &mut D, layout: &Layout, register: &Register<Global>) -> bool {
    write(disk, layout, Side::A, 1, register).is_none() && turn(disk, layout, Side::A).is_none()
}

/// Fills each pending sector with a byte, and returns whether the root of side B is one of them.
fn fill_pending(
    alloc: Global,
    disk: &MemoryDisk<Global>,
    byte: u8,
    fill: &mut Vec<(u64, [u8; 512]), Global>,
) -> Result<bool, AllocError> {
    let mut torn = false;
    for at in disk.pending(alloc)? {
        torn = torn || at == 2;
        fill.push((at, [byte; 512]))?;
    }
    Ok(torn)
}

/// Whether the current image is the second one, or still the first.
fn is_current<D: Disk>(disk: &mut D, second: bool) -> Result<bool, DiskError> {
    if second {
        let image = is_image(disk, 296, 2)? && begins(disk, 628, &[0])?;
        return Ok(current_epoch(disk)? == 2 && image);
    }
    Ok(current_epoch(disk)? == 1 && begins(disk, 3, &[22, 0, 0, 0, 0, 0, 0, 0, 1])?)
}

/// Whether a stop after this failing call leaves the image that it should.
fn is_safe(
    alloc: Global,
    layout: &Layout,
    register: &Register<Global>,
    call: u64,
    failing: Failing,
    byte: u8,
) -> Option<bool> {
    let mut disk = FailingDisk::new(formatted(alloc)?, call, failing);
    let done = both(&mut disk, layout, register);
    let disk = disk.into_inner();
    let mut fill = Vec::new(alloc);
    let torn = fill_pending(alloc, &disk, byte, &mut fill);
    let mut left = disk.crash(&fill);
    drop(fill);
    let second = done || (torn == Ok(true) && byte == 1);
    let is_current = is_current(&mut left, second) == Ok(true);
    drop(left);
    Some(torn.is_ok() && is_current && done == (call > 10))
}

const BYTES: [u8; 3] = [0, 1, 77];

fn are_all_safe(
    alloc: Global,
    layout: &Layout,
    register: &Register<Global>,
    failing: Failing,
) -> Option<bool> {
    for call in 1..12 {
        for byte in BYTES {
            if !is_safe(alloc, layout, register, call, failing, byte)? {
                return Some(false);
            }
        }
    }
    Some(true)
}

fn are_safe(alloc: Global, failing: Failing) -> Option<bool> {
    let layout = layout()?;
    let register = register(alloc, layout.limits())?;
    let safe = are_all_safe(alloc, &layout, &register, failing);
    drop(register);
    safe
}

#[test]
fn each_call_fails_once(rt: HostRuntime) {
    assert!(rt; are_safe(rt.alloc(), Failing::Once) == Some(true));
}

#[test]
fn each_call_fails_with_all_later_ones(rt: HostRuntime) {
    assert!(rt; are_safe(rt.alloc(), Failing::Always) == Some(true));
}

/// The disk after this call of `write_image` has failed, if it has.
fn failed(
    disk: MemoryDisk<Global>,
    layout: &Layout,
    register: &Register<Global>,
    current: Side,
    call: u64,
) -> Option<MemoryDisk<Global>> {
    let mut disk = FailingDisk::new(disk, call, Failing::Once);
    let failed = write(&mut disk, layout, current, 2, register).is_some();
    let inner = disk.into_inner();
    failed.then_some(inner)
}

/// Whether exactly these sectors are pending.
fn are_pending(alloc: Global, disk: Option<MemoryDisk<Global>>, want: &[u64]) -> Option<bool> {
    let disk = disk?;
    let pending = disk.pending(alloc);
    drop(disk);
    Some(pending.ok()?.as_slice() == want)
}

/// A disk on which side A and then side B was made current. The root of A is still open.
fn switched(
    alloc: Global,
    layout: &Layout,
    register: &Register<Global>,
) -> Option<MemoryDisk<Global>> {
    let mut disk = formatted(alloc)?;
    let both = both(&mut disk, layout, register);
    both.then_some(disk)
}

/// Whether the root of side B, which is closed, is not written before the first sync.
fn spares_a_closed_root(
    alloc: Global,
    layout: &Layout,
    register: &Register<Global>,
) -> Option<bool> {
    let disk = formatted(alloc)?;
    are_pending(alloc, failed(disk, layout, register, Side::A, 3), &[628])
}

/// Whether the root of side A, which stayed open, is written before the first sync.
fn closes_an_open_root(
    alloc: Global,
    layout: &Layout,
    register: &Register<Global>,
) -> Option<bool> {
    let disk = switched(alloc, layout, register)?;
    are_pending(alloc, failed(disk, layout, register, Side::B, 4), &[1, 589])
}

fn are_closed(alloc: Global) -> Option<[bool; 2]> {
    let layout = layout()?;
    let register = register(alloc, layout.limits())?;
    let spared = spares_a_closed_root(alloc, &layout, &register);
    let closed = closes_an_open_root(alloc, &layout, &register);
    drop(register);
    Some([spared?, closed?])
}

#[test]
fn a_root_is_closed_only_where_it_is_open(rt: HostRuntime) {
    assert!(rt; are_closed(rt.alloc()) == Some([true, true]));
}
