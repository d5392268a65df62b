//! Images that are written, and count once the sides are switched.
use crate::made::{begins, current_epoch, formatted, is_image, layout, register, turn, write};
use centre_core::Register;
use checkpoint::{CheckpointError, Layout, Side};
use sector_disk::{Disk, DiskError};
use std::alloc::Global;

/// Whether side A is still current, with its first image, and side B has one with epoch 2 and no record.
fn is_ready<D: Disk>(disk: &mut D) -> Result<bool, DiskError> {
    let old = current_epoch(disk)? == 1 && begins(disk, 3, &[22, 0, 0, 0, 0, 0, 0, 0, 1])?;
    Ok(old && is_image(disk, 296, 2)? && begins(disk, 628, &[0; 512])?)
}

/// Whether the disk goes from side A to B, and back to A.
fn goes_round<D: Disk>(
    disk: &mut D,
    layout: &Layout,
    register: &Register<Global>,
) -> Result<bool, DiskError> {
    let first = write(disk, layout, Side::A, 1, register).is_none() && is_ready(disk)?;
    let second = turn(disk, layout, Side::A).is_none() && current_epoch(disk)? == 2;
    let third = write(disk, layout, Side::B, 2, register).is_none() && current_epoch(disk)? == 2;
    let back = is_image(disk, 3, 3)? && begins(disk, 1, &[0])? && begins(disk, 589, &[0; 512])?;
    let last = turn(disk, layout, Side::B).is_none() && current_epoch(disk)? == 3;
    Ok(first && second && third && back && last)
}

fn is_round_on_disk(alloc: Global, layout: &Layout, register: &Register<Global>) -> Option<bool> {
    let mut disk = formatted(alloc)?;
    let round = goes_round(&mut disk, layout, register) == Ok(true);
    let pending = disk.pending(alloc);
    drop(disk);
    Some(round && pending.ok()?.is_empty())
}

fn is_round(alloc: Global) -> Option<bool> {
    let layout = layout()?;
    let register = register(alloc, layout.limits())?;
    let is_round = is_round_on_disk(alloc, &layout, &register);
    drop(register);
    is_round
}

#[test]
fn from_side_to_side(rt: HostRuntime) {
    assert!(rt; is_round(rt.alloc()) == Some(true));
}

/// Whether an image with this epoch is refused, and no sector changed.
fn is_refused(
    alloc: Global,
    layout: &Layout,
    register: &Register<Global>,
    epoch: u64,
) -> Option<bool> {
    let mut disk = formatted(alloc)?;
    let refused = write(&mut disk, layout, Side::A, epoch, register);
    let untouched = current_epoch(&mut disk) == Ok(1)
        && begins(&mut disk, 296, &[0; 512]) == Ok(true);
    drop(disk);
    Some(refused == Some(CheckpointError::EpochsUsedUp) && untouched)
}

/// Whether the last epoch is refused, and the one before it.
fn are_refused(alloc: Global) -> Option<[bool; 2]> {
    let layout = layout()?;
    let last = 4_611_686_018_427_387_904;
    let register = register(alloc, layout.limits())?;
    let at_last = is_refused(alloc, &layout, &register, last);
    let before = is_refused(alloc, &layout, &register, last - 1);
    drop(register);
    Some([at_last?, before?])
}

#[test]
fn the_last_epoch_is_not_followed(rt: HostRuntime) {
    assert!(rt; are_refused(rt.alloc()) == Some([true, false]));
}
