//! An image written a few rows at a time beside a record, and the switch to it.
ghost use Rattle.std.specs.Prelude.{◌≡◌};
ghost use Rattle.checkpoint.specs.Progress.{IsProgress};

use crate::made::{
    begun, current_epoch, expiry, formatted_for, layout, sixteen_rules, turn, write,
};
use centre_core::{Command, Register};
use checkpoint::{ImageProgress, Layout, Side, write_next_rows};
use gated_journal::{Form, Journal, Place};
use sector_disk::{Disk, DiskError, Failing, FailingDisk, MemoryDisk};
use std::alloc::{AllocError, Global};

/// Writes the next rows to side B, and returns how many are then written.
fn next<D: Disk>(
    disk: &mut D,
    layout: &Layout,
    register: &Register<Global>,
    progress: &mut ImageProgress,
) -> Option<u64>
    requires { IsProgress progress.old.epoch register.now progress.old }
    ensures { IsProgress progress.new.epoch register.now progress.new }
{
    let layout = Layout::new(register.limits(), layout.journal())?;
    if disk.sectors() < layout.sectors() {
        return None;
    }
    write_next_rows(disk, &layout, Side::A, register, progress).ok()?;
    Some(progress.written())
}

/// Writes the image with epoch 2 to side B in three calls, and syncs it. Returns how many rows are written after each call.
fn in_three_calls<D: Disk>(
    disk: &mut D,
    layout: &Layout,
    register: &Register<Global>,
) -> Option<[u64; 3]> {
    let mut progress = ImageProgress::begun(2, register);
    let first = next(disk, layout, register, &mut progress)?;
    let second = next(disk, layout, register, &mut progress)?;
    let before = progress.is_whole(register);
    let third = next(disk, layout, register, &mut progress)?;
    disk.sync().ok()?;
    let whole = !before && progress.is_whole(register);
    whole.then_some([first, second, third])
}

/// Whether two disks read the same, sector for sector.
fn are_same<D: Disk>(one: &mut D, other: &mut D) -> Result<bool, DiskError> {
    for at in 0..667 {
        let mut first = [7; 512];
        let mut second = [8; 512];
        one.read(at, &mut first)?;
        other.read(at, &mut second)?;
        if first != second {
            return Ok(false);
        }
    }
    Ok(true)
}

/// Whether three calls leave what one call of `write_image` leaves.
fn are_equal(alloc: Global, layout: &Layout, register: &Register<Global>) -> Option<bool> {
    let mut whole = formatted_for(alloc, 999)?;
    let mut parts = formatted_for(alloc, 999)?;
    let written = write(&mut whole, layout, Side::A, 1, register).is_none();
    let calls = if begun(&mut parts, layout) {
        in_three_calls(&mut parts, layout, register)
    } else {
        None
    };
    let same = are_same(&mut whole, &mut parts) == Ok(true);
    Some(written && same && calls == Some([8, 16, 18]))
}

fn is_written_in_turn(alloc: Global) -> Option<bool> {
    let layout = layout()?;
    let register = sixteen_rules(alloc, layout.limits())?;
    let equal = are_equal(alloc, &layout, &register);
    drop(register);
    equal
}

#[test]
fn eight_rows_a_call_are_the_whole_image(rt: HostRuntime) {
    assert!(rt; is_written_in_turn(rt.alloc()) == Some(true));
}

/// Adds one record to two halves of the disk, where it fits both.
fn add_to<D: Disk>(
    disk: &mut D,
    first: &mut Journal<Global>,
    second: &mut Journal<Global>,
    command: &Command<Global>,
) -> Option<bool>
    requires end { first.old.end ≡ 628 }
    requires none { first.old.count ≡ 0 }
    requires other_first { second.old.first ≡ 628 }
    requires other_end { second.old.end ≡ 667 }
    requires sixteen { second.old.count ≡ 16 }
{
    let commands = [command];
    if disk.sectors() < 667 || !first.has_room(&commands) || !second.has_room(&commands) {
        return None;
    }
    Some(first.append_both(disk, second, &commands).is_ok())
}

/// Adds one record to both halves, which are still empty: the first after no command, the second after the register's 16.
fn add<D: Disk>(alloc: Global, disk: &mut D, command: &Command<Global>) -> Option<bool> {
    let mut first = Journal::start(alloc, 589, 39, Form::Numbered, 0).ok()?;
    let mut second = Journal::start(alloc, 628, 39, Form::Numbered, 16).ok()?;
    add_to(disk, &mut first, &mut second, command)
}

/// Makes a checkpoint beside one record: begins it (3 calls), adds the record to both halves (8), writes and syncs the rows
/// (19), and switches to the other side (2).
fn beside<D: Disk>(
    alloc: Global,
    disk: &mut D,
    layout: &Layout,
    register: &Register<Global>,
    command: &Command<Global>,
) -> bool {
    begun(disk, layout)
        && add(alloc, disk, command) == Some(true)
        && in_three_calls(disk, layout, register).is_some()
        && turn(disk, layout, Side::A).is_none()
}

/// How many records the half of 39 sectors from `first` on has, after so many commands of its image.
fn records<D: Disk>(alloc: Global, disk: &mut D, first: u32, before: u32) -> Option<usize> {
    let first = u64::from(first);
    if disk.sectors() < first + 39 {
        return None;
    }
    let place = Place {
        first,
        end: first + 39,
        next: first,
        form: Form::Numbered,
        count: u64::from(before),
    };
    let (_, records) = Journal::replay(alloc, disk, place).ok()?;
    Some(records.len())
}

/// A stop that fills each pending sector with a byte.
fn stopped(
    alloc: Global,
    disk: MemoryDisk<Global>,
    byte: u8,
) -> Result<MemoryDisk<Global>, AllocError> {
    let mut fill = Vec::new(alloc);
    for at in disk.pending(alloc)? {
        fill.push((at, [byte; 512]))?;
    }
    Ok(disk.crash(&fill))
}

/// A checkpoint beside one record while this call fails, and a stop after it: the epoch of the current side, and how many records its
/// half has.
fn left(
    alloc: Global,
    layout: &Layout,
    register: &Register<Global>,
    call: u64,
    byte: u8,
) -> Option<(u8, usize)> {
    let command = expiry(17)?;
    let mut disk = FailingDisk::new(formatted_for(alloc, 199)?, call, Failing::Once);
    let done = beside(alloc, &mut disk, layout, register, &command);
    drop(command);
    let mut left = stopped(alloc, disk.into_inner(), byte).ok()?;
    let epoch = current_epoch(&mut left).unwrap_or(0);
    let (first, before) = if epoch == 2 { (628, 16) } else { (589, 0) };
    let held = records(alloc, &mut left, first, before);
    drop(left);
    let held = held?;
    (done == (call > 32)).then_some((epoch, held))
}

/// What the stop should leave: the second image once its root is open, and the record once the current side's gate is.
fn wanted(call: u64, byte: u8) -> (u8, usize) {
    let epoch = if call > 32 || (call == 32 && byte == 1) {
        2
    } else {
        1
    };
    let held = call > 11 || (call > 9 && byte == 1);
    (epoch, usize::from(held))
}

const BYTES: [u8; 3] = [0, 1, 77];

fn are_all_safe(alloc: Global, layout: &Layout, register: &Register<Global>) -> Option<bool> {
    for call in 1..34 {
        for byte in BYTES {
            if left(alloc, layout, register, call, byte)? != wanted(call, byte) {
                return Some(false);
            }
        }
    }
    Some(true)
}

fn is_safe(alloc: Global) -> Option<bool> {
    let layout = layout()?;
    let register = sixteen_rules(alloc, layout.limits())?;
    let safe = are_all_safe(alloc, &layout, &register);
    drop(register);
    safe
}

#[test]
fn a_checkpoint_beside_a_record(rt: HostRuntime) {
    assert!(rt; is_safe(rt.alloc()) == Some(true));
}
