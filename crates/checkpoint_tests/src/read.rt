//! Images that are read back, from rows put together by hand.
use crate::made::{layout, made, sector};
use centre_core::{Body, Command, Register, Reply};
use checkpoint::{Layout, ReadFault, Side, read_image};
use identity::{BitWriter, Itsi};
use linked_list_allocator::LocalHeap;
use mailbox::Moment;
use sector_disk::{Disk, DiskError, Failing, FailingDisk, MemoryDisk};
use std::alloc::{Allocator, Global};

/// The image of a register with a rule, two radios and an item, which has accepted six commands. Its epoch is 7, and its
/// header is of layout 2.
const ROWS: [&[u8]; 6] = [
    &[
        22, 0, 0, 0, 0, 0, 0, 0, 7, 0, 0, 0, 0, 0, 0, 0, 6, 0, 0, 0, 1, 0, 0, 0, 2, 0, 0, 0, 1, 0,
        0, 0, 1,
    ],
    &[
        17, 24, 0x3a, 0x80, 0x0e, 0, 0, 0, 0, 1, 0, 0x63, 1, 0, 0, 0x0e, 0x10,
    ],
    &[18, 0x3a, 0x80, 0x0e, 0, 0x07, 0xd1, 0, 1, 0, 7, 1, 0],
    &[18, 0x3a, 0x80, 0x0e, 0, 0x07, 0xd2, 0, 1, 0, 9, 1, 0],
    &[
        19, 0, 0, 0, 0, 0, 0, 0, 6, 0, 0, 0, 0, 0, 0, 0x0e, 0x88, 0x3a, 0x80, 0x0e, 0, 0x07, 0xd1,
        0x3a, 0x80, 0x0e, 0, 0x07, 0xd2, 5, 1, 0, 0x20, 0x82, 0x10, 2, 5,
    ],
    &[20, 0, 1, 0, 0, 0, 6, 0, 0, 0, 0, 0, 0, 0, 6, 0, 0],
];

/// The header of an empty register with epoch 1, of layout 1.
const EMPTY: [u8; 9] = [16, 0, 0, 0, 0, 0, 0, 0, 1];

/// Puts the empty register into the slot of side A and the rows into that of side B. No row follows either image.
fn put<D: Disk>(disk: &mut D) -> Result<(), DiskError> {
    for at in 1..7 {
        disk.write(3 + at, &[255; 512])?;
        disk.write(301 + at, &[255; 512])?;
    }
    disk.write(3, &sector(&EMPTY))?;
    for (at, row) in (296..).zip(ROWS.iter()) {
        disk.write(at, &sector(row))?;
    }
    Ok(())
}

/// The worked disk with both images.
fn disk(alloc: Global) -> Option<MemoryDisk<Global>> {
    let mut disk = MemoryDisk::new(alloc, 667, 4_000).ok()?;
    let is_put = put(&mut disk).is_ok();
    is_put.then_some(disk)
}

/// Reads the image of a side of a disk that is large enough.
fn read<A: Allocator + Clone, D: Disk>(
    disk: &mut D,
    layout: &Layout,
    side: Side,
    alloc: A,
) -> Result<(u64, Register<A>), ReadFault> {
    if disk.sectors() < layout.sectors() {
        return Err(ReadFault::Damaged(0));
    }
    read_image(disk, layout, side, alloc)
}

/// The last command again: a report on a message.
fn again(alloc: Global) -> Option<Command<Global>> {
    let source = Itsi::from_number(0x3a80_0e00_07d2)?;
    let destination = Itsi::from_number(0x3a80_0e00_07d1)?;
    let mut writer = BitWriter::new(alloc);
    writer.put(0x8210_0205, 32).ok()?;
    let pdu = writer.finish();
    made(
        6,
        Moment::new(120),
        Body::Sds {
            source,
            destination,
            pdu,
        },
    )
}

/// Whether the register has the reply to the command.
fn is_answered(
    alloc: Global,
    register: &mut Register<Global>,
    command: Option<Command<Global>>,
) -> bool {
    let Some(command) = command else {
        return false;
    };
    let reply = register.apply(alloc, &command);
    drop(command);
    let is_kept = matches!(&reply, Ok(Reply::Kept { .. }));
    drop(reply);
    is_kept
}

/// Whether the register has the areas of both radios, the item and the reply.
fn answers(alloc: Global, register: &mut Register<Global>) -> bool {
    is_in(register, 0x3a80_0e00_07d1, 7)
        && is_in(register, 0x3a80_0e00_07d2, 9)
        && register.mail().len() == 1
        && is_answered(alloc, register, again(alloc))
}

/// Whether the radio of this identity's number is in that area.
fn is_in(register: &Register<Global>, number: u64, area: u32) -> bool {
    let Some(itsi) = Itsi::from_number(number) else {
        return false;
    };
    match register.registry().where_is(itsi) {
        Some(radio) => radio.area.number() == area,
        None => false,
    }
}

/// The image of a side.
fn image(alloc: Global, layout: &Layout, side: Side) -> Option<(u64, Register<Global>)> {
    let mut disk = disk(alloc)?;
    let image = read(&mut disk, layout, side, alloc);
    drop(disk);
    image.ok()
}

/// Whether the image of side B is the one put there.
fn is_read(alloc: Global, layout: &Layout) -> Option<bool> {
    let (epoch, mut register) = image(alloc, layout, Side::B)?;
    let is_read = epoch == 7 && register.count() == 6 && answers(alloc, &mut register);
    drop(register);
    Some(is_read)
}

/// Whether the image of side A is the empty one.
fn is_empty(alloc: Global, layout: &Layout) -> Option<bool> {
    let (epoch, register) = image(alloc, layout, Side::A)?;
    let limited = register.limits() == layout.limits();
    let is_empty = epoch == 1 && register.count() == 0;
    drop(register);
    Some(is_empty && limited)
}

/// Whether each of the two images is read as it was put.
fn are_read(alloc: Global) -> Option<[bool; 2]> {
    let layout = layout()?;
    Some([is_read(alloc, &layout)?, is_empty(alloc, &layout)?])
}

#[test]
fn rows_by_hand_are_read_back(rt: HostRuntime) {
    assert!(rt; are_read(rt.alloc()) == Some([true, true]));
}

/// Why the image of side B is not read; `None` where it is.
fn fault<D: Disk>(alloc: Global, layout: &Layout, disk: &mut D) -> Option<ReadFault> {
    read(disk, layout, Side::B, alloc).err()
}

/// The same with these bytes in that sector.
fn fault_with(alloc: Global, layout: &Layout, at: u64, bytes: &[u8]) -> Option<Option<ReadFault>> {
    let mut disk = disk(alloc)?;
    let _written = disk.write(at, &sector(bytes));
    let fault = fault(alloc, layout, &mut disk);
    drop(disk);
    Some(fault)
}

/// Whether the sector is reported where it holds no row, and where it holds this row, which is out of place.
fn is_reported(alloc: Global, layout: &Layout, at: u64, row: &[u8]) -> Option<bool> {
    let damaged = Some(ReadFault::Damaged(at));
    Some(
        fault_with(alloc, layout, at, &[])? == damaged
            && fault_with(alloc, layout, at, row)? == damaged,
    )
}

/// Whether each sector of the image is reported where it holds no row or a row out of place, and no sector after the image is.
fn are_reported(alloc: Global) -> Option<bool> {
    let layout = layout()?;
    let [header, rule, _, _, _, _] = ROWS;
    for at in 297..302 {
        if !is_reported(alloc, &layout, at, header)? {
            return Some(false);
        }
    }
    Some(
        is_reported(alloc, &layout, 296, rule)?
            && fault_with(alloc, &layout, 302, header)?.is_none(),
    )
}

#[test]
fn the_first_bad_sector_is_reported(rt: HostRuntime) {
    assert!(rt; are_reported(rt.alloc()) == Some(true));
}

/// Why the image of side B is not read where the call of this number fails, and how many calls have failed.
fn fault_at(
    alloc: Global,
    layout: &Layout,
    call: u64,
    failing: Failing,
) -> Option<(Option<ReadFault>, u64)> {
    let mut disk = FailingDisk::new(disk(alloc)?, call, failing);
    let fault = fault(alloc, layout, &mut disk);
    let failures = disk.failures();
    drop(disk);
    Some((fault, failures))
}

/// Whether each of six reads is reported where it fails, and there is no seventh read.
fn are_six(alloc: Global, layout: &Layout, failing: Failing) -> Option<bool> {
    for call in 1..7 {
        if fault_at(alloc, layout, call, failing)?.0 != Some(ReadFault::DiskFault) {
            return Some(false);
        }
    }
    Some(fault_at(alloc, layout, 7, failing)? == (None, 0))
}

/// The same where one call fails, and where all later ones do too.
fn are_six_reads(alloc: Global) -> Option<[bool; 2]> {
    let layout = layout()?;
    let once = are_six(alloc, &layout, Failing::Once)?;
    Some([once, are_six(alloc, &layout, Failing::Always)?])
}

#[test]
fn six_rows_are_six_reads(rt: HostRuntime) {
    assert!(rt; are_six_reads(rt.alloc()) == Some([true, true]));
}

/// Why the image is not read in a heap, which gets all of its memory back; `None` where it is read.
fn in_heap<'a, D: Disk>(heap: &'a LocalHeap, layout: &Layout, disk: &mut D) -> Option<ReadFault> {
    read(disk, layout, Side::B, heap).err()
}

/// The same in a heap of this size, with how much of it is then in use.
fn in_heap_of<D: Disk>(
    alloc: Global,
    size: usize,
    layout: &Layout,
    disk: &mut D,
) -> Option<(Option<ReadFault>, usize)> {
    let heap = LocalHeap::new(alloc, size).ok()?;
    let fault = in_heap(&heap, layout, disk);
    Some((fault, heap.used()))
}

/// How many heaps were too small before the image was read; `None` where a heap didn't get all of its memory back.
fn refused<D: Disk>(alloc: Global, layout: &Layout, disk: &mut D) -> Option<usize> {
    for k in 0..200 {
        match in_heap_of(alloc, 200 + 32 * k, layout, disk)? {
            (None, 0) => return Some(k),
            (Some(ReadFault::NoMemory), 0) => {}
            _ => return None,
        }
    }
    None
}

fn heaps_refused(alloc: Global) -> Option<usize> {
    let layout = layout()?;
    let mut disk = disk(alloc)?;
    let refused = refused(alloc, &layout, &mut disk);
    drop(disk);
    refused
}

#[test]
fn each_growth_is_refused_in_turn(rt: HostRuntime) {
    assert!(rt; heaps_refused(rt.alloc()).is_some_and(|heaps| heaps > 5));
}
