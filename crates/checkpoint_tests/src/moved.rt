//! A disk of layout 1, put together by hand, whose next image is of layout 2.
use crate::made::{
    begins, begun, current_epoch, formatted_for, is_image, layout, register, sector, turn, write,
};
use centre_core::Register;
use checkpoint::{Layout, Side, stated_form};
use gated_journal::{Form, Journal, Place};
use sector_disk::{Disk, DiskError, MemoryDisk};
use std::alloc::Global;

/// The header of an empty register with epoch 1, of layout 1.
const HEADER: [u8; 9] = [16, 0, 0, 0, 0, 0, 0, 0, 1];

/// A record of one command, of layout 1: an expiry.
const RECORD: [u8; 17] = [0, 1, 0, 0, 0, 11, 0, 1, 0, 0, 0, 1, 0, 0, 0, 11, 6];

/// Puts an image and a record of layout 1 on side A.
fn put<D: Disk>(disk: &mut D) -> Result<(), DiskError> {
    disk.write(3, &sector(&HEADER))?;
    disk.write(589, &sector(&[1]))?;
    disk.write(590, &sector(&RECORD))?;
    disk.sync()
}

/// A disk of layout 1 that is on side A, with one record.
fn plain(alloc: Global) -> Option<MemoryDisk<Global>> {
    let mut disk = formatted_for(alloc, 199)?;
    let is_put = put(&mut disk).is_ok();
    is_put.then_some(disk)
}

/// Whether side A is, byte for byte, what was put there.
fn is_kept<D: Disk>(disk: &mut D) -> Result<bool, DiskError> {
    let image = begins(disk, 1, &sector(&[1]))? && begins(disk, 3, &sector(&HEADER))?;
    let record = begins(disk, 589, &sector(&[1]))? && begins(disk, 590, &sector(&RECORD))?;
    Ok(image && record && begins(disk, 591, &[0; 512])?)
}

/// The form of the records after the image whose header is in this sector.
fn form<D: Disk>(disk: &mut D, at: u64) -> Result<Form, DiskError> {
    let mut bytes = [7; 512];
    disk.read(at, &mut bytes)?;
    Ok(stated_form(&bytes))
}

/// How many records half A has in this form.
fn records<D: Disk>(alloc: Global, disk: &mut D, form: Form) -> Option<usize> {
    if disk.sectors() < 667 {
        return None;
    }
    let place = Place {
        first: 589,
        end: 628,
        next: 589,
        form,
        count: 0,
    };
    let (_, records) = Journal::replay(alloc, disk, place).ok()?;
    Some(records.len())
}

/// Whether side A is still current, with its record, in its form.
fn is_current<D: Disk>(alloc: Global, disk: &mut D) -> Result<bool, DiskError> {
    let plain = current_epoch(disk)? == 1 && form(disk, 3)? == Form::Plain;
    Ok(plain && is_kept(disk)? && records(alloc, disk, Form::Plain) == Some(1))
}

/// Whether side B is current, with the image of the register and the tag of layout 2, and side A is left as it was.
fn is_moved<D: Disk>(disk: &mut D) -> Result<bool, DiskError> {
    let image = is_image(disk, 296, 2)? && begins(disk, 296, &[22])?;
    let numbered = current_epoch(disk)? == 2 && form(disk, 296)? == Form::Numbered;
    Ok(image && numbered && begins(disk, 628, &[0; 512])? && is_kept(disk)?)
}

/// Whether each call but the last one leaves side A current, and the last one makes side B current.
fn moves<D: Disk>(
    alloc: Global,
    disk: &mut D,
    layout: &Layout,
    register: &Register<Global>,
) -> Result<bool, DiskError> {
    let before = is_current(alloc, disk)?;
    let closed = begun(disk, layout) && is_current(alloc, disk)?;
    let written = write(disk, layout, Side::A, 1, register).is_none() && is_current(alloc, disk)?;
    let moved = turn(disk, layout, Side::A).is_none() && is_moved(disk)?;
    Ok(before && closed && written && moved)
}

fn moves_on_disk(alloc: Global, layout: &Layout, register: &Register<Global>) -> Option<bool> {
    let mut disk = plain(alloc)?;
    let moves = moves(alloc, &mut disk, layout, register) == Ok(true);
    drop(disk);
    Some(moves)
}

fn is_whole_move(alloc: Global) -> Option<bool> {
    let layout = layout()?;
    let register = register(alloc, layout.limits())?;
    let moves = moves_on_disk(alloc, &layout, &register);
    drop(register);
    moves
}

#[test]
fn from_layout_1_to_layout_2(rt: HostRuntime) {
    assert!(rt; is_whole_move(rt.alloc()) == Some(true));
}
