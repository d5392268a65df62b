// The image of a register written to a disk in memory.
use centre_core::Register;
use checkpoint::{Layout, Side, write_image};
use sector_disk::{Disk, MemoryDisk};
use std::alloc::Global;

// The sectors of a disk for a register at its greatest limits, with halves of 38.
const SECTORS: usize = 270_545;

// More calls than writing an image takes.
const CALLS: usize = 140_000;

// A disk of zeros.
pub(crate) fn disk(alloc: Global) -> Option<MemoryDisk<Global>> {
    MemoryDisk::new(alloc, SECTORS, CALLS).ok()
}

// Writes the register's image to side B; whether that was done.
pub(crate) fn is_written<D: Disk>(disk: &mut D, register: &Register<Global>) -> bool {
    let Some(layout) = Layout::new(register.limits(), 38) else {
        return false;
    };
    if disk.sectors() < layout.sectors() {
        return false;
    }
    write_image(disk, &layout, Side::A, 1, register).is_ok()
}
