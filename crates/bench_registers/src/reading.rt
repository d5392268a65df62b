// Times how a register is read back from the image on a disk, and how its tables are built by the calls of the tables alone.
// What is made is dropped after the time is taken.
use crate::building::Tables;
use crate::register::LIMITS;
use centre_core::Register;
use checkpoint::{Layout, ReadFault, Side, read_image};
use sector_disk::Disk;
use std::alloc::Global;
use std::time::{Duration, Instant};

// How long reading the image of side B takes. Its register has accepted `count` commands.
pub(crate) fn read<D: Disk>(rt: &HostRuntime, disk: &mut D, count: u64) -> Option<Duration> {
    let layout = Layout::new(LIMITS, 38)?;
    if disk.sectors() < layout.sectors() {
        return None;
    }
    let start = Instant::now(rt).ok()?;
    let image = read_image(disk, &layout, Side::B, rt.alloc());
    let took = start.elapsed(rt);
    let is_read = has_count(&image, count);
    drop(image);
    if is_read { took.ok() } else { None }
}

fn has_count(image: &Result<(u64, Register<Global>), ReadFault>, count: u64) -> bool {
    match image {
        Ok((_, register)) => register.count() == count,
        Err(_) => false,
    }
}

// How long building the tables of the register takes.
pub(crate) fn built(rt: &HostRuntime, register: &Register<Global>) -> Option<Duration> {
    let start = Instant::now(rt).ok()?;
    let mut tables = Tables::new(rt.alloc(), LIMITS)?;
    let is_built = tables.fill(rt.alloc(), register);
    let took = start.elapsed(rt);
    drop(tables);
    if is_built { took.ok() } else { None }
}
