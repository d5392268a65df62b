//! Stores on new disks.
ghost use Rattle.std.specs.Prelude.{◌≡◌, false, IfSome};

use checkpoint::Layout;
use file_disk::{FileDisk, HostFile};
use probe_live_centre::rule;
use recovery::{Store, format};
use registration::{Limits, Station};
use sector_disk::{Disk, MemoryDisk};
use std::alloc::Global;
use std::fs::{File, Files};

// The sectors of a half of the journal, and more calls than a disk in memory gets.
const JOURNAL: u32 = 32_768;

const CALLS: usize = 60_000;

fn layout() -> Option<Layout> {
    Layout::new(Limits::new(16, 16, 256, 64)?, JOURNAL)
}

/// A disk of zeros in memory.
pub(crate) fn disk_in_memory(alloc: Global) -> Option<MemoryDisk<Global>> {
    let sectors = usize::try_from(layout()?.sectors()).ok()?;
    MemoryDisk::new(alloc, sectors, CALLS).ok()
}

/// A disk of zeros in a new file of this name. `None` if there is such a file.
pub(crate) fn disk_in_file<R: Files<File = File>>(
    rt: &R,
    name: &str,
) -> Option<FileDisk<HostFile>> {
    FileDisk::<HostFile>::create(rt, name, layout()?.sectors()).ok()
}

// Formats the disk, and opens it.
fn formatted<D: Disk + Drop>(alloc: Global, disk: D) -> Option<Store<Global, D>> {
    let mut disk = disk;
    format::<Global, D>(&mut disk, &layout()?).ok()?;
    match Store::open(alloc, disk) {
        Ok(store) => Some(store),
        Err(fault) => {
            drop(fault);
            None
        }
    }
}

/// A store on this disk in which the rule of the network is set.
pub(crate) fn ruled<D: Disk + Drop>(alloc: Global, disk: D) -> Option<Store<Global, D>>
    ensures { IfSome result (λ store. store.broken ≡ false) }
{
    let rule = rule(Station::new(1), 1)?;
    let mut store = formatted(alloc, disk)?;
    match store.commit(alloc, &[&rule]) {
        Ok(outcomes) => {
            drop(outcomes);
            Some(store)
        }
        Err(_) => {
            drop(store);
            None
        }
    }
}
