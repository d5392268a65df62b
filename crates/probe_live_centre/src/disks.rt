ghost use Rattle.std.specs.Prelude.{◌≡◌, false, IfSome};

use crate::commands::rule;
use crate::counting_disk::{WatchedDisk, watched};
use centre_core::Reply;
use checkpoint::Layout;
use recovery::{Outcome, Store, format};
use registration::{Limits, Station};
use sector_disk::{Failing, MemoryDisk};
use std::alloc::Global;

/// A disk ready for an empty register with room for 16 rules, 16 radios, 256 items and this many stations. Each half of its
/// journal has `journal` sectors, and there is room to record `calls` calls.
pub fn worked_disk(
    alloc: Global,
    stations: u32,
    journal: u32,
    calls: usize,
) -> Option<MemoryDisk<Global>> {
    let layout = Layout::new(Limits::new(16, 16, 256, stations)?, journal)?;
    let sectors = usize::try_from(layout.sectors()).ok()?;
    let mut disk = MemoryDisk::new(alloc, sectors, calls).ok()?;
    format::<Global, MemoryDisk<Global>>(&mut disk, &layout).ok()?;
    Some(disk)
}

// Sets the rule; whether it was accepted.
fn is_ruled(alloc: Global, store: &mut Store<Global, MemoryDisk<Global>>) -> bool {
    let Some(rule) = rule(Station::new(1), 1) else {
        return false;
    };
    match store.commit(alloc, &[&rule]) {
        Ok(outcomes) => matches!(
            outcomes.first(),
            Some(Outcome::Replied(Reply::Accepted { .. }))
        ),
        Err(_) => false,
    }
}

/// That disk after the rule of the network, sequence 1 of station 1.
pub fn with_rule(alloc: Global, disk: MemoryDisk<Global>) -> Option<MemoryDisk<Global>> {
    let Ok(mut store) = Store::open(alloc, disk) else {
        return None;
    };
    let done = is_ruled(alloc, &mut store);
    let disk = store.into_disk();
    if done { Some(disk) } else { None }
}

/// The store that this disk opens to. No call of the disk fails.
pub fn opened(alloc: Global, disk: MemoryDisk<Global>) -> Option<Store<Global, WatchedDisk>>
    ensures sound { IfSome result (λ store. store.broken ≡ false) }
{
    match Store::open(alloc, watched(disk, 0, Failing::Once)) {
        Ok(store) => Some(store),
        Err(_) => None,
    }
}
