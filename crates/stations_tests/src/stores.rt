//! The store that the stations of a test share.
ghost use Rattle.std.specs.Prelude.{◌≡◌, false, IfSome};

use probe_live_centre::{WatchedDisk, opened, with_rule, worked_disk};
use recovery::Store;
use std::alloc::Global;

/// A store of a new disk with room for four stations, after the rule of the network, sequence 1 of station 1.
pub(crate) fn new_store(alloc: Global) -> Option<Store<Global, WatchedDisk>>
    ensures sound { IfSome result (λ store. store.broken ≡ false) }
{
    opened(alloc, with_rule(alloc, worked_disk(alloc, 4, 39, 4_000)?)?)
}
