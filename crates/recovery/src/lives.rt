//! What holds over the whole life of a disk.

ghost use Rattle.std.specs.Prelude.{◌≡◌, ◌∷◌, [], List, false};
ghost use Rattle.sector_disk.specs.Crash.{IsFilled};
ghost use Rattle.sector_disk.specs.Memory.{memory_view};
ghost use Rattle.centre_core.specs.State.{State};
ghost use Rattle.recovery.specs.Lives.{BeginsWhereDurable, BeginsWhereEachOpens, LastsOnDisk, LastsWhereSound, NoMessageIsLost};
ghost use Rattle.recovery.specs.Lives.{Closed, Event, HasBeenHonest, IsLife, IsStoredIn, Unanswered, view_of};

use crate::Store;
use sector_disk::{Disk, MemoryDisk};
use std::alloc::Allocator;

/// The life of an honest disk begins with any register to which it opens after each stop. So it may begin with a disk that
/// any program has written, of either form of records: if nothing is pending, with what the disk opens to.
///
/// This function does nothing: calling it gives its clauses.
pub fn begins<A: Allocator, D: Disk>()
    ensures each { BeginsWhereEachOpens A D.view }
    ensures durable { BeginsWhereDurable A D.view }
{}

/// Over the whole life of a disk, through any calls and any stops between them and within them, each image that a stop may
/// leave opens to what accepted commands made of the base. These are all commands of each call that was answered, and all or
/// none of each other call. The register of a store that is not broken is made by such commands too, and is on the disk. A
/// message that waited in the base, or that one of these commands made, is missing exactly where a later one of them ended it.
///
/// This function does nothing: calling it gives its clauses.
pub fn lasts<A: Allocator, D: Disk>()
    ensures on_disk { LastsOnDisk A D.view }
    ensures in_store { LastsWhereSound A D.view }
    ensures messages { NoMessageIsLost A }
{}

/// The register of each store is on its disk, if the store is not broken, and the disk is honest and was so when the store
/// was opened.
///
/// This function does nothing: calling it gives its clause.
pub fn stores<A: Allocator, D: Disk>(_store: &Store<A, D>)
    ensures { _store.now.broken ≡ false → HasBeenHonest D.view (view_of _store.now) → IsStoredIn A D.view (view_of _store.now) }
{}

/// `MemoryDisk::crash` is a stop in the life of a disk: the life goes on with the disk that it returns. Each pending sector that
/// `fill` names holds the bytes named last for it.
pub fn crash<A: Allocator, M: Allocator>(
    disk: MemoryDisk<M>,
    fill: &[(u64, [u8; 512])],
) -> MemoryDisk<M>
    ensures life { (base : State) (events : List (Event A)) → IsLife A memory_view base events (Closed disk)
        → IsLife A memory_view base (Unanswered [] ∷ events) (Closed result) }
    ensures filled { IsFilled (memory_view disk).reads (memory_view disk).pending fill.now (memory_view result).reads }
{
    disk.crash(fill)
}
