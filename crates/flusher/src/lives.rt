//! Rounds in the life of a disk.

ghost use Rattle.centre_core.specs.State.{State};
ghost use Rattle.flusher.specs.Lasting.{AreLasting};
ghost use Rattle.flusher.specs.Lives.{LivesOn};
ghost use Rattle.flusher.specs.View.{FlusherView};

use sector_disk::Disk;

/// The rounds of a run are calls in the life of the disk, one after another, with stops within and between them. So
/// `recovery::lives::lasts` speaks of a disk that one run after another serves.
///
/// This function does nothing: calling it gives its clause.
pub fn rounds_live<D: Disk>()
    ensures { (base : State) (first last : FlusherView D) → AreLasting D.view base first last → LivesOn D.view base first last }
{}
