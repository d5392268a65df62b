// A moment of a disk's clock. Only contracts read it.
ghost use Rattle.std.specs.Prelude.{◌≡◌};
ghost use Rattle.std.specs.Borrow.{ftrue};
ghost use Rattle.std.specs.Coded.{coded_ℕ};
ghost use Rattle.sector_disk.specs.Numbers.{Tick};

use recovery::Store;
use sector_disk::Disk;
use std::alloc::Global;
use std::marker::{Model, PhantomData};

// A moment takes no bytes. Other modules make one only by `of` and `copy`.
#[derive(Drop)]
pub(crate) struct Moment {
    marker: PhantomData<()>,
    pub(crate) ghost tick: { Tick } by { coded_ℕ },
}

impl Model for Moment {
    ghost also_owns = { λ _. ftrue };
}

impl Moment {
    // The moment now, by the clock of this store's disk.
    pub(crate) fn of<D: Disk>(_store: &Store<Global, D>) -> Moment
        ensures { result.tick ≡ (D.view _store.now.disk).moment }
    {
        Moment {
            marker: PhantomData,
        }
    }

    // A copy of this moment.
    pub(crate) fn copy(&self) -> Moment
        ensures { result.tick ≡ self.now.tick }
    {
        Moment {
            marker: PhantomData,
        }
    }
}
