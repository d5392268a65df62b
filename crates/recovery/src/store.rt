//! A register that is kept on a disk.
ghost use Rattle.std.specs.Prelude.{◌≡◌, ◌≤◌, ◌<◌, [], IfErr, IfOk, IfSome, true, false, Some, None, option_map};
ghost use Rattle.checkpoint.specs.Layout.{disk_size, half_at, half_end};
ghost use Rattle.recovery.specs.UnderWay.{BelongsTo, IsKept};
ghost use Rattle.std.proofs.Props.{props};

use crate::StoreFault;
use crate::before::Before;
use crate::ongoing::Ongoing;
use crate::opening::{Opened, read_all};
use centre_core::Register;
use checkpoint::{Layout, Side};
use gated_journal::Journal;
use sector_disk::Disk;
use std::alloc::Allocator;

/// A register that is kept on a disk: each command that it accepts is on the disk before it is answered.
#[derive(Drop)]
pub struct Store<A: Allocator, D: Disk> {
    pub(crate) alloc: A,
    pub(crate) disk: D,
    pub(crate) layout: Layout,
    pub(crate) side: Side,
    pub(crate) epoch: u64,
    pub(crate) journal: Journal<A>,
    pub(crate) ongoing: Option<Ongoing<A>>,
    pub(crate) register: Register<A>,
    // The register as it was when the current call began. A store that this call breaks shows it.
    pub(crate) before: Before<Register<A>>,
    // The disk as it was when the store was opened.
    pub(crate) found: Before<D>,
    // Whether the device has failed. It is set within a call too, until what the call did is on the disk.
    pub(crate) broken: bool,
    ghost room: { disk_size layout ≤ (D.view disk).sectors },
    ghost limits: { register.registered.limits ≡ layout.limits },
    ghost first: { journal.first ≡ half_at layout side },
    ghost end: { journal.end ≡ half_end layout side },
    ghost next: { journal.next < half_end layout side },
    ghost counts: { journal.count ≤ register.count },
    ghost other: { IfSome ongoing (λ it. BelongsTo layout side epoch journal register.count it) } by { Prim.hlevel props },
    // Of a store that is not broken: if the disk was honest when the store was opened, it still is, and the register is on it.
    // A ghost field has one proof at most, so this is truncated: `lives::stores` gives it as it is.
    ghost stored: { ∥ (broken ≡ false → (D.view found.value).honest
        → (D.view disk).honest × IsKept A layout side epoch journal ongoing register (D.view disk)) ∥₁ },
}

impl<A: Allocator + Copy, D: Disk> Store<A, D> {
    ghost use Rattle.recovery.specs.Lives.{Answered, Closed, IsCall, Open, view_of};
    ghost use Rattle.recovery.specs.OpenedStore.{IsOpenedOn, IsRefusedOn};

    /// Opens the register that is kept on a disk, under `alloc`. A fault returns the disk. The disk is synced first, and
    /// then only read.
    ///
    /// `Unformatted`, `BadGeometry` and `Damaged` report what is on the disk. `Damaged` names the sector at fault.
    pub fn open(alloc: A, disk: D) -> Result<Store<A, D>, (StoreFault, D)>
        ensures opened { IfOk result (λ store. IsOpenedOn D.view disk store) }
        ensures refused { IfErr result (λ e. IsRefusedOn A D.view disk e.0 e.1) }

        // In the life of the disk this is a call that accepts nothing: a store is opened, or the disk is returned.
        ensures call { IfOk result (λ store. (D.view disk).honest → IsCall A D.view (Closed disk) (Answered []) (Open (view_of store))) }
        ensures call_by { IfErr result (λ e. (D.view disk).honest → IsCall A D.view (Closed disk) (Answered []) (Closed e.1)) }
    {
        let mut disk = disk;
        let found = Before::of(&disk);
        let Ok(()) = disk.sync() else {
            return Err((StoreFault::DiskFault, disk));
        };
        match read_all(alloc, &mut disk) {
            Ok(opened) => {
                let Opened {
                    layout,
                    side,
                    epoch,
                    journal,
                    register,
                } = opened;
                let before = Before::of(&register);
                Ok(Store {
                    alloc,
                    disk,
                    layout,
                    side,
                    epoch,
                    journal,
                    ongoing: None,
                    register,
                    before,
                    found,
                    broken: false,
                })
            }
            Err(fault) => Err((fault, disk)),
        }
    }
}

impl<A: Allocator, D: Disk> Store<A, D> {
    ghost use Rattle.recovery.specs.Lives.{Answered, Closed, IsCall, Open, view_of};

    /// The register, or `None` once the device has failed in a call.
    pub fn register(&self) -> Option<&Register<A>>
        ensures broken { self.now.broken ≡ true → result ≡ None }
        ensures sound { self.now.broken ≡ false → option_map (λ register. register.now) result ≡ Some self.now.register }
    {
        if self.broken {
            return None;
        }
        Some(&self.register)
    }

    /// Returns the disk.
    pub fn into_disk(self) -> D
        ensures disk { result ≡ self.disk }
        ensures call { IsCall A D.view (Open (view_of self)) (Answered []) (Closed result) }
    {
        self.disk
    }
}
