//! The figures of a register that is kept on a disk.
ghost use Rattle.std.specs.Prelude.{◌≡◌, ◌≤◌, ◌-◌, None, Some, false, true};
ghost use Rattle.image_rows.specs.Rows.{last_epoch};
ghost use Rattle.checkpoint.specs.declared.layout.Layout.{Layout};
ghost use Rattle.checkpoint.specs.Layout.{half_end};
ghost use Rattle.recovery.specs.Figures.{figures_at, figures_of, layout_of};
ghost use Rattle.recovery.specs.Lives.{view_of};

use crate::Store;
use checkpoint::Side;
use gated_journal::{Form, Place};
use image_rows::LAST_EPOCH;
use sector_disk::Disk;
use std::alloc::Allocator;

/// The figures of the side of a disk that counts. A checkpoint that is under way on the other side changes none of them.
#[derive(Clone, Copy, Debug, PartialEq, Eq, Drop)]
pub struct Figures {
    /// The layout of the side: 1 if its records are plain, 2 if they are numbered.
    pub layout: u8,
    /// The side.
    pub side: Side,
    /// The epoch of its image.
    pub epoch: u64,
    /// How many epochs can still follow. Each checkpoint takes one.
    pub epochs_left: u64,
    /// The first closed gate of its half, which the next record opens.
    pub gate: u64,
    /// How many sectors its half has from that gate on. The next record may have two data sectors fewer: its gate comes
    /// before them, and a closed one after them.
    pub free: u64,
    /// How many commands the register has accepted.
    pub count: u64,
}

// The layout of a side whose records have this form.
fn layout_of(form: Form) -> u8
    ensures { result ≡ layout_of form }
{
    match form {
        Form::Plain => 1,
        Form::Numbered => 2,
    }
}

// How many epochs can follow this one.
fn epochs_after(epoch: u64) -> u64
    ensures { result ≡ last_epoch - epoch }
{
    LAST_EPOCH.saturating_sub(epoch)
}

// The figures of a side with this epoch and this number of accepted commands, whose journal is at this place.
pub(crate) fn figures_by(side: Side, epoch: u64, place: Place, count: u64) -> Figures
    requires { place.next ≤ place.end }
    ensures { (layout : Layout) → place.end ≡ half_end layout side → result ≡ figures_of layout side place.form epoch place.next count }
{
    Figures {
        layout: layout_of(place.form),
        side,
        epoch,
        epochs_left: epochs_after(epoch),
        gate: place.next,
        free: place.end - place.next,
        count,
    }
}

impl<A: Allocator + Clone, D: Disk> Store<A, D> {
    /// The figures of the side that counts, or `None` once the device has failed in a call. The disk is not read.
    pub fn figures(&self) -> Option<Figures>
        ensures broken { self.now.broken ≡ true → result ≡ None }
        ensures sound { self.now.broken ≡ false → result ≡ Some (figures_at (view_of self.now)) }
    {
        if self.broken {
            return None;
        }
        Some(figures_by(
            self.side,
            self.epoch,
            self.journal.place(),
            self.register.count(),
        ))
    }
}
