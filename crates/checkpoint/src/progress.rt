//! The image of a register, written a few rows at a time.
ghost use Rattle.std.specs.Prelude.{◌≡◌, ◌≤◌, ◌<◌, ◌+◌, ◌^◌, OnOk, length, nat_eq};
ghost use Rattle.image_rows.specs.Rows.{rows_of};
ghost use Rattle.checkpoint.specs.Progress.{IsProgress, WritesNext, WritesNextAt, written_after};
ghost use Rattle.checkpoint.specs.Layout.{other_of};
ghost use Rattle.checkpoint.specs.Writing.{HasRoomFor};

use crate::{Layout, Side};
use centre_core::Register;
use image_rows::{RowPlace, row_after};
use sector_disk::{Disk, DiskError};
use std::alloc::Allocator;

/// The most rows that one call writes.
const MOST_ROWS: u64 = 8;

/// How far the image of a register is written: its epoch, how many of its rows are written, and the place of the last row written.
#[derive(Clone, Copy, Debug, Drop)]
pub struct ImageProgress {
    pub(crate) epoch: u64,
    pub(crate) written: u64,
    pub(crate) last: Option<RowPlace>,
}

impl ImageProgress {
    /// The progress before the first row: no row of the register's image with this epoch is written yet.
    pub fn begun<A: Allocator + Clone>(epoch: u64, register: &Register<A>) -> ImageProgress
        ensures epoch { result.epoch ≡ epoch }
        ensures none { result.written ≡ 0 }
        ensures begun { IsProgress epoch register.now result }
    {
        centre_core::laws::registers(register);
        ImageProgress {
            epoch,
            written: 0,
            last: None,
        }
    }

    /// How many rows are written.
    pub fn written(&self) -> u64
        ensures { result ≡ self.now.written }
    {
        self.written
    }

    /// Whether all rows of the register's image are written.
    pub fn is_whole<A: Allocator + Clone>(&self, register: &Register<A>) -> bool
        requires begun { IsProgress self.now.epoch register.now self.now }
        ensures { result ≡ nat_eq self.now.written (length (rows_of self.now.epoch register.now)) }
    {
        row_after(register, self.epoch, self.last).is_none()
    }
}

// Writes the next rows to the slot that begins with the sector `at`, after those that are written.
fn put_rows<A: Allocator + Clone, D: Disk>(
    disk: &mut D,
    at: u64,
    epoch: u64,
    register: &Register<A>,
    progress: &mut ImageProgress,
) -> Result<(), DiskError>
    requires room { at + length (rows_of epoch register.now) ≤ (D.view disk.old).sectors }
    requires fits { at + length (rows_of epoch register.now) < 2 ^ 64 }
    requires begun { IsProgress epoch register.now progress.old }
    ensures rows { WritesNextAt (D.view disk.old) (D.view disk.new) at (epoch, register.now) progress.old.written result }
    ensures written { OnOk result (progress.new.written ≡ written_after epoch register.now progress.old.written) }
    ensures progress { IsProgress epoch register.now progress.new }
    ensures epoch { progress.new.epoch ≡ progress.old.epoch }
{
    centre_core::laws::registers(register);
    let mut left = MOST_ROWS;
    while left > 0 {
        let coming = row_after(register, epoch, progress.last);
        let Some(next) = &coming else {
            return Ok(());
        };
        disk.write(at + progress.written, &next.1)?;
        progress.written += 1;
        progress.last = Some(next.0);
        left -= 1;
    }
    Ok(())
}

/// Writes the next rows of a register's image, at most 8, one a sector, to the side that is not current. `progress` states where
/// they begin. Takes no memory, reads nothing, and syncs nothing: a stop may tear these rows until the next sync.
///
/// The register has the layout's limits, and is the one that `progress` was begun with.
pub fn write_next_rows<A: Allocator + Clone, D: Disk>(
    disk: &mut D,
    layout: &Layout,
    current: Side,
    register: &Register<A>,
    progress: &mut ImageProgress,
) -> Result<(), DiskError>
    requires fits { HasRoomFor layout.now register.now (D.view disk.old) }
    requires begun { IsProgress progress.old.epoch register.now progress.old }

    // A stop at any moment of the call leaves all but these rows' sectors as they were. At `Ok` these read as the rows.
    // Each of these rows is written once, in order. A call that fails is the last.
    ensures rows { WritesNext (D.view disk.old) (D.view disk.new) layout.now (other_of current) register.now progress.old result }

    // Eight more are written, or all that were left.
    ensures written { OnOk result (progress.new.written ≡ written_after progress.old.epoch register.now progress.old.written) }
    ensures progress { IsProgress progress.new.epoch register.now progress.new }
    ensures epoch { progress.new.epoch ≡ progress.old.epoch }
{
    centre_core::laws::registers(register);
    let epoch = progress.epoch;
    put_rows(
        disk,
        layout.slot(current.other()),
        epoch,
        register,
        progress,
    )
}
