// A record added to two halves of a disk, in the same two syncs.
ghost use Rattle.std.specs.Prelude.{◌≡◌, ◌⊎◌, ◌+◌, ◌<◌, ◌≤◌, ◌^◌, ℕ, IsErr, IsErrOf, OnErr, OnOk, false, length};
ghost use Rattle.sector_disk.specs.Effects.{KeepsDisk};
ghost use Rattle.sector_disk.specs.declared.disk.DiskError.TheVariants.{OutOfRange};
ghost use Rattle.gated_journal.specs.Inside.Adding.{AddsTexts};
ghost use Rattle.sector_disk.specs.Filling.{Runs};
ghost use Rattle.gated_journal.specs.Inside.Filling.{AreFilled, both_calls};
ghost use Rattle.gated_journal.specs.Record.{data_size};

use crate::Place;
use crate::padded::Padded;
use crate::place::{fill, sectors_for};
use sector_disk::{Disk, DiskError};
use std::alloc::Allocator;

// The first `sectors` sectors of a text, and the sector `at` of the disk where they are to be written.
#[derive(Drop)]
struct SectorRun<'a> {
    at: u64,
    sectors: u64,
    data: &'a Padded<'a>,
}

// Writes two runs of sectors, one after the other, and syncs them.
fn settle_both<D: Disk>(
    disk: &mut D,
    first: &SectorRun<'_>,
    second: &SectorRun<'_>,
) -> Result<(), DiskError>
    requires room { first.now.at + first.now.sectors ≤ (D.view disk.old).sectors }
    requires other_room { second.now.at + second.now.sectors ≤ (D.view disk.old).sectors }
    requires fits { first.now.at + first.now.sectors < 2 ^ 64 }
    requires other_fits { second.now.at + second.now.sectors < 2 ^ 64 }
    requires small { first.now.sectors < 2 ^ 32 }
    requires other_small { second.now.sectors < 2 ^ 32 }
    requires apart { (first.now.at + first.now.sectors ≤ second.now.at) ⊎ (second.now.at + second.now.sectors ≤ first.now.at) }
    ensures effect { (D.view disk.old).honest → AreFilled (D.view disk.old) (D.view disk.new) first.now second.now result }
    ensures durable { (D.view disk.old).honest → OnOk result ((k : ℕ) → (D.view disk.new).pending k ≡ false) }
    ensures runs { Runs (D.view disk.old) (D.view disk.new) (both_calls first.now second.now) result }
{
    fill(disk, first.at, first.sectors, first.data)?;
    fill(disk, second.at, second.sectors, second.data)?;
    disk.sync()
}

// Adds a record to two halves, with a text for each half. Both texts are of one list of commands under the allocator A. The caller
// adds the commands to `count` of both places.
pub(crate) fn append_texts<A: Allocator, D: Disk>(
    disk: &mut D,
    place: &mut Place,
    other: &mut Place,
    data: &Padded<'_>,
    other_data: &Padded<'_>,
) -> Result<(), DiskError>
    requires within { (place.old.end ≤ (D.view disk.old).sectors) × (other.old.end ≤ (D.view disk.old).sectors) }
    requires apart { (place.old.end ≤ other.old.first) ⊎ (other.old.end ≤ place.old.first) }
    requires up { place.old.first ≤ place.old.next }
    requires other_up { other.old.first ≤ other.old.next }
    requires small { length data.now.text.now < 2 ^ 32 }
    requires other_small { length other_data.now.text.now < 2 ^ 32 }
    requires fits { place.old.next + data_size data.now.text.now + 2 ≤ place.old.end }
    requires other_fits { other.old.next + data_size other_data.now.text.now + 2 ≤ other.old.end }

    // In each half a stop leaves the records with the new one or without it. At `Ok` a stop after the call leaves the new one in both.
    ensures adds { AddsTexts A (D.view disk.old) (D.view disk.new) place.old place.new other.old other.new data.now.text.now
        other_data.now.text.now result }
    ensures same { OnErr result ((place.new ≡ place.old) × (other.new ≡ other.old)) }
    ensures keeps { KeepsDisk (D.view disk.old) (D.view disk.new) (IsErr result) }
    ensures in_range { IsErrOf result OutOfRange → ⊥ }
{
    let size = sectors_for(data.text.len() as u64);
    let other_size = sectors_for(other_data.text.len() as u64);
    // Both texts, each with the gate after it, closed. Then the gates of both records, open.
    settle_both(
        disk,
        &SectorRun {
            at: place.next + 1,
            sectors: size + 1,
            data: &*data,
        },
        &SectorRun {
            at: other.next + 1,
            sectors: other_size + 1,
            data: &*other_data,
        },
    )?;
    let open = Padded {
        text: &[1],
        bytes: &[1],
    };
    settle_both(
        disk,
        &SectorRun {
            at: place.next,
            sectors: 1,
            data: &open,
        },
        &SectorRun {
            at: other.next,
            sectors: 1,
            data: &open,
        },
    )?;
    place.next += size + 1;
    other.next += other_size + 1;
    Ok(())
}
