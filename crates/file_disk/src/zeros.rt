// Zeros in the sectors of a file.
ghost use Rattle.std.specs.Prelude.{◌≡◌, ◌≤◌, ◌<◌, ◌+◌, ◌*◌, ◌^◌, OnErr, replicate};
ghost use Rattle.sector_disk.specs.Filling.{HasFilled};
ghost use Rattle.file_disk.specs.File.{IsGivenUp};

use crate::SectorFile;
use crate::file::bytes_moved;
use crate::whole::write_sector;
use sector_disk::DiskError;

// How many sectors one call of the file fills.
const PIECE: u64 = 128;

// Writes zeros into so many sectors, from the sector `at` on: one after another.
fn fill_each<F: SectorFile>(file: &mut F, at: u64, count: u64) -> Result<(), DiskError>
    requires fits { 512 * (at + count) < 2 ^ 64 }
    ensures effect { at + count ≤ (F.view file.old).sectors → (F.view file.old).honest
        → HasFilled (F.view file.old) (F.view file.new) at count (λ k. replicate 512 0) result }
    ensures sectors { (F.view file.new).sectors ≡ (F.view file.old).sectors }
    ensures later { (F.view file.old).failures ≤ (F.view file.new).failures }
    ensures given_up { OnErr result (IsGivenUp F.view F.turns file.old file.new) }
{
    for k in 0..count {
        write_sector(file, at + k, &[0; 512])?;
    }
    Ok(())
}

// Writes zeros into the sectors of a piece, from the sector `at` on: by one call of the file. If that call writes fewer, they are
// written one after another.
fn fill_piece<F: SectorFile>(file: &mut F, at: u64, zeros: &[u8]) -> Result<(), DiskError>
    requires zeros { zeros.now ≡ replicate 65536 0 }
    requires fits { 512 * (at + 128) < 2 ^ 64 }
    ensures effect { at + 128 ≤ (F.view file.old).sectors → (F.view file.old).honest
        → HasFilled (F.view file.old) (F.view file.new) at 128 (λ k. replicate 512 0) result }
    ensures sectors { (F.view file.new).sectors ≡ (F.view file.old).sectors }
    ensures later { (F.view file.old).failures ≤ (F.view file.new).failures }
    ensures given_up { OnErr result (IsGivenUp F.view F.turns file.old file.new) }
{
    let written = bytes_moved(file.write_at(zeros, 512 * at))?;
    if written == zeros.len() {
        return Ok(());
    }
    fill_each(file, at, PIECE)
}

// Writes zeros into the first sectors of a file, so many.
pub(crate) fn fill_with_zeros<F: SectorFile>(file: &mut F, count: u64) -> Result<(), DiskError>
    requires fits { 512 * count < 2 ^ 64 }
    ensures effect { count ≤ (F.view file.old).sectors → (F.view file.old).honest
        → HasFilled (F.view file.old) (F.view file.new) 0 count (λ k. replicate 512 0) result }
    ensures sectors { (F.view file.new).sectors ≡ (F.view file.old).sectors }
    ensures later { (F.view file.old).failures ≤ (F.view file.new).failures }
    ensures given_up { OnErr result (IsGivenUp F.view F.turns file.old file.new) }
{
    let zeros = [0u8; 65536];
    let pieces = count / PIECE;
    for k in 0..pieces {
        fill_piece(file, PIECE * k, &zeros)?;
    }
    fill_each(file, PIECE * pieces, count - PIECE * pieces)
}
