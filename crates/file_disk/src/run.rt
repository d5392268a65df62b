// A run of sectors of a file.
ghost use Rattle.std.specs.Prelude.{◌≡◌, ◌≤◌, ◌<◌, ◌+◌, ◌*◌, ◌^◌, OnErr, length};
ghost use Rattle.sector_disk.specs.Filling.{HasFilled, part_of, sectors_in};
ghost use Rattle.file_disk.specs.File.{IsGivenUp};

use crate::SectorFile;
use crate::file::bytes_moved;
use crate::whole::write_sector;
use sector_disk::{DiskError, sector_in};

// Writes the sectors of a run one after another, from the sector `at` on.
fn write_each<F: SectorFile>(file: &mut F, at: u64, bytes: &[u8]) -> Result<(), DiskError>
    requires whole { length bytes.now ≡ 512 * sectors_in bytes.now }
    requires fits { 512 * (at + sectors_in bytes.now) < 2 ^ 64 }
    ensures effect { at + sectors_in bytes.now ≤ (F.view file.old).sectors → (F.view file.old).honest
        → HasFilled (F.view file.old) (F.view file.new) at (sectors_in bytes.now) (part_of bytes.now) result }
    ensures sectors { (F.view file.new).sectors ≡ (F.view file.old).sectors }
    ensures later { (F.view file.old).failures ≤ (F.view file.new).failures }
    ensures given_up { OnErr result (IsGivenUp F.view F.turns file.old file.new) }
{
    for k in 0..bytes.len() / 512 {
        write_sector(file, at + k as u64, sector_in(bytes, k))?;
    }
    Ok(())
}

// Writes the sectors of a run, from the sector `at` on: several by one call of the file. If that call writes fewer, they are
// written one after another.
pub(crate) fn write_sectors<F: SectorFile>(
    file: &mut F,
    at: u64,
    bytes: &[u8],
) -> Result<(), DiskError>
    requires whole { length bytes.now ≡ 512 * sectors_in bytes.now }
    requires fits { 512 * (at + sectors_in bytes.now) < 2 ^ 64 }
    ensures effect { at + sectors_in bytes.now ≤ (F.view file.old).sectors → (F.view file.old).honest
        → HasFilled (F.view file.old) (F.view file.new) at (sectors_in bytes.now) (part_of bytes.now) result }
    ensures sectors { (F.view file.new).sectors ≡ (F.view file.old).sectors }
    ensures later { (F.view file.old).failures ≤ (F.view file.new).failures }
    ensures given_up { OnErr result (IsGivenUp F.view F.turns file.old file.new) }
{
    if bytes.len() <= 512 {
        return write_each(file, at, bytes);
    }
    let written = bytes_moved(file.write_at(bytes, 512 * at))?;
    if written == bytes.len() {
        return Ok(());
    }
    write_each(file, at, bytes)
}
