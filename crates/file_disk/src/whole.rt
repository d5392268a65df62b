// A sector read and written whole, in a bounded number of calls of the file.
ghost use Rattle.std.specs.Prelude.{◌≡◌, ◌<◌, ◌≤◌, ◌+◌, ◌-◌, ◌*◌, ◌^◌, ◌⊎◌, drop, take, IfErr, IfOk};
ghost use Rattle.sector_disk.specs.Disk.{HasCause, HasRead, HasWritten};
ghost use Rattle.sector_disk.specs.declared.disk.DiskError.TheVariants.{DiskFault};
ghost use Rattle.file_disk.specs.File.{HasReadPart, HasWrittenPart, HasGivenUp, most_calls, one_more};

use crate::SectorFile;
use crate::file::bytes_moved;
use sector_disk::DiskError;

// The most calls of the file for one sector.
const MOST_CALLS: u32 = 1024;

// Makes one call, for the bytes that are not read yet.
fn read_more<F: SectorFile>(
    file: &mut F,
    at: u64,
    done: usize,
    bytes: &mut [u8; 512],
) -> Result<usize, DiskError>
    requires { (done < 512) × (512 * at + 511 < 2 ^ 64) }
    ensures effect { at < (F.view file.old).sectors → (F.view file.old).honest
        → HasReadPart (F.view file.old) (F.view file.new) at done (drop done bytes.new) result }
    ensures kept { take done bytes.new ≡ take done bytes.old }
    ensures bound { IfOk result (λ n. done + n ≤ 512) }
    ensures cause { HasCause (F.view file.old) (F.view file.new) result }
    ensures fault { IfErr result (λ e. e ≡ DiskFault) }
    ensures turns { F.turns file.new ≡ one_more (F.turns file.old) }
{
    bytes_moved(file.read_at(&mut bytes[done..], 512 * at + done as u64))
}

// Makes one call, for the bytes that are not written yet.
fn write_more<F: SectorFile>(
    file: &mut F,
    at: u64,
    done: usize,
    bytes: &[u8; 512],
) -> Result<usize, DiskError>
    requires { (done < 512) × (512 * at + 511 < 2 ^ 64) }
    ensures effect { at < (F.view file.old).sectors → (F.view file.old).honest
        → HasWrittenPart (F.view file.old) (F.view file.new) at done (drop done bytes.now) result }
    ensures bound { IfOk result (λ n. done + n ≤ 512) }
    ensures cause { HasCause (F.view file.old) (F.view file.new) result }
    ensures fault { IfErr result (λ e. e ≡ DiskFault) }
    ensures turns { F.turns file.new ≡ one_more (F.turns file.old) }
{
    bytes_moved(file.write_at(&bytes[done..], 512 * at + done as u64))
}

pub(crate) fn read_sector<F: SectorFile>(
    file: &mut F,
    at: u64,
    bytes: &mut [u8; 512],
) -> Result<(), DiskError>
    requires { 512 * at + 511 < 2 ^ 64 }
    ensures effect { at < (F.view file.old).sectors → (F.view file.old).honest
        → HasRead (F.view file.old) (F.view file.new) at bytes.new result }
    ensures sectors { (F.view file.new).sectors ≡ (F.view file.old).sectors }
    ensures given_up { IfErr result (λ e. (e ≡ DiskFault) × HasGivenUp (F.view file.old) (F.view file.new) (F.turns file.old) (F.turns file.new)) }
    ensures turns { F.turns file.new ≤ F.turns file.old + most_calls }
{
    let mut done = 0;
    for _call in 0..MOST_CALLS {
        done += read_more(file, at, done, bytes)?;
        if done == 512 {
            return Ok(());
        }
    }
    Err(DiskError::DiskFault)
}

pub(crate) fn write_sector<F: SectorFile>(
    file: &mut F,
    at: u64,
    bytes: &[u8; 512],
) -> Result<(), DiskError>
    requires { 512 * at + 511 < 2 ^ 64 }
    ensures effect { at < (F.view file.old).sectors → (F.view file.old).honest
        → HasWritten (F.view file.old) (F.view file.new) at bytes.now result }
    ensures sectors { (F.view file.new).sectors ≡ (F.view file.old).sectors }
    ensures given_up { IfErr result (λ e. (e ≡ DiskFault) × HasGivenUp (F.view file.old) (F.view file.new) (F.turns file.old) (F.turns file.new)) }
    ensures turns { F.turns file.new ≤ F.turns file.old + most_calls }
    ensures later { (F.view file.old).failures ≤ (F.view file.new).failures }
{
    let mut done = 0;
    for _call in 0..MOST_CALLS {
        done += write_more(file, at, done, bytes)?;
        if done == 512 {
            return Ok(());
        }
    }
    Err(DiskError::DiskFault)
}
