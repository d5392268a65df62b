// The calls of a file that a disk is on.
ghost use Rattle.std.specs.Prelude.{◌≡◌, ◌<◌, ◌≤◌, ◌+◌, ◌*◌, ◌/◌, ℕ, IfOk, Result, length};
ghost use Rattle.std.specs.Io.{ReadsAtMost, WritesAtMost};
ghost use Rattle.std.specs.declared.io.Error.{Error};
ghost use Rattle.sector_disk.specs.Numbers.{Bytes};
ghost use Rattle.sector_disk.specs.Disk.{View, IsSound, HasSynced, HasCause};
ghost use Rattle.file_disk.specs.File.{HasReadPart, HasWrittenPart, HasWrittenSectors, ended, moved, one_more};

use sector_disk::DiskError;
use std::io;
use std::io::ErrorKind;

/// A file whose whole sectors of 512 bytes are read and written. Bytes after the last whole sector are no part of it.
///
/// A disk over it is honest where the file is. Each call passes that premise on. A file whose behaviour nobody can prove is
/// modelled as never honest. It still meets the other clauses.
pub trait SectorFile: Drop {
    /// What it is modelled as: its sectors as those of a disk. Its failures are the calls that failed.
    ghost view: { Self → View };

    /// How often it was read or written, up to the greatest `u64`.
    ghost turns: { Self → ℕ };

    /// What asking for its length answers. Only the call itself shows that this holds of an answer.
    ghost measured: { Self → Result Bytes Error → Type 0 };

    /// Its length in bytes.
    fn len(&self) -> io::Result<u64>
        ensures gives { measured self.now result }
        ensures value { (view self.now).honest → IfOk result (λ bytes. bytes / 512 ≡ (view self.now).sectors) };

    /// Reads some bytes from an offset on, and returns how many. It may be interrupted, and read fewer than asked for.
    fn read_at(&mut self, bytes: &mut [u8], offset: u64) -> io::Result<usize>
        ensures effect { (at from : ℕ) → offset ≡ 512 * at + from → from < 512 → from + length bytes.old ≤ 512
            → at < (view self.old).sectors → (view self.old).honest → HasReadPart (view self.old) (view self.new) at from bytes.new (moved result) }
        ensures bound { ReadsAtMost result bytes.new }
        ensures cause { HasCause (view self.old) (view self.new) (moved result) }
        ensures turns { turns self.new ≡ one_more (turns self.old) };

    /// Writes a prefix of these bytes from an offset on, and returns its length. It may be interrupted, and write fewer than
    /// asked for.
    ///
    /// Until the next sync that succeeds, a stop may leave any bytes in their sector, or in all sectors that they are.
    fn write_at(&mut self, bytes: &[u8], offset: u64) -> io::Result<usize>
        ensures effect { (at from : ℕ) → offset ≡ 512 * at + from → from < 512 → from + length bytes.now ≤ 512
            → at < (view self.old).sectors → (view self.old).honest → HasWrittenPart (view self.old) (view self.new) at from bytes.now (moved result) }
        ensures sectors { (at count : ℕ) → offset ≡ 512 * at → 1 < count → length bytes.now ≡ 512 * count
            → at + count ≤ (view self.old).sectors → (view self.old).honest
            → HasWrittenSectors (view self.old) (view self.new) at count bytes.now (moved result) }
        ensures bound { WritesAtMost result bytes.now }
        ensures cause { HasCause (view self.old) (view self.new) (moved result) }
        ensures turns { turns self.new ≡ one_more (turns self.old) };

    /// Makes what was written durable.
    fn sync(&mut self) -> io::Result<()>
        ensures effect { (view self.old).honest → HasSynced (view self.old) (view self.new) (ended result) }
        ensures cause { HasCause (view self.old) (view self.new) (ended result) };

    /// An honest file is sound.
    ghost sound: { (file : Self) → (view file).honest → IsSound (view file) };
}

// How many bytes a call moved: none where it was interrupted. No byte without an interruption is a fault.
pub(crate) fn bytes_moved(answer: io::Result<usize>) -> Result<usize, DiskError>
    ensures { result ≡ moved answer }
{
    match answer {
        Ok(0) => Err(DiskError::DiskFault),
        Ok(count) => Ok(count),
        Err(error) => match error.kind() {
            ErrorKind::Interrupted => Ok(0),
            _ => Err(DiskError::DiskFault),
        },
    }
}
