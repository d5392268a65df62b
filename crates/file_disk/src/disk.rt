// A disk over a file.
ghost use Rattle.std.specs.Prelude.{◌≡◌, ◌⊎◌, ◌<◌, ◌≤◌, ◌+◌, ◌-◌, ◌*◌, ◌/◌, ◌^◌, ◌++◌, true, false, Err, IfErr, IfOk, IsErrOf, OnErr, OnOk, is_err, length, replicate};
ghost use Rattle.sector_disk.specs.Disk.{HasCause, HasFailed, IsCalled, HasRead, HasSynced, HasWritten, one_failure_more};
ghost use Rattle.sector_disk.specs.Filling.{HasFilled, Runs, part_of, sectors_in};
ghost use Rattle.sector_disk.specs.Run.{writes};
ghost use Rattle.sector_disk.specs.declared.record.Call.TheVariants.{Read, Sync, Write};
ghost use Rattle.sector_disk.specs.declared.disk.DiskError.TheVariants.{DiskFault, OutOfRange};

use crate::history::{History, Note};
use crate::run::write_sectors;
use crate::whole::{read_sector, write_sector};
use crate::zeros::fill_with_zeros;
use crate::{FileFault, SectorFile};
use sector_disk::{Disk, DiskError, sector_in};

/// A disk whose sectors are in a file, one after another from its beginning.
///
/// A sector is read and written whole, in at most 1,024 calls of the file. A run of several sectors is written by one call; if
/// that writes fewer, they are written one after another. After a failed sync every call in range is a `DiskFault`: the operating
/// system may have dropped what it could not write, and then answer `Ok` to the next sync.
///
/// A new disk over the same file does not know of the failed sync. It reads what the file gives, which need not be what the
/// device holds.
#[derive(Drop)]
pub struct FileDisk<F> {
    file: F,
    sectors: u64,
    lost: bool,
    failures: u64,
    history: History,
    ghost fits: { 512 * sectors < 2 ^ 64 },
    ghost counted: { failures < 2 ^ 64 },
}

impl<F: SectorFile> FileDisk<F> {
    ghost use Rattle.file_disk.specs.declared.fault.FileFault.TheVariants.{KeepsNothing, NotOpened};
    ghost use Rattle.file_disk.specs.declared.fault.OpenCause.{OpenCause};
    ghost use Rattle.file_disk.specs.File.{IsGivenUp};
    ghost use Rattle.file_disk.specs.Reasons.{IsMeasured, IsNotBlank, IsUnmeasured};
    ghost use Rattle.file_disk.specs.Disk.{IsBlank, IsNew, blank_calls, calls_of, file_of, file_view, is_lost};

    /// A disk on a file as it is, with each whole sector of the file. Bytes after the last whole sector are ignored.
    pub fn over(file: F) -> Result<Self, FileFault>
        ensures file { IfOk result (λ disk. file_of disk ≡ file) }
        ensures sectors { (F.view file).honest → IfOk result (λ disk. disk.sectors ≡ (F.view file).sectors) }
        ensures honest { (F.view file).honest → IfOk result (λ disk. (file_view F.view disk).honest) }
        ensures refused { (cause : OpenCause) → IsErrOf result (NotOpened cause) → ⊥ }
        ensures kind { IsErrOf result KeepsNothing → ⊥ }
        ensures new { IfOk result IsNew }
        ensures measured { IfOk result (λ disk. IsMeasured (F.measured file) disk.sectors) }
        ensures reason { IfErr result (IsUnmeasured (F.measured file)) }
    {
        match file.len() {
            Ok(bytes) => Ok(FileDisk {
                file,
                sectors: bytes / 512,
                lost: false,
                failures: 0,
                history: History::new(),
            }),
            Err(error) => Err(FileFault::DiskFault.or_memory(error)),
        }
    }

    /// The same, with zeros in each sector, made durable. Each sector is written, and then the file is synced. A call of the file
    /// writes 128 sectors; if it writes fewer, they are written one after another.
    pub fn blank(file: F) -> Result<Self, FileFault>
        ensures blank { (F.view file).honest → IfOk result (IsBlank F.view (F.view file).sectors) }
        ensures calls { IfOk result (λ disk. calls_of disk ≡ blank_calls disk.sectors) }
        ensures failures { IfOk result (λ disk. disk.failures ≡ 0) }
        ensures kept { IfOk result (λ disk. is_lost disk ≡ false) }
        ensures refused { (cause : OpenCause) → IsErrOf result (NotOpened cause) → ⊥ }
        ensures reason { IfErr result (IsNotBlank F.view F.turns F.measured file) }
    {
        let mut disk = FileDisk::over(file)?;
        match disk.clear() {
            Ok(()) => Ok(disk),
            Err(_) => Err(FileFault::DiskFault),
        }
    }

    // Writes zeros into each sector of a new disk, and makes them durable.
    pub(crate) fn clear(&mut self) -> Result<(), DiskError>
        requires new { IsNew self.old }
        ensures blank { (F.view self.old.file).honest → self.old.sectors ≡ (F.view self.old.file).sectors
            → OnOk result (IsBlank F.view (F.view self.old.file).sectors self.new) }
        ensures calls { OnOk result (calls_of self.new ≡ blank_calls self.new.sectors) }
        ensures sectors { self.new.sectors ≡ self.old.sectors }
        ensures failures { OnOk result (self.new.failures ≡ 0) }
        ensures kept { OnOk result (is_lost self.new ≡ false) }
        ensures given_up { OnErr result (IsGivenUp F.view F.turns self.old.file self.new.file) }
    {
        self.fill()?;
        self.sync()?;
        Ok(())
    }

    // Writes zeros into each sector.
    fn fill(&mut self) -> Result<(), DiskError>
        ensures effect { (file_view F.view self.old).honest
            → HasFilled (file_view F.view self.old) (file_view F.view self.new) 0 self.old.sectors (λ k. replicate 512 0) result }
        ensures sectors { self.new.sectors ≡ self.old.sectors }
        ensures calls { OnOk result (calls_of self.new ≡ calls_of self.old ++ writes 0 self.old.sectors (λ k. replicate 512 0)) }
        ensures kept { (self.new.lost ≡ self.old.lost) × (self.new.failures ≡ self.old.failures) }
        ensures later { (F.view self.old.file).failures ≤ (F.view self.new.file).failures }
        ensures given_up { OnErr result (IsGivenUp F.view F.turns self.old.file self.new.file) }
    {
        fill_with_zeros(&mut self.file, self.sectors)?;
        self.note_zeros();
        Ok(())
    }

    // Notes a write of zeros into each sector.
    fn note_zeros(&mut self)
        ensures calls { calls_of self.new ≡ calls_of self.old ++ writes 0 self.old.sectors (λ k. replicate 512 0) }
        ensures file { (self.new.file ≡ self.old.file) × (self.new.sectors ≡ self.old.sectors) }
        ensures kept { (self.new.lost ≡ self.old.lost) × (self.new.failures ≡ self.old.failures) }
    {
        let sectors = self.sectors;
        for k in 0..sectors {
            self.history = self.history.then(&Note::Write(k, &[0; 512]));
        }
    }

    // Notes a write of each sector of a run.
    fn note_run(&mut self, at: u64, bytes: &[u8])
        requires whole { length bytes.now ≡ 512 * sectors_in bytes.now }
        requires fits { at + sectors_in bytes.now < 2 ^ 64 }
        ensures calls { calls_of self.new ≡ calls_of self.old ++ writes at (sectors_in bytes.now) (part_of bytes.now) }
        ensures file { (self.new.file ≡ self.old.file) × (self.new.sectors ≡ self.old.sectors) }
        ensures kept { (self.new.lost ≡ self.old.lost) × (self.new.failures ≡ self.old.failures) }
    {
        for k in 0..bytes.len() / 512 {
            self.history = self
                .history
                .then(&Note::Write(at + k as u64, sector_in(bytes, k)));
        }
    }

    /// The file, as the calls left it.
    pub fn into_file(self) -> F
        ensures { result ≡ file_of self }
    {
        let FileDisk {
            file,
            sectors: _,
            lost: _,
            failures: _,
            history: _,
        } = self;
        file
    }

    // Counts a failure.
    fn fail(&mut self) -> DiskError
        ensures fault { result ≡ DiskFault }
        ensures counted { self.new.failures ≡ one_failure_more self.old.failures }
        ensures file { (self.new.file ≡ self.old.file) × (self.new.sectors ≡ self.old.sectors) }
        ensures kept { (self.new.lost ≡ self.old.lost) × (self.new.history ≡ self.old.history) }
    {
        self.failures = self.failures.saturating_add(1);
        DiskError::DiskFault
    }
}

impl<F: SectorFile> Disk for FileDisk<F> {
    ghost use Rattle.file_disk.specs.Disk.{IsLost, failures_after, file_sound, file_view, is_lost};
    ghost use Rattle.file_disk.specs.File.{HasGivenUp, IsGivenUp, most_calls};

    ghost view = { file_view F.view };

    ghost sound = { λ disk honest. file_sound F.view disk (F.sound disk.file honest.0) honest.1 };

    fn sectors(&self) -> u64 {
        self.sectors
    }

    fn read(&mut self, at: u64, bytes: &mut [u8; 512]) -> Result<(), DiskError>
        ensures effect { at < (file_view F.view self.old).sectors → (file_view F.view self.old).honest
            → HasRead (file_view F.view self.old) (file_view F.view self.new) at bytes.new result }
        ensures cause { HasCause (file_view F.view self.old) (file_view F.view self.new) result }
        ensures called { IsCalled (file_view F.view self.old) (file_view F.view self.new) (Read at) result }
        ensures out_of_range { (file_view F.view self.old).sectors ≤ at
            → (result ≡ Err OutOfRange) × (self.new ≡ self.old) }
        ensures in_range { IsErrOf result OutOfRange → (file_view F.view self.old).sectors ≤ at }
        ensures counted { self.new.failures ≡ failures_after result self.old.failures }
        ensures turns { F.turns self.new.file ≤ F.turns self.old.file + most_calls }
        ensures lost { at < self.old.sectors → is_lost self.old ≡ true → IsLost self.old self.new result }
        ensures kept { is_lost self.new ≡ is_lost self.old }
        ensures given_up { IsErrOf result DiskFault → (is_lost self.old ≡ true)
            ⊎ HasGivenUp (F.view self.old.file) (F.view self.new.file) (F.turns self.old.file) (F.turns self.new.file) }
    {
        if at >= self.sectors {
            return Err(DiskError::OutOfRange);
        }
        self.history = self.history.then(&Note::Read(at));
        if self.lost {
            return Err(self.fail());
        }
        match read_sector(&mut self.file, at, bytes) {
            Ok(()) => Ok(()),
            Err(_) => Err(self.fail()),
        }
    }

    fn write(&mut self, at: u64, bytes: &[u8; 512]) -> Result<(), DiskError>
        ensures effect { at < (file_view F.view self.old).sectors → (file_view F.view self.old).honest
            → HasWritten (file_view F.view self.old) (file_view F.view self.new) at bytes.now result }
        ensures cause { HasCause (file_view F.view self.old) (file_view F.view self.new) result }
        ensures called { IsCalled (file_view F.view self.old) (file_view F.view self.new) (Write at bytes.now) result }
        ensures out_of_range { (file_view F.view self.old).sectors ≤ at
            → (result ≡ Err OutOfRange) × (self.new ≡ self.old) }
        ensures in_range { IsErrOf result OutOfRange → (file_view F.view self.old).sectors ≤ at }
        ensures counted { self.new.failures ≡ failures_after result self.old.failures }
        ensures turns { F.turns self.new.file ≤ F.turns self.old.file + most_calls }
        ensures lost { at < self.old.sectors → is_lost self.old ≡ true → IsLost self.old self.new result }
        ensures kept { is_lost self.new ≡ is_lost self.old }
        ensures given_up { IsErrOf result DiskFault → (is_lost self.old ≡ true)
            ⊎ HasGivenUp (F.view self.old.file) (F.view self.new.file) (F.turns self.old.file) (F.turns self.new.file) }
    {
        if at >= self.sectors {
            return Err(DiskError::OutOfRange);
        }
        self.history = self.history.then(&Note::Write(at, bytes));
        if self.lost {
            return Err(self.fail());
        }
        match write_sector(&mut self.file, at, bytes) {
            Ok(()) => Ok(()),
            Err(_) => Err(self.fail()),
        }
    }

    fn write_run(&mut self, at: u64, bytes: &[u8]) -> Result<(), DiskError>
        requires whole { length bytes.now ≡ 512 * sectors_in bytes.now }
        requires room { at + sectors_in bytes.now ≤ (file_view F.view self.old).sectors }
        requires fits { at + sectors_in bytes.now < 2 ^ 64 }
        ensures effect { (file_view F.view self.old).honest → HasFilled (file_view F.view self.old) (file_view F.view self.new) at
            (sectors_in bytes.now) (part_of bytes.now) result }
        ensures runs { Runs (file_view F.view self.old) (file_view F.view self.new) (writes at (sectors_in bytes.now) (part_of bytes.now)) result }
        ensures counted { self.new.failures ≡ failures_after result self.old.failures }
        ensures lost { is_lost self.old ≡ true → IsLost self.old self.new result }
        ensures kept { is_lost self.new ≡ is_lost self.old }
        ensures given_up { IsErrOf result DiskFault → (is_lost self.old ≡ true) ⊎ IsGivenUp F.view F.turns self.old.file self.new.file }
    {
        self.note_run(at, bytes);
        if self.lost {
            return Err(self.fail());
        }
        match write_sectors(&mut self.file, at, bytes) {
            Ok(()) => Ok(()),
            Err(_) => Err(self.fail()),
        }
    }

    fn sync(&mut self) -> Result<(), DiskError>
        ensures effect { (file_view F.view self.old).honest
            → HasSynced (file_view F.view self.old) (file_view F.view self.new) result }
        ensures cause { HasCause (file_view F.view self.old) (file_view F.view self.new) result }
        ensures called { IsCalled (file_view F.view self.old) (file_view F.view self.new) Sync result }
        ensures in_range { IsErrOf result OutOfRange → ⊥ }
        ensures counted { self.new.failures ≡ failures_after result self.old.failures }
        ensures failed { is_lost self.new ≡ is_err result }
        ensures lost { is_lost self.old ≡ true → IsLost self.old self.new result }
        ensures given_up { IsErrOf result DiskFault → (is_lost self.old ≡ true) ⊎ HasFailed (F.view self.old.file) (F.view self.new.file) }
    {
        self.history = self.history.then(&Note::Sync);
        if self.lost {
            return Err(self.fail());
        }
        match self.file.sync() {
            Ok(()) => Ok(()),
            Err(_) => {
                self.lost = true;
                Err(self.fail())
            }
        }
    }

    fn failures(&self) -> u64 {
        self.failures
    }
}
