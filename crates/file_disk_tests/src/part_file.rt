//! A file over a disk, whose calls move only a part of what is asked for. It is honest where the disk is: so there are
//! honest files.
ghost use Rattle.std.specs.Prelude.{◌≡◌, ◌+◌, ◌*◌, ◌≤◌, ◌<◌, ◌^◌, ℕ, IfOk, IfSome, drop, false, length, take};
ghost use Rattle.std.specs.IoError.{error_kind};
ghost use Rattle.sector_disk.specs.Disk.{HasCause};
ghost use Rattle.file_disk.specs.File.{HasReadPart, HasWrittenPart, is_interrupted, moved, one_more};

use file_disk::SectorFile;
use sector_disk::Disk;
use std::io;
use std::io::ErrorKind;

/// Which of the calls that read or write move nothing. They are numbered from 1.
#[derive(Clone, Copy, Drop)]
pub enum Plan {
    /// None.
    Calm,
    /// Each call of an odd number is interrupted.
    OddInterrupted,
    /// Each call is interrupted.
    Interrupted,
    /// That call fails.
    Fails(u64),
    /// That call moves no byte, and reports no error.
    Nothing(u64),
    /// All go through, but a sync fails.
    SyncFails,
}

/// A file over a disk, with some bytes after the last sector.
#[derive(Drop)]
pub struct PartFile<D> {
    disk: D,
    most: usize,
    plan: Plan,
    turns: u64,
    failures: u64,
    ghost turned: { turns < 2 ^ 64 },
    ghost failed: { failures < 2 ^ 64 },
}

// An error that is no interruption.
fn error() -> io::Error
    ensures { is_interrupted (error_kind result) ≡ false }
{
    ErrorKind::Other.into()
}

// Copies bytes of a sector, and returns how many.
fn copy_part(bytes: &mut [u8], sector: &[u8; 512], from: usize, most: usize) -> usize
    requires { from < 512 }
    ensures bound { result ≤ length bytes.old }
    ensures given { take result bytes.new ≡ take result (drop from sector.now) }
{
    let count = most.min(bytes.len()).min(512 - from);
    bytes[..count].copy_from_slice(&sector[from..from + count]);
    count
}

// Puts bytes into a sector, and returns how many.
fn put_part(sector: &mut [u8; 512], bytes: &[u8], from: usize, most: usize) -> usize
    requires { from < 512 }
    ensures bound { (result ≤ length bytes.now) × (result ≤ 512) }
    ensures before { take from sector.new ≡ take from sector.old }
    ensures put { take result (drop from sector.new) ≡ take result bytes.now }
{
    let count = most.min(bytes.len()).min(512 - from);
    sector[from..from + count].copy_from_slice(&bytes[..count]);
    count
}

impl<D: Disk + Drop> PartFile<D> {
    ghost use Rattle.file_disk_tests.specs.PartFile.{part_view};

    /// A file whose calls move so many bytes at most.
    pub fn new(disk: D, most: usize, plan: Plan) -> Self {
        PartFile {
            disk,
            most,
            plan,
            turns: 0,
            failures: 0,
        }
    }

    /// How often it was read or written.
    pub fn turns(&self) -> u64 {
        self.turns
    }

    /// The disk, as the calls left it.
    pub fn into_disk(self) -> D {
        let PartFile {
            disk,
            most: _,
            plan: _,
            turns: _,
            failures: _,
        } = self;
        disk
    }

    // What the next call returns, where it is to move nothing.
    fn planned(&self) -> Option<io::Result<usize>>
        ensures { IfSome result (λ answer. IfOk (moved answer) (λ n. n ≡ 0)) }
    {
        let number = self.turns.saturating_add(1);
        match self.plan {
            Plan::OddInterrupted if number % 2 == 1 => Some(Err(ErrorKind::Interrupted.into())),
            Plan::Interrupted => Some(Err(ErrorKind::Interrupted.into())),
            Plan::Fails(call) if number == call => Some(Err(error())),
            Plan::Nothing(call) if number == call => Some(Ok(0)),
            _ => None,
        }
    }

    // Counts a call, and whether it failed.
    fn count(&mut self, answer: io::Result<usize>)
        ensures turns { self.new.turns ≡ one_more self.old.turns }
        ensures disk { self.new.disk ≡ self.old.disk }
        ensures cause { HasCause (part_view D.view self.old) (part_view D.view self.new) (moved answer) }
    {
        self.turns = self.turns.saturating_add(1);
        let fails = match answer {
            Ok(count) => count == 0,
            Err(error) => !matches!(error.kind(), ErrorKind::Interrupted),
        };
        if fails {
            self.failures = self.failures.saturating_add(1);
        }
    }
}

impl<D: Disk + Drop> PartFile<D> {
    ghost use Rattle.file_disk_tests.specs.PartFile.{part_view};

    #[tactic(auto, using(crate::proofs::Moved::nothing_read))]
    fn read_part(&mut self, bytes: &mut [u8], offset: u64) -> io::Result<usize>
        ensures effect { (at from : ℕ) → offset ≡ 512 * at + from → from < 512 → at < (D.view self.old.disk).sectors → (D.view self.old.disk).honest
            → HasReadPart (D.view self.old.disk) (D.view self.new.disk) at from bytes.new (moved result) }
        ensures bound { IfOk result (λ n. n ≤ length bytes.old) }
        ensures sectors { (D.view self.new.disk).sectors ≡ (D.view self.old.disk).sectors }
        ensures kept { (self.new.turns ≡ self.old.turns) × (self.new.failures ≡ self.old.failures) }
    {
        if let Some(answer) = self.planned() {
            return answer;
        }
        let mut sector = [0; 512];
        match self.disk.read(offset / 512, &mut sector) {
            Ok(()) => Ok(copy_part(bytes, &sector, (offset % 512) as usize, self.most)),
            Err(_) => Err(error()),
        }
    }

    #[tactic(auto, using(crate::proofs::Moved::nothing_written))]
    fn write_part(&mut self, bytes: &[u8], offset: u64) -> io::Result<usize>
        ensures effect { (at from : ℕ) → offset ≡ 512 * at + from → from < 512 → at < (D.view self.old.disk).sectors → (D.view self.old.disk).honest
            → HasWrittenPart (D.view self.old.disk) (D.view self.new.disk) at from bytes.now (moved result) }
        ensures bound { IfOk result (λ n. n ≤ length bytes.now) }
        ensures small { IfOk (moved result) (λ n. n ≤ 512) }
        ensures sectors { (D.view self.new.disk).sectors ≡ (D.view self.old.disk).sectors }
        ensures kept { (self.new.turns ≡ self.old.turns) × (self.new.failures ≡ self.old.failures) }
    {
        if let Some(answer) = self.planned() {
            return answer;
        }
        let mut sector = [0; 512];
        let Ok(()) = self.disk.read(offset / 512, &mut sector) else {
            return Err(error());
        };
        let count = put_part(&mut sector, bytes, (offset % 512) as usize, self.most);
        match self.disk.write(offset / 512, &sector) {
            Ok(()) => Ok(count),
            Err(_) => Err(error()),
        }
    }
}

impl<D: Disk + Drop> SectorFile for PartFile<D> {
    ghost use Rattle.file_disk_tests.specs.PartFile.{part_view, part_turns, part_sound};

    ghost view = { part_view D.view };

    ghost turns = { part_turns };

    ghost measured = { λ file answer. Unit {0} };

    ghost sound = { λ file honest. part_sound D.view file (D.sound file.disk honest) };

    fn len(&self) -> io::Result<u64> {
        match self.disk.sectors().checked_mul(512) {
            Some(bytes) => Ok(bytes + 511),
            None => Err(error()),
        }
    }

    fn read_at(&mut self, bytes: &mut [u8], offset: u64) -> io::Result<usize> {
        let answer = self.read_part(bytes, offset);
        self.count(answer);
        answer
    }

    fn write_at(&mut self, bytes: &[u8], offset: u64) -> io::Result<usize> {
        let answer = self.write_part(bytes, offset);
        self.count(answer);
        answer
    }

    fn sync(&mut self) -> io::Result<()> {
        let is_failing = matches!(self.plan, Plan::SyncFails);
        if !is_failing && self.disk.sync().is_ok() {
            return Ok(());
        }
        self.failures = self.failures.saturating_add(1);
        Err(error())
    }
}
