//! A file in memory, each of whose writes does what a list states. It is modelled as never honest, so nothing is stated of what
//! it holds.
ghost use Rattle.std.specs.Prelude.{◌≡◌, ◌≤◌, ◌<◌, ◌^◌, IfOk, false, length};
ghost use Rattle.std.specs.IoError.{error_kind};
ghost use Rattle.sector_disk.specs.Disk.{HasCause};
ghost use Rattle.file_disk.specs.File.{is_interrupted, moved, one_more};

use file_disk::SectorFile;
use std::io;
use std::io::ErrorKind;

/// How many bytes the file has: six sectors.
const LENGTH: usize = 3072;

/// What a call that writes does.
#[derive(Clone, Copy, Drop)]
pub enum Step {
    /// It writes so many bytes at most.
    Moves(usize),
    /// It is interrupted, and writes nothing.
    Interrupted,
    /// It fails, and writes nothing.
    Fails,
}

/// A file of six sectors. Its writes do what the steps state, one after another. Those after the last step write all bytes.
#[derive(Drop)]
pub struct StepFile<'s> {
    bytes: [u8; 3072],
    steps: &'s [Step],
    is_synced: bool,
    turns: u64,
    failures: u64,
    ghost turned: { turns < 2 ^ 64 },
    ghost failed: { failures < 2 ^ 64 },
}

// An error that is no interruption.
fn error() -> io::Error
    ensures { is_interrupted (error_kind result) ≡ false }
{
    ErrorKind::Other.into()
}

impl<'s> StepFile<'s> {
    ghost use Rattle.file_disk_tests.specs.StepFile.{step_view};

    /// A file of sevens. Each sync of it fails if it is not to be synced.
    pub fn new(steps: &'s [Step], is_synced: bool) -> Self {
        StepFile {
            bytes: [7; 3072],
            steps,
            is_synced,
            turns: 0,
            failures: 0,
        }
    }

    /// How often it was read or written.
    pub fn turns(&self) -> u64 {
        self.turns
    }

    /// Its bytes from the second sector on, three sectors of them, if the other sectors still hold sevens.
    pub fn run(&self) -> Option<&[u8]> {
        let is_before = self.bytes[..512].iter().all(|byte| *byte == 7);
        let is_after = self.bytes[2048..].iter().all(|byte| *byte == 7);
        (is_before && is_after).then_some(&self.bytes[512..2048])
    }

    // What the next write does.
    fn step(&self) -> Step {
        match self.steps.get(self.turns as usize) {
            Some(step) => *step,
            None => Step::Moves(LENGTH),
        }
    }

    // Puts bytes into the file, and returns how many.
    fn put(&mut self, bytes: &[u8], offset: u64, most: usize) -> usize
        ensures bound { result ≤ length bytes.now }
        ensures kept { (self.new.turns ≡ self.old.turns) × (self.new.failures ≡ self.old.failures) }
    {
        let at = offset.min(LENGTH as u64) as usize;
        let count = most.min(bytes.len()).min(LENGTH - at);
        self.bytes[at..at + count].copy_from_slice(&bytes[..count]);
        count
    }

    // Counts a call, and whether it failed.
    fn count(&mut self, answer: io::Result<usize>)
        ensures turns { self.new.turns ≡ one_more self.old.turns }
        ensures cause { HasCause (step_view self.old) (step_view self.new) (moved answer) }
    {
        self.turns = self.turns.saturating_add(1);
        let fails = match answer {
            Ok(count) => count == 0,
            Err(error) => !matches!(error.kind(), ErrorKind::Interrupted),
        };
        if fails {
            self.failures = self.failures.saturating_add(1);
        }
    }
}

impl<'s> SectorFile for StepFile<'s> {
    ghost use Rattle.file_disk_tests.specs.StepFile.{step_view, step_turns};

    ghost view = { step_view };

    ghost turns = { step_turns };

    ghost measured = { λ file answer. Unit {0} };

    ghost sound = { λ file honest. absurd honest };

    fn len(&self) -> io::Result<u64> {
        Ok(LENGTH as u64)
    }

    fn read_at(&mut self, bytes: &mut [u8], offset: u64) -> io::Result<usize> {
        let at = offset.min(LENGTH as u64) as usize;
        let count = bytes.len().min(LENGTH - at);
        bytes[..count].copy_from_slice(&self.bytes[at..at + count]);
        self.count(Ok(count));
        Ok(count)
    }

    fn write_at(&mut self, bytes: &[u8], offset: u64) -> io::Result<usize> {
        let answer = match self.step() {
            Step::Moves(most) => Ok(self.put(bytes, offset, most)),
            Step::Interrupted => Err(ErrorKind::Interrupted.into()),
            Step::Fails => Err(error()),
        };
        self.count(answer);
        answer
    }

    fn sync(&mut self) -> io::Result<()> {
        if self.is_synced {
            return Ok(());
        }
        self.failures = self.failures.saturating_add(1);
        Err(error())
    }
}
