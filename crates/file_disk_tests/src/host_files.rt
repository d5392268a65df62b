//! Disks over files of the operating system.

use crate::parts::pattern;
use crate::runs;
use file_disk::{FileDisk, FileFault, HostFile, OpenCause};
use sector_disk::{Disk, DiskError};
use std::fs::{File, OpenOptions};
use std::os::unix::fs::FileExt;
use std::test::Fail;
use std::{fs, io};

/// Why a file was not opened.
fn cause(opened: Result<FileDisk<HostFile>, FileFault>) -> Option<OpenCause> {
    match opened {
        Err(FileFault::NotOpened(cause)) => Some(cause),
        _ => None,
    }
}

/// Whether the open file can't be opened again, nor made anew.
fn is_held(rt: &HostRuntime, path: &str) -> bool {
    let adopted = cause(FileDisk::adopt(rt, path)) == Some(OpenCause::Held);
    adopted && cause(FileDisk::create(rt, path, 3)) == Some(OpenCause::Exists)
}

/// Whether a new disk of three sectors holds zeros. Its middle sector is then written and synced.
fn is_made(rt: &HostRuntime, path: &str, bytes: &[u8; 512]) -> bool {
    let Ok(mut disk) = FileDisk::create(rt, path, 3) else {
        return false;
    };
    let mut middle = [9; 512];
    let new = disk.sectors() == 3 && disk.read(1, &mut middle).is_ok() && middle == [0; 512];
    let written = disk.write(1, bytes).is_ok() && disk.sync().is_ok() && disk.failures() == 0;
    let none = disk.write(3, bytes) == Err(DiskError::OutOfRange);
    new && written && none && is_held(rt, path)
}

/// Whether the disk, opened again, holds what was written.
fn is_adopted(rt: &HostRuntime, path: &str, bytes: &[u8; 512]) -> bool {
    let Ok(mut disk) = FileDisk::adopt(rt, path) else {
        return false;
    };
    let (mut middle, mut last) = ([9; 512], [9; 512]);
    let read = disk.read(1, &mut middle).is_ok() && disk.read(2, &mut last).is_ok();
    disk.sectors() == 3 && read && middle == *bytes && last == [0; 512]
}

fn length(rt: &HostRuntime, path: &str) -> io::Result<u64> {
    Ok(fs::metadata(rt, path)?.len())
}

#[test]
fn a_file_is_made_locked_and_adopted(rt: HostRuntime) -> Result<(), Fail> {
    let _ = fs::remove_dir_all(&rt, "made");
    let _ = fs::remove_file(&rt, "made.disk");
    fs::create_dir(&rt, "made")?;
    let bytes = pattern();
    for path in ["made.disk", "made/in.disk"] {
        let is_good = is_made(&rt, path, &bytes) && is_adopted(&rt, path, &bytes);
        assert_eq!(rt; (is_good, length(&rt, path)?), (true, 1536));
    }
    let _ = fs::remove_dir_all(&rt, "made");
    let _ = fs::remove_file(&rt, "made.disk");
    Ok(())
}

/// Whether bytes after the last whole sector are no sector, and a sector that was cut off from outside is a fault where it is read.
fn is_cut(rt: &HostRuntime, path: &str) -> io::Result<bool> {
    fs::write(rt, path, [5; 1535].as_slice())?;
    let Ok(mut disk) = FileDisk::adopt(rt, path) else {
        return Ok(false);
    };
    let mut bytes = [0; 512];
    let whole = disk.sectors() == 2 && disk.read(1, &mut bytes).is_ok() && bytes == [5; 512];
    let rest = disk.read(2, &mut bytes) == Err(DiskError::OutOfRange);
    fs::write(rt, path, [5; 700].as_slice())?;
    let cut = disk.read(1, &mut bytes) == Err(DiskError::DiskFault) && disk.failures() == 1;
    let is_good = disk.read(0, &mut bytes).is_ok() && disk.failures() == 1;
    Ok(whole && rest && cut && is_good)
}

#[test]
fn a_rest_is_ignored(rt: HostRuntime) -> Result<(), Fail> {
    assert!(rt; is_cut(&rt, "cut.disk")?);
    fs::remove_file(&rt, "cut.disk")?;
    Ok(())
}

/// Whether a file that is missing, or lies in no folder, is not opened and not made.
fn is_missing(rt: &HostRuntime) -> bool {
    let missing = cause(FileDisk::adopt(rt, "missing.disk")) == Some(OpenCause::Missing);
    let nowhere = cause(FileDisk::create(rt, "missing/in.disk", 1)) == Some(OpenCause::Missing);
    let empty = cause(FileDisk::create(rt, "", 1)) == Some(OpenCause::Missing);
    let within = cause(FileDisk::adopt(rt, "/dev/null/in.disk")) == Some(OpenCause::Missing);
    missing && nowhere && empty && within
}

/// Whether what is no file, or can't be one, is not opened, and too many sectors are a fault that leaves no file. The system
/// lets nobody write its own name.
fn is_refused(rt: &HostRuntime) -> io::Result<bool> {
    let folder = cause(FileDisk::adopt(rt, ".")) == Some(OpenCause::NotAFile);
    let made = cause(FileDisk::create(rt, ".", 1)) == Some(OpenCause::Exists);
    let name = cause(FileDisk::adopt(rt, "/proc/sys/kernel/ostype")) == Some(OpenCause::NotAllowed);
    let odd = cause(FileDisk::adopt(rt, "in\0.disk")) == Some(OpenCause::Other);
    let many = FileDisk::create(rt, "many.disk", u64::MAX).err() == Some(FileFault::DiskFault);
    Ok(folder && made && name && odd && many && !fs::exists(rt, "many.disk")?)
}

#[test]
fn what_is_no_file_is_refused(rt: HostRuntime) -> Result<(), Fail> {
    assert!(rt; is_missing(&rt) && is_refused(&rt)?);
    Ok(())
}

/// How many sectors a disk of the greatest limits has.
const GREATEST: u64 = 401_541;

/// The first and the last sector of each of its parts: the label, the roots, the slots and the halves.
const PLACES: [u64; 11] = [
    0, 1, 2, 3, 135_235, 135_236, 270_468, 270_469, 336_004, 336_005, 401_540,
];

/// A sector that begins with its own number.
fn numbered(at: u64) -> [u8; 512] {
    let mut bytes = [0xa5; 512];
    bytes[..8].copy_from_slice(&at.to_be_bytes());
    bytes
}

/// Makes a file of the greatest length, all of it one hole.
fn make_hole(rt: &HostRuntime, path: &str) -> io::Result<()> {
    let made = OpenOptions::new()
        .write(true)
        .create_new(true)
        .open(rt, path)?;
    made.set_len(512 * GREATEST)
}

/// Writes each of the places, and returns whether that worked.
fn are_written(disk: &mut FileDisk<HostFile>) -> bool {
    let mut written = true;
    for at in PLACES {
        written = written && disk.write(at, &numbered(at)).is_ok();
    }
    written && disk.sync().is_ok() && disk.write(GREATEST, &[0; 512]) == Err(DiskError::OutOfRange)
}

/// Whether each is read as it was written.
fn are_read(disk: &mut FileDisk<HostFile>) -> bool {
    let mut read = true;
    for at in PLACES {
        let mut bytes = [0; 512];
        read = read && disk.read(at, &mut bytes).is_ok() && bytes == numbered(at);
    }
    read
}

/// Whether a read of the file itself finds each place's bytes there.
fn are_there(rt: &HostRuntime, path: &str) -> io::Result<bool> {
    let file = File::open(rt, path)?;
    let mut there = file.metadata()?.len() == 512 * GREATEST;
    for at in PLACES {
        let mut bytes = [0; 512];
        there = there && file.read_at(&mut bytes, 512 * at)? == 512 && bytes == numbered(at);
    }
    Ok(there)
}

/// Whether the greatest disk works in a file with holes.
fn is_great(rt: &HostRuntime, path: &str) -> io::Result<bool> {
    make_hole(rt, path)?;
    let Ok(mut disk) = FileDisk::adopt(rt, path) else {
        return Ok(false);
    };
    let kept = disk.sectors() == GREATEST && are_written(&mut disk) && are_read(&mut disk);
    Ok(kept && are_there(rt, path)?)
}

#[test]
fn a_great_disk_is_written_in_its_places(rt: HostRuntime) -> Result<(), Fail> {
    let _ = fs::remove_file(&rt, "great.disk");
    let great = is_great(&rt, "great.disk")?;
    fs::remove_file(&rt, "great.disk")?;
    assert!(rt; great);
    Ok(())
}

/// Whether the first sector and the fifth and sixth hold zeros.
fn are_zeros_beside(bytes: &[u8]) -> bool {
    bytes.get(..512) == Some([0; 512].as_slice())
        && bytes.get(2048..3072) == Some([0; 1024].as_slice())
}

/// Whether a run of three sectors, written to the second sector of a new file and synced, is in the file there. The file's other
/// sectors hold zeros.
fn is_run_there(rt: &HostRuntime, path: &str) -> io::Result<bool> {
    let run = runs::pattern();
    let Ok(mut disk) = FileDisk::create(rt, path, 6) else {
        return Ok(false);
    };
    let written = runs::write_three(&mut disk, &run) == Some(Ok(())) && disk.sync().is_ok();
    let file = File::open(rt, path)?;
    let mut bytes = [9; 3073];
    let whole = file.read_at(&mut bytes, 0)? == 3072;
    let there = bytes.get(512..2048) == Some(run.as_slice());
    Ok(written && whole && there && are_zeros_beside(&bytes) && disk.failures() == 0)
}

#[test]
fn a_run_is_in_the_file_in_its_place(rt: HostRuntime) -> Result<(), Fail> {
    let _ = fs::remove_file(&rt, "run.disk");
    let there = is_run_there(&rt, "run.disk")?;
    fs::remove_file(&rt, "run.disk")?;
    assert!(rt; there);
    Ok(())
}
