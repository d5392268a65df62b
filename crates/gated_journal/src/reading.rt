// The records of a half, read or judged.
//
// `judge_record` and `judge_half` go through a half as `read_record` and `read_half` do, but keep no command. Their contracts
// differ (`IsJudged` in place of `Answers`, and no `NoMemory`), so they are functions of their own.
ghost use Rattle.std.specs.Prelude.{◌≡◌, ◌+◌, ◌*◌, ◌-◌, ◌<◌, ◌≤◌, ◌^◌, length, option_map, IfErr, IsErr, IsErrOf, OnOk, IfOk, IfSome};
ghost use Rattle.byteorder.specs.Endian.{big_from};
ghost use Rattle.sector_disk.specs.Effects.{OnlyReads};
ghost use Rattle.sector_disk.specs.declared.disk.DiskError.TheVariants.{OutOfRange};
ghost use Rattle.gated_journal.specs.declared.fault.JournalError.TheVariants.{NoMemory};
ghost use Rattle.gated_journal.specs.Half.{stated_size};
ghost use Rattle.gated_journal.specs.Inside.Reading.{GivesBytes, HoldsMore, IsPast, IsToRead, ReadsInto, sectors_to};
ghost use Rattle.gated_journal.specs.Inside.Room.{capacity};
ghost use Rattle.gated_journal.specs.Reading.{Answers, AreJudged, Continues, HasCalledTimes, HasRecordIn, HasRecordsIn, IsJudged, IsOfJudging, IsOfReading, IsReadOnce};
ghost use Rattle.gated_journal.specs.Reading.{entries_view, found_view, half_view};
ghost use Rattle.gated_journal.specs.Settled.{half_in, record_in};

use crate::record::{count_next, decode_next};
use crate::record_text::RecordText;
use crate::{Form, JournalError, Place};
use bytes::Buf;
use centre_core::Command;
use sector_disk::{Disk, DiskError};
use std::alloc::Allocator;

// How many data sectors a record may have.
pub(crate) const MOST_SECTORS: u64 = 36;

// Adds to the buffer the bytes of the sectors from `at + from` up to, but not including, `at + n`. The buffer has room for them.
fn read_sectors<A: Allocator, D: Disk>(
    disk: &mut D,
    at: u64,
    from: u64,
    n: u64,
    buffer: &mut RecordText<A>,
) -> Result<(), DiskError>
    requires inside { at + n ≤ (D.view disk.old).sectors }
    requires fits { at + n < 2 ^ 64 }
    requires some { from ≤ n }
    requires room { length buffer.old.items + 512 * (n - from) ≤ capacity buffer.old }
    ensures reads { OnlyReads (D.view disk.old) (D.view disk.new) (IsErr result) }
    ensures calls { OnOk result (HasCalledTimes (D.view disk.old) (D.view disk.new) (n - from)) }
    ensures bytes { (D.view disk.old).honest → OnOk result (HoldsMore (D.view disk.old) at from n buffer.old buffer.new) }
    ensures in_range { IsErrOf result OutOfRange → ⊥ }
    ensures capacity { capacity buffer.old ≤ capacity buffer.new }
{
    for k in from..n {
        let mut bytes = [0; 512];
        disk.read(at + k, &mut bytes)?;
        buffer.add(&bytes);
    }
    Ok(())
}

// The number in the four bytes from the byte `at` on.
fn number_from(bytes: &[u8; 512], at: usize) -> u64
    requires { at + 4 ≤ 512 }
    ensures { result ≡ big_from at 4 bytes.now }
{
    let mut rest = &bytes[at..];
    u64::from(rest.get_u32())
}

// How many data sectors a record takes, as its first data sector states.
fn stated_size(form: Form, bytes: &[u8; 512]) -> u64
    ensures { result ≡ stated_size form bytes.now }
{
    match form {
        Form::Plain => (number_from(bytes, 2) + 517) / 512,
        Form::Numbered => (number_from(bytes, 10) + 525) / 512,
    }
}

// Reads the data sectors of the record after an open gate into the buffer, and returns the next gate; `None` where the gate is
// closed. Takes no memory.
fn read_data<A: Allocator, D: Disk>(
    disk: &mut D,
    place: &Place,
    buffer: &mut RecordText<A>,
) -> Result<Option<u64>, JournalError>
    requires gate { IsToRead (D.view disk.old) place.now buffer.old }
    ensures reads { ReadsInto (D.view disk.old) (D.view disk.new) buffer.old buffer.new result
        (GivesBytes (D.view disk.old) place.now buffer.new result) }
    ensures calls { IfOk result (λ found. HasCalledTimes (D.view disk.old) (D.view disk.new) (sectors_to place.now found)) }
    ensures on { IfOk result (λ found. IfSome found (λ next. IsPast place.now 0 next)) }
    ensures kinds { IfErr result (IsOfJudging place.now.end) }
{
    let at = place.next;
    let mut bytes = [0; 512];
    disk.read(at, &mut bytes)?;
    if bytes[0] != 1 {
        return Ok(None);
    }
    if at + 1 == place.end {
        return Err(JournalError::Damaged(at));
    }
    disk.read(at + 1, &mut bytes)?;
    let size = stated_size(place.form, &bytes);
    if MOST_SECTORS < size {
        return Err(JournalError::Damaged(at + 1));
    }
    if place.end - (at + 1) <= size {
        return Err(JournalError::Damaged(at + 1));
    }
    buffer.clear();
    buffer.add(&bytes);
    read_sectors(disk, at + 1, 1, size, buffer)?;
    Ok(Some(at + 1 + size))
}

// Reads what is at a gate: a record and the next gate, or nothing.
pub(crate) fn read_record<A: Allocator + Clone, D: Disk>(
    alloc: A,
    disk: &mut D,
    place: &Place,
    buffer: &mut RecordText<A>,
) -> Result<Option<(Vec<Command<A>, A>, u64)>, JournalError>
    requires gate { IsToRead (D.view disk.old) place.now buffer.old }
    ensures reads { ReadsInto (D.view disk.old) (D.view disk.new) buffer.old buffer.new result
        (Answers found_view result (record_in A place.now (D.view disk.old))) }
    ensures memory { IsErrOf result JournalError.NoMemory → (D.view disk.old).honest → HasRecordIn A place.now (D.view disk.old) }
    ensures calls { IfOk result (λ found. HasCalledTimes (D.view disk.old) (D.view disk.new) (sectors_to place.now (option_map (λ x. x.1) found))) }
    ensures tried { IsErrOf result JournalError.NoMemory → length (D.view disk.old).calls < length (D.view disk.new).calls }
    ensures on { IfOk result (λ found. IfSome found (λ x. IsPast place.now (length x.0.items) x.1)) }
    ensures kinds { IfErr result (IsOfReading place.now.end) }
{
    let Some(next) = read_data(disk, place, buffer)? else {
        return Ok(None);
    };
    match decode_next(alloc, place.form, place.count, buffer.as_slice())? {
        None => Err(JournalError::Damaged(place.next + 1)),
        Some(commands) => Ok(Some((commands, next))),
    }
}

// Judges what is at a gate: a record of so many commands and the next gate, or nothing. Takes no memory.
fn judge_record<A: Allocator, D: Disk>(
    disk: &mut D,
    place: &Place,
    buffer: &mut RecordText<A>,
) -> Result<Option<(u64, u64)>, JournalError>
    requires gate { IsToRead (D.view disk.old) place.now buffer.old }
    ensures reads { ReadsInto (D.view disk.old) (D.view disk.new) buffer.old buffer.new result
        (IsJudged result (record_in A place.now (D.view disk.old))) }
    ensures calls { IfOk result (λ found. HasCalledTimes (D.view disk.old) (D.view disk.new) (sectors_to place.now (option_map (λ x. x.1) found))) }
    ensures on { IfOk result (λ found. IfSome found (λ x. IsPast place.now x.0 x.1)) }
    ensures kinds { IfErr result (IsOfJudging place.now.end) }
{
    let Some(next) = read_data(disk, place, buffer)? else {
        return Ok(None);
    };
    let Some(count) = count_next::<A>(place.form, place.count, buffer.as_slice()) else {
        return Err(JournalError::Damaged(place.next + 1));
    };
    Ok(Some((count, next)))
}

// Reads the records from the next gate of a place on: the place after them, and of each its first data sector and its commands.
fn read_half<A: Allocator + Clone, D: Disk>(
    alloc: A,
    disk: &mut D,
    place: &Place,
    buffer: &mut RecordText<A>,
) -> Result<(Place, Vec<(u64, Vec<Command<A>, A>), A>), JournalError>
    requires half { IsToRead (D.view disk.old) place.now buffer.old }
    ensures reads { ReadsInto (D.view disk.old) (D.view disk.new) buffer.old buffer.new result
        (Answers half_view result (half_in A place.now (D.view disk.old))) }
    ensures continues { IfOk result (λ x. Continues place.now x.0 (entries_view x.1.items)) }
    ensures kinds { IfErr result (IsOfReading place.now.end) }
{
    let mut entries = Vec::new(alloc.clone()?);
    let mut rest = *place;
    while let Some((commands, next)) = read_record(alloc.clone()?, disk, &rest, buffer)? {
        rest.count += commands.len() as u64;
        entries.push((rest.next + 1, commands))?;
        rest.next = next;
    }
    Ok((rest, entries))
}

// Judges the records from the next gate of a place on. Takes no memory.
pub(crate) fn judge_half<A: Allocator, D: Disk>(
    disk: &mut D,
    place: &Place,
    buffer: &mut RecordText<A>,
) -> Result<(), JournalError>
    requires half { IsToRead (D.view disk.old) place.now buffer.old }
    ensures reads { ReadsInto (D.view disk.old) (D.view disk.new) buffer.old buffer.new result
        (AreJudged result (half_in A place.now (D.view disk.old))) }
    ensures calls { (D.view disk.old).honest → OnOk result (IsReadOnce A place.now (D.view disk.old) (D.view disk.new)) }
    ensures kinds { IfErr result (IsOfJudging place.now.end) }
{
    let mut rest = *place;
    while let Some((count, next)) = judge_record(disk, &rest, buffer)? {
        rest.count += count;
        rest.next = next;
    }
    Ok(())
}

// Reads the records from the next gate of a place on, as `read_half` does. Where memory runs out, all records are judged before
// `NoMemory` is reported.
pub(crate) fn read_or_judge<A: Allocator + Clone, D: Disk>(
    alloc: A,
    disk: &mut D,
    place: &Place,
    buffer: &mut RecordText<A>,
) -> Result<(Place, Vec<(u64, Vec<Command<A>, A>), A>), JournalError>
    requires half { IsToRead (D.view disk.old) place.now buffer.old }
    ensures reads { ReadsInto (D.view disk.old) (D.view disk.new) buffer.old buffer.new result
        (Answers half_view result (half_in A place.now (D.view disk.old))) }
    ensures memory { IsErrOf result JournalError.NoMemory → (D.view disk.old).honest → HasRecordsIn A place.now (D.view disk.old) }
    ensures continues { IfOk result (λ x. Continues place.now x.0 (entries_view x.1.items)) }
    ensures kinds { IfErr result (IsOfReading place.now.end) }
{
    match read_half(alloc, disk, place, buffer) {
        Err(JournalError::NoMemory) => {
            judge_half(disk, place, buffer)?;
            Err(JournalError::NoMemory)
        }
        read => read,
    }
}
