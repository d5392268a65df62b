// A journal: a place on a disk, and a buffer for the records' bytes.
ghost use Rattle.std.specs.Prelude.{◌≡◌, ◌⊎◌, ◌<◌, ◌≤◌, ◌+◌, ◌*◌, ◌^◌, ◌-◌, ℕ, ◌++◌, Err, IfErr, IfOk, IsErr, IsErrOf, IfSome, OnErr, OnOk};
ghost use Rattle.std.specs.Prelude.{length, nat_le, take};
ghost use Rattle.std.specs.List.{All, flat_map};
ghost use Rattle.centre_core.specs.State.{last_number};
ghost use Rattle.command_bytes.specs.Fields.{big};
ghost use Rattle.command_bytes.specs.Text.{IsCommand, command_text, longest};
ghost use Rattle.sector_disk.specs.Effects.{KeepsDisk, OnlyReads};
ghost use Rattle.gated_journal.specs.declared.fault.JournalError.TheVariants.{DiskFault, JournalFull, NoMemory};
ghost use Rattle.gated_journal.specs.declared.form.Form.{Form};
ghost use Rattle.gated_journal.specs.declared.place.Place.{Place};
ghost use Rattle.gated_journal.specs.Adding.{AddsOne, AddsToBoth, IsOfAppend};
ghost use Rattle.gated_journal.specs.Inside.Next.{IsCountOfNext, IsNext};
ghost use Rattle.gated_journal.specs.Inside.Padded.{IsPadded};
ghost use Rattle.gated_journal.specs.Inside.Room.{capacity, text_room};
ghost use Rattle.gated_journal.specs.Reading.{Answers, AreJudged, Continues, HasCalledTimes, HasRecordIn, IsOfJudging, IsOfReading, IsUnreadOrWhole, MovesOn};
ghost use Rattle.gated_journal.specs.Reading.{IsReadOnce, entries_view, half_view, next_view};
ghost use Rattle.gated_journal.specs.Record.{data_size, first_text, given, most_commands, most_data_sectors, record_text};
ghost use Rattle.gated_journal.specs.Settled.{HasNumbersLeft, half_in, record_in, room_of, text_at};

use crate::both::append_texts;
use crate::padded::Padded;
use crate::place::sectors_for;
use crate::reading::{MOST_SECTORS, judge_half, read_or_judge, read_record};
use crate::record_text::RecordText;
use crate::{Form, JournalError, Place};
use centre_core::Command;
use command_bytes::text_len;
use sector_disk::Disk;
use std::alloc::{AllocError, Allocator};
use std::marker::Model;

// How many bytes the greatest record's sectors and the gate after them take.
const TEXT_ROOM: usize = 512 * (MOST_SECTORS as usize + 1);

/// Adds records to a half of a disk, and reads those that are there.
#[derive(Debug, Drop)]
pub struct Journal<A: Allocator> {
    place: Place,
    text: RecordText<A>,
}

impl<A: Allocator> Model for Journal<A> {
    ghost Value = { Place };

    ghost view = { λ journal. journal.place };

    // the buffer has room for the greatest record and the gate after it, and the next gate is not before the half
    ghost invariant = { λ journal. (text_room ≤ capacity journal.text) × (journal.place.first ≤ journal.place.next) };
}

impl<A: Allocator + Copy> Journal<A> {
    /// A journal with no record, whose first gate is closed on the disk.
    ///
    /// `first` is its half's first sector, `sectors` how many it has, and `before` how many commands were accepted before
    /// its first record. Takes the memory of all later calls of `append`.
    pub fn start(
        alloc: A,
        first: u64,
        sectors: u64,
        form: Form,
        before: u64,
    ) -> Result<Journal<A>, AllocError>
        requires fits { first + sectors < 2 ^ 64 }
        ensures { IfOk result (λ journal. journal ≡ record { first = first; end = first + sectors; next = first; form = form; count = before }) }
    {
        let text = RecordText::with_room(alloc, TEXT_ROOM)?;
        let place = Place {
            first,
            end: first + sectors,
            next: first,
            form,
            count: before,
        };
        Ok(Journal { place, text })
    }
}

impl<A: Allocator> Journal<A> {
    /// Makes it a journal with no record, as `start` does. Takes no memory.
    pub fn restart(&mut self, first: u64, sectors: u64, form: Form, before: u64)
        requires fits { first + sectors < 2 ^ 64 }
        ensures { self.new ≡ record { first = first; end = first + sectors; next = first; form = form; count = before } }
    {
        self.place = Place {
            first,
            end: first + sectors,
            next: first,
            form,
            count: before,
        };
    }

    /// The most data sectors that the next record may have.
    pub fn room(&self) -> u64
        ensures { result ≡ room_of self.now }
    {
        self.place.room()
    }

    /// How many sectors of its half are before the next gate.
    pub fn used(&self) -> u64
        ensures { result ≡ self.now.next - self.now.first }
    {
        self.place.next - self.place.first
    }

    /// The place of its half, and the gate at which its next record goes.
    pub fn place(&self) -> Place
        ensures { result ≡ self.now }
    {
        let Journal { place, .. } = self;
        *place
    }

    /// Whether a record of these commands, at most 64, has no more data sectors than `room`. Takes no memory.
    pub fn has_room<B: Allocator>(&self, commands: &[&Command<B>]) -> bool
        requires few { length commands.now ≤ most_commands }
        ensures exact { result ≡ nat_le (data_size (text_at A self.now commands.now)) (room_of self.now) }
        ensures most { (form : Form) (before : ℕ) → data_size (record_text form before (given A commands.now)) ≤ most_data_sectors }
    {
        let bytes = self.place.form.head_len() + size_of(commands) as u64;
        sectors_for(bytes) <= self.place.room()
    }

    /// Adds these commands, 1 to 64, as one record. Takes no memory.
    ///
    /// At `Ok` a stop after the call leaves the record. After `DiskFault` read the half again. `JournalFull` comes where the
    /// record has more data sectors than `room`. Nothing is then written.
    pub fn append<D: Disk, B: Allocator>(
        &mut self,
        disk: &mut D,
        commands: &[&Command<B>],
    ) -> Result<(), JournalError>
        requires within { self.old.end ≤ (D.view disk.old).sectors }
        requires some { 1 ≤ length commands.now }
        requires few { length commands.now ≤ most_commands }
        requires counts { self.old.count + length commands.now ≤ last_number }

        // A stop leaves the records with the new one whole or without it. At `Ok` a stop after the call leaves the new one, and the
        // journal goes on after it.
        ensures adds { AddsOne A (D.view disk.old) (D.view disk.new) self.old self.new commands.now result }
        ensures same { OnErr result (self.new ≡ self.old) }
        ensures keeps { KeepsDisk (D.view disk.old) (D.view disk.new) (IsErrOf result JournalError.DiskFault) }

        // It fails only where the record has no room, or where the device has failed.
        ensures kinds { IfErr result IsOfAppend }
        ensures full { IsErrOf result JournalError.JournalFull → room_of self.old < data_size (text_at A self.old commands.now) }
        ensures no_room { room_of self.old < data_size (text_at A self.old commands.now)
            → (result ≡ Err JournalError.JournalFull) × (disk.new ≡ disk.old) }
    {
        let len = put_padded(&mut self.text, &self.place, commands);
        let bytes = self.text.as_slice();
        let data = Padded {
            text: &bytes[..len],
            bytes,
        };
        self.place.append_text::<A, D>(disk, &data)?;
        self.place.count += commands.len() as u64;
        Ok(())
    }
}

impl<A: Allocator> Journal<A> {
    /// Adds these commands, 1 to 64, as one record to this journal and to another one, in the same two syncs. Takes no
    /// memory. The two halves share no sector, and the record fits both.
    ///
    /// At `Ok` a stop after the call leaves the record in both. After `DiskFault`, the only error, read both halves again.
    pub fn append_both<D: Disk, B: Allocator>(
        &mut self,
        disk: &mut D,
        other: &mut Journal<A>,
        commands: &[&Command<B>],
    ) -> Result<(), JournalError>
        requires within { (self.old.end ≤ (D.view disk.old).sectors) × (other.old.end ≤ (D.view disk.old).sectors) }
        requires apart { (self.old.end ≤ other.old.first) ⊎ (other.old.end ≤ self.old.first) }
        requires some { 1 ≤ length commands.now }
        requires few { length commands.now ≤ most_commands }
        requires fits { data_size (text_at A self.old commands.now) ≤ room_of self.old }
        requires other_fits { data_size (text_at A other.old commands.now) ≤ room_of other.old }
        requires counts { self.old.count + length commands.now ≤ last_number }
        requires other_counts { other.old.count + length commands.now ≤ last_number }

        // In each half a stop leaves the records with the new one whole or without it. At `Ok` a stop after the call leaves the new one
        // in both, and each journal goes on after it.
        ensures adds { AddsToBoth A (D.view disk.old) (D.view disk.new) self.old self.new other.old other.new commands.now result }
        ensures same { OnErr result ((self.new ≡ self.old) × (other.new ≡ other.old)) }
        ensures keeps { KeepsDisk (D.view disk.old) (D.view disk.new) (IsErr result) }

        // It fails only where the device has failed.
        ensures kinds { IfErr result (λ e. e ≡ JournalError.DiskFault) }
    {
        let len = put_padded(&mut self.text, &self.place, commands);
        let other_len = put_padded(&mut other.text, &other.place, commands);
        let bytes = self.text.as_slice();
        let data = Padded {
            text: &bytes[..len],
            bytes,
        };
        let other_bytes = other.text.as_slice();
        let other_data = Padded {
            text: &other_bytes[..other_len],
            bytes: other_bytes,
        };
        append_texts::<A, D>(disk, &mut self.place, &mut other.place, &data, &other_data)?;
        self.place.count += commands.len() as u64;
        other.place.count += commands.len() as u64;
        Ok(())
    }
}

impl<A: Allocator> Journal<A> {
    /// Judges the records from the next gate on, and stays there. Takes no memory, and only reads.
    ///
    /// `Damaged` names the first sector at fault.
    pub fn judge_rest<D: Disk>(&mut self, disk: &mut D) -> Result<(), JournalError>
        requires before { self.old.next < self.old.end }
        requires within { self.old.end ≤ (D.view disk.old).sectors }
        requires counts { HasNumbersLeft self.old }

        // It answers what the disk reads as, and stays where it is.
        ensures exact { (D.view disk.old).honest → AreJudged result (half_in A self.old (D.view disk.old)) }
        ensures same { self.new ≡ self.old }

        // It only reads. `DiskFault` comes only where the device has failed. At `Ok` the disk has had one call for each sector
        // up to the closed gate after the records.
        ensures reads { OnlyReads (D.view disk.old) (D.view disk.new) (IsErrOf result JournalError.DiskFault) }
        ensures calls { (D.view disk.old).honest → OnOk result (IsReadOnce A self.old (D.view disk.old) (D.view disk.new)) }
        ensures kinds { IfErr result (IsOfJudging self.old.end) }
    {
        judge_half(disk, &self.place, &mut self.text)
    }
}

impl<A: Allocator + Clone> Journal<A> {
    /// Reads the record at the next gate, and moves on to the gate after it. Returns the record's first data sector and its
    /// commands, or `None` where the gate is closed: there the next record is to be written.
    ///
    /// `Damaged` names the sector at fault. `NoMemory` comes only where there is a record.
    pub fn read_next<D: Disk>(
        &mut self,
        alloc: A,
        disk: &mut D,
    ) -> Result<Option<(u64, Vec<Command<A>, A>)>, JournalError>
        requires before { self.old.next < self.old.end }
        requires within { self.old.end ≤ (D.view disk.old).sectors }
        requires counts { HasNumbersLeft self.old }

        // It returns the record that the disk reads as. Out of memory never masks damage.
        ensures exact { (D.view disk.old).honest → Answers (next_view self.new.next) result (record_in A self.old (D.view disk.old)) }
        ensures memory { IsErrOf result JournalError.NoMemory → (D.view disk.old).honest → HasRecordIn A self.old (D.view disk.old) }

        // It moves on to the gate after the record, and stays where there is no record, or where it fails.
        ensures moves { MovesOn self.old self.new result }
        ensures same { OnErr result (self.new ≡ self.old) }

        // It only reads. `DiskFault` comes only where the device has failed, and `NoMemory` only after a call of the disk. For
        // a record the disk has had one call for its gate and for each of its data sectors.
        ensures reads { OnlyReads (D.view disk.old) (D.view disk.new) (IsErrOf result JournalError.DiskFault) }
        ensures calls { IfOk result (λ found. IfSome found (λ x.
            HasCalledTimes (D.view disk.old) (D.view disk.new) (self.new.next - self.old.next))) }
        ensures tried { IsErrOf result JournalError.NoMemory → length (D.view disk.old).calls < length (D.view disk.new).calls }
        ensures kinds { IfErr result (IsOfReading self.old.end) }
    {
        let at = self.place.next;
        let Some((commands, next)) = read_record(alloc, disk, &self.place, &mut self.text)? else {
            return Ok(None);
        };
        self.place.count += commands.len() as u64;
        self.place.next = next;
        Ok(Some((at + 1, commands)))
    }
}

impl<A: Allocator + Copy> Journal<A> {
    /// Reads the records from the next gate of a place on. Returns the journal that continues after them, and of each record
    /// its first data sector and its commands.
    ///
    /// `Damaged` names the first sector at fault. `NoMemory` comes before anything is read, or where no sector is at fault.
    pub fn replay<D: Disk>(
        alloc: A,
        disk: &mut D,
        place: Place,
    ) -> Result<(Journal<A>, Vec<(u64, Vec<Command<A>, A>), A>), JournalError>
        requires up { place.first ≤ place.next }
        requires some { place.next < place.end }
        requires within { place.end ≤ (D.view disk.old).sectors }
        requires counts { HasNumbersLeft place }

        // It returns the records that the disk reads as. Out of memory never masks damage.
        ensures exact { (D.view disk.old).honest → Answers half_view result (half_in A place (D.view disk.old)) }
        ensures memory { IsErrOf result JournalError.NoMemory → (D.view disk.old).honest
            → IsUnreadOrWhole A place (D.view disk.old) (D.view disk.new) }

        // The journal continues after the records.
        ensures continues { IfOk result (λ x. Continues place x.0 (entries_view x.1.items)) }

        // It only reads. `DiskFault` comes only where the device has failed.
        ensures reads { OnlyReads (D.view disk.old) (D.view disk.new) (IsErrOf result JournalError.DiskFault) }
        ensures kinds { IfErr result (IsOfReading place.end) }
    {
        let mut text = RecordText::with_room(alloc, TEXT_ROOM)?;
        let (place, entries) = read_or_judge(alloc, disk, &place, &mut text)?;
        Ok((Journal { place, text }, entries))
    }
}

// How many bytes the commands take.
fn size_of<B: Allocator>(commands: &[&Command<B>]) -> usize
    requires small { longest * length commands.now < 2 ^ 32 }
    ensures size { result ≡ length (flat_map (λ command. command_text command.now) commands.now) }
    ensures most { result ≤ longest * length commands.now }
{
    let mut size = 0;
    for command in commands {
        size += text_len(command);
    }
    size
}

// Adds the commands' bytes, for which there is room.
fn add_all<A: Allocator, B: Allocator>(out: &mut RecordText<A>, commands: &[&Command<B>])
    requires room { length out.old.items + length (flat_map (λ command. command_text command.now) commands.now) ≤ capacity out.old }
    ensures items { out.new.items ≡ out.old.items ++ flat_map (λ command. command_text command.now) commands.now }
    ensures capacity { capacity out.old ≤ capacity out.new }
    ensures are_commands { All (λ command. IsCommand command.now) commands.now }
{
    for command in commands {
        out.add_command(command);
    }
}

// Puts a record's head into a buffer with room for it: how many commands there are, the number of the first one where the record
// states it, and how many bytes they take.
#[tactic(auto, unfolding(command_bytes::specs::Fields::big))]
fn put_head<A: Allocator>(out: &mut RecordText<A>, count: u16, first: Option<u64>, size: u32)
    requires { 14 ≤ capacity out.old }
    ensures items { out.new.items ≡ big 2 count ++ (first_text first ++ big 4 size) }
    ensures capacity { capacity out.old ≤ capacity out.new }
{
    out.clear();
    out.add(&count.to_be_bytes());
    if let Some(number) = first {
        out.add(&number.to_be_bytes());
    }
    out.add(&size.to_be_bytes());
}

// Puts the text of the next record of a place into a buffer with room for it.
fn put_record<A: Allocator, B: Allocator>(
    out: &mut RecordText<A>,
    place: &Place,
    commands: &[&Command<B>],
)
    requires room { 512 * most_data_sectors ≤ capacity out.old }
    requires next { IsCountOfNext place.now (length commands.now) }
    ensures items { out.new.items ≡ text_at A place.now commands.now }
    ensures next { IsNext place.now (given A commands.now) out.new.items }
    ensures capacity { capacity out.old ≤ capacity out.new }
{
    let first = place.form.first_of(place.count);
    put_head(out, commands.len() as u16, first, size_of(commands) as u32);
    add_all(out, commands);
}

// Puts the text of the next record of a place into a buffer with room for it, with zeros after it to the end of the sector after
// the text's last one. Returns how many bytes the text has.
fn put_padded<A: Allocator, B: Allocator>(
    out: &mut RecordText<A>,
    place: &Place,
    commands: &[&Command<B>],
) -> usize
    requires room { text_room ≤ capacity out.old }
    requires next { IsCountOfNext place.now (length commands.now) }
    ensures items { take result out.new.items ≡ text_at A place.now commands.now }
    ensures next { IsNext place.now (given A commands.now) (take result out.new.items) }
    ensures padded { IsPadded (take result out.new.items) out.new.items }
    ensures len { result ≤ length out.new.items }
    ensures capacity { capacity out.old ≤ capacity out.new }
{
    put_record(out, place, commands);
    out.pad()
}
