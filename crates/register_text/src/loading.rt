//! A register's text, read from any reader.
ghost use Rattle.std.specs.Prelude.{◌≡◌, ◌≤◌, ◌<◌, ◌+◌, ◌-◌, ◌^◌, ◌++◌, ◌∷◌, [], List, ℕ, length, take, drop};
ghost use Rattle.std.specs.Prelude.{slice_get, MatchOption, IfErr, IfOk, OnOk, IfSome, Ok, Some};
ghost use Rattle.register_text.specs.Dump.{HasNoFeed, IsAll, IsLoadFault, long_cause, longest_dump_line, text_read};
ghost use Rattle.register_text.specs.Inside.Going.{IsLineSoFar, IsOfLine, fault_of_line, outcome};
ghost use Rattle.register_text.specs.Passing.{IsUnread, IsWhole};

use crate::TextSource;
use crate::cause::Cause;
use crate::load_fault::LoadFault;
use crate::loader::{TakeFault, TextLoader};
use centre_core::Register;
use memchr::memchr;
use registration::Limits;
use std::alloc::{AllocError, Allocator};

/// The most bytes of a line that can be taken, without its line feed.
const LONGEST: usize = 4096;

/// The most bytes that one call of the reader gives.
const PIECE: usize = 65536;

/// A text that is being read: the lines so far, and what came of the next one.
#[derive(Drop)]
struct Reading<A: Allocator> {
    loader: TextLoader<A>,
    number: u64,
    line: Vec<u8, A>,
}

/// Where the next line feed is, from `at` on.
fn next_end(piece: &[u8], at: usize) -> Option<usize>
    requires { at ≤ length piece.now }
    ensures { MatchOption result (HasNoFeed (drop at piece.now))
        (λ end. (at ≤ end) × (end < length piece.now) × HasNoFeed (take (end - at) (drop at piece.now)) × (slice_get piece.now end ≡ Some 10)) }
{
    let length = memchr(b'\n', &piece[at..])?;
    Some(at + length)
}

// Why a line can't be taken that is longer than any.
fn long_cause(is_headed: bool) -> Cause
    ensures { result ≡ long_cause is_headed }
{
    if is_headed {
        Cause::Spelling
    } else {
        Cause::Head
    }
}

// Why the text is not read, if the line of this number is not taken.
fn fault_of_line(number: u64, fault: TakeFault) -> LoadFault
    ensures { result ≡ fault_of_line number fault }
{
    match fault {
        TakeFault::Memory => LoadFault::Memory,
        TakeFault::Line(cause) => LoadFault::Line(number, cause),
    }
}

impl<A: Allocator + Clone> Reading<A> {
    #[tactic(auto, using(crate::proofs::Parts::none_kept))]
    fn new(alloc: A, limits: Limits) -> Result<Self, AllocError>
        ensures read { IfOk result (λ reading. (left : List ℕ) → outcome reading left ≡ text_read limits left) }
        ensures kept { IfOk result (λ reading. IsLineSoFar reading.line.items) }
        ensures first { IfOk result (λ reading. reading.number ≡ 1) }
    {
        Ok(Reading {
            line: Vec::new(alloc.clone()?),
            number: 1,
            loader: TextLoader::new(alloc, limits)?,
        })
    }

    // Takes the line that ends with these bytes.
    #[tactic(auto, using(crate::proofs::Parts::line_made, crate::proofs::Parts::line_refused, crate::proofs::Parts::of_line, crate::proofs::Parts::none_kept))]
    fn take_line(&mut self, end: &[u8]) -> Result<(), LoadFault>
        requires room { self.old.number + 1 < 2 ^ 64 }
        requires kept { IsLineSoFar self.old.line.items }
        requires plain { HasNoFeed end.now }
        ensures ok { OnOk result ((left : List ℕ) → outcome self.old (end.now ++ 10 ∷ left) ≡ outcome self.new left) }
        ensures fault { IfErr result (λ fault. (left : List ℕ) → IsLoadFault (outcome self.old (end.now ++ 10 ∷ left)) fault) }
        ensures kinds { IfErr result IsOfLine }
        ensures kept { OnOk result (IsLineSoFar self.new.line.items) }
        ensures number { OnOk result (self.new.number ≡ self.old.number + 1) }
    {
        let Ok(()) = self.line.extend_from_slice(end) else {
            return Err(LoadFault::Memory);
        };
        if let Err(fault) = self.loader.take(&self.line) {
            return Err(fault_of_line(self.number, fault));
        }
        self.line.clear();
        self.number += 1;
        Ok(())
    }

    // Adds bytes to the line so far, which goes on after them.
    #[tactic(auto, using(crate::proofs::Parts::long_line, crate::proofs::Parts::kept_more, crate::proofs::Parts::is_kept))]
    fn add_to_line(&mut self, part: &[u8]) -> Result<(), LoadFault>
        requires kept { IsLineSoFar self.old.line.items }
        requires plain { HasNoFeed part.now }
        ensures ok { OnOk result ((left : List ℕ) → outcome self.old (part.now ++ left) ≡ outcome self.new left) }
        ensures fault { IfErr result (λ fault. (left : List ℕ) → IsLoadFault (outcome self.old (part.now ++ left)) fault) }
        ensures kinds { IfErr result IsOfLine }
        ensures kept { OnOk result (IsLineSoFar self.new.line.items) }
        ensures number { self.new.number ≡ self.old.number }
    {
        let Ok(()) = self.line.extend_from_slice(part) else {
            return Err(LoadFault::Memory);
        };
        if self.line.len() > LONGEST {
            let cause = long_cause(self.loader.is_headed());
            return Err(LoadFault::Line(self.number, cause));
        }
        Ok(())
    }

    // Takes all lines that end in a piece of the text, and keeps what follows the last of them.
    fn take_piece(&mut self, piece: &[u8]) -> Result<(), LoadFault>
        requires room { self.old.number + length piece.now < 2 ^ 64 }
        requires kept { IsLineSoFar self.old.line.items }
        ensures ok { OnOk result ((left : List ℕ) → outcome self.old (piece.now ++ left) ≡ outcome self.new left) }
        ensures fault { IfErr result (λ fault. (left : List ℕ) → IsLoadFault (outcome self.old (piece.now ++ left)) fault) }
        ensures kinds { IfErr result IsOfLine }
        ensures kept { OnOk result (IsLineSoFar self.new.line.items) }
        ensures number { OnOk result (self.new.number ≤ self.old.number + length piece.now) }
    {
        let mut at = 0;
        while let Some(end) = next_end(piece, at) {
            self.take_line(&piece[at..end])?;
            at = end + 1;
        }
        self.add_to_line(&piece[at..])
    }

    // Takes all that the reader gives.
    fn take_all<R: TextSource>(&mut self, reader: &mut R) -> Result<(), LoadFault>
        requires first { self.old.number ≡ 1 }
        requires kept { IsLineSoFar self.old.line.items }
        ensures ok { OnOk result ((text : List ℕ) × IsAll (R.remaining reader.old) text × (outcome self.old text ≡ outcome self.new [])) }
        ensures fault { IfErr result (λ fault. (text : List ℕ) → R.remaining reader.old ≡ Some text → IsLoadFault (outcome self.old text) fault) }
        ensures kept { OnOk result (IsLineSoFar self.new.line.items) }
        ensures whole { OnOk result ((text : List ℕ) × IsWhole R.gave R.ended reader.old reader.new text × (outcome self.old text ≡ outcome self.new [])) }
        ensures unread { IfErr result (IsUnread R.gave R.ended R.failed (outcome self.old) reader.old reader.new) }
    {
        let mut buffer = [0u8; PIECE];
        for _ in 0..u32::MAX {
            let Ok(next) = reader.next_piece(&mut buffer) else {
                return Err(LoadFault::Read);
            };
            match next {
                None => return Ok(()),
                Some(n) => self.take_piece(&buffer[..n])?,
            }
        }
        Err(LoadFault::Read)
    }

    // The register, once all of the text was taken.
    #[tactic(auto, using(crate::proofs::Parts::at_end, crate::proofs::Parts::cut_end))]
    fn finish(self) -> Result<Register<A>, LoadFault>
        requires kept { IsLineSoFar self.line.items }
        ensures { result ≡ outcome self [] }
    {
        let Reading {
            loader,
            number,
            line,
        } = self;
        if !line.is_empty() {
            return Err(LoadFault::Cut(number));
        }
        match loader.finish() {
            Some(register) => Ok(register),
            None => Err(LoadFault::Cut(number)),
        }
    }
}

/// Reads the text of a register to its end, and makes the register of it under these limits. Between two pieces of the
/// text it keeps at most 4,096 bytes of a line. A line of more bytes can't be taken.
///
/// # Errors
/// `Line` and `Cut` for the first fault of the text. `Read` only if the reader failed, or gave no end in 4,294,967,295 calls, and no line
/// of what it gave is at fault. `Memory` only before the reader's end, and only if no line is at fault in what it gave before its last
/// call. One call gives at most 65,536 bytes.
pub fn read_register<A: Allocator + Clone, R: TextSource>(
    alloc: A,
    limits: Limits,
    reader: &mut R,
) -> Result<Register<A>, LoadFault>
    ensures ok { IfOk result (λ register. (text : List ℕ) × IsAll (R.remaining reader.old) text × (text_read limits text ≡ Ok register)) }
    ensures fault { IfErr result (λ fault. IfSome (R.remaining reader.old) (λ text. IsLoadFault (text_read limits text) fault)) }
    // Over any reader: what it gave, and why no more.
    ensures whole { IfOk result (λ register. (text : List ℕ) × IsWhole R.gave R.ended reader.old reader.new text × (text_read limits text ≡ Ok register)) }
    ensures unread { IfErr result (IsUnread R.gave R.ended R.failed (text_read limits) reader.old reader.new) }
{
    let Ok(mut reading) = Reading::new(alloc, limits) else {
        return Err(LoadFault::Memory);
    };
    reading.take_all(reader)?;
    reading.finish()
}
