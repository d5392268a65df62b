//! How far a run has come.
ghost use Rattle.std.specs.Prelude.{◌≡◌, ◌⊎◌, ◌++◌, ◌≤◌, [], List, ℕ, Err, IfErr, MatchBool, OnOk, option_map, length, ◌<◌, false, vec_capacity};
ghost use Rattle.console.specs.declared.progress.TheConstants.{ANSWER, ROOM};
ghost use Rattle.desk.specs.Listed.{IsListed};
ghost use Rattle.console.specs.Dialogue.{LacksLines};
ghost use Rattle.console.specs.Inside.Given.{IsPrintable, IsTextFor, MayBePrinted, answer_of};
ghost use Rattle.std.specs.Str.Lines.{strip_carriage_return};
ghost use Rattle.console.specs.Service.{IsService};
ghost use Rattle.console.specs.Inside.Current.{Holds, HoldsWith, line_at_end, KeepsLine};

use crate::answer::{Answer, print_answer};
use crate::figures::ServiceFigures;
use crate::line::LONGEST;
use crate::running::Ran;
use crate::service::put_service;
use crate::together::Together;
use desk::{Desk, Outage};
use listings::Listing;
use std::alloc::{AllocError, Allocator};

/// The most bytes of a line that are kept: a line of the greatest length, and a carriage return.
pub(crate) const ROOM: usize = LONGEST + 1;

/// The current line: the bytes of it that have come so far. A read can end within a line.
#[derive(Drop)]
pub(crate) struct CurrentLine<A: Allocator> {
    // Its bytes, if there are at most ROOM.
    bytes: Vec<u8, A>,
    // Whether there are more.
    long: bool,
    ghost room: { ROOM ≤ vec_capacity bytes },
}

impl<A: Allocator> CurrentLine<A> {
    /// An empty line, with memory for a whole one.
    fn new(alloc: A) -> Result<Self, AllocError> {
        Ok(CurrentLine {
            bytes: Vec::with_capacity(alloc, ROOM)?,
            long: false,
        })
    }

    /// Adds bytes to the line.
    #[inline(always)]
    pub(crate) fn add(&mut self, run: &[u8])
        ensures { (line : List ℕ) → Holds self.old.bytes.items self.old.long line → Holds self.new.bytes.items self.new.long (line ++ run.now) }
    {
        if self.long {
            return;
        }
        if run.len() > ROOM || self.bytes.len() > ROOM - run.len() {
            self.long = true;
            return;
        }
        self.bytes.extend_from_slice(run).unwrap();
    }

    /// Adds the last bytes of the line, if some of its bytes came before. Else the last bytes are not copied: `end_line` takes them.
    #[inline(always)]
    pub(crate) fn join(&mut self, run: &[u8])
        ensures { (line : List ℕ) → Holds self.old.bytes.items self.old.long line → HoldsWith self.new.bytes.items self.new.long line run.now }
    {
        if !self.is_empty() {
            self.add(run);
        }
    }

    /// Whether no byte of the line has come.
    #[inline(always)]
    pub(crate) fn is_empty(&self) -> bool
        ensures { (line : List ℕ) → Holds self.now.bytes.items self.now.long line → MatchBool result (line ≡ []) (0 < length line) }
    {
        !self.long && self.bytes.is_empty()
    }

    /// The line. `ended` is whether a line feed ends it, and not the end of the text. `None` if the line is too long.
    #[inline(always)]
    pub(crate) fn line(&self, ended: bool) -> Option<&[u8]>
        ensures { (line : List ℕ) → Holds self.now.bytes.items self.now.long line → KeepsLine (option_map (λ l. l.now) result) (line_at_end ended line) }
    {
        if self.long {
            return None;
        }
        let line = self.bytes.as_slice();
        if ended {
            return Some(without_return(line));
        }
        Some(line)
    }

    /// The line that ends in these bytes and a line feed. `join` was called with these bytes before. `None` if it is
    /// too long.
    #[inline(always)]
    pub(crate) fn end_line<'a>(&'a self, run: &'a [u8]) -> Option<&'a [u8]>
        ensures { (line : List ℕ) → HoldsWith self.now.bytes.items self.now.long line run.now
            → KeepsLine (option_map (λ l. l.now) result) (strip_carriage_return (line ++ run.now)) }
    {
        if self.is_empty() {
            return Some(without_return(run));
        }
        self.line(true)
    }

    /// Begins the next line.
    pub(crate) fn clear(&mut self)
        ensures { Holds self.new.bytes.items self.new.long [] }
    {
        self.bytes.clear();
        self.long = false;
    }
}

/// The line without a carriage return at its end.
#[inline(always)]
pub(crate) fn without_return(line: &[u8]) -> &[u8]
    ensures { result.now ≡ strip_carriage_return line.now }
{
    if !line.is_empty() && line[line.len() - 1] == b'\r' {
        return &line[..line.len() - 1];
    }
    line
}

/// What is given for a line, before its text is written.
#[derive(Drop)]
pub(crate) enum Given<B: Allocator> {
    /// An answer.
    Answered(Answer<B>),
    /// A listing, whose lines are in the text already.
    Listed,
    /// The figures of the service, whose lines are in the text already.
    Service,
}

/// Room for an answer of one line. Even `SEQ kept NUMBER PDU` with a PDU of 2,048 bits fits.
const ANSWER: usize = 1024;

/// The memory of a text with more room than this is freed once the text is written.
const LONG_TEXT: usize = 65536;

/// The text of an answer.
#[derive(Drop)]
pub(crate) struct AnswerText<A: Allocator> {
    bytes: Vec<u8, A>,
    ghost room: { ANSWER ≤ vec_capacity bytes },
}

impl<A: Allocator + Copy> AnswerText<A> {
    /// No text yet, with memory for an answer of one line.
    fn new(alloc: A) -> Result<Self, AllocError> {
        Ok(AnswerText {
            bytes: Vec::with_capacity(alloc, ANSWER)?,
        })
    }

    /// Makes the text of the answer to the line of this number, and returns whether it reports trouble. When memory runs
    /// out for the text of a list, the answer is `memory` instead.
    #[inline(always)]
    fn print<B: Allocator + Drop>(&mut self, number: u64, answer: &Answer<B>) -> bool
        requires { IsPrintable answer.now }
        ensures { IsTextFor number answer.now self.new.bytes.items result }
    {
        self.bytes.clear();
        if print_answer(&mut self.bytes, answer).is_ok() {
            return answer.is_trouble();
        }
        let query_outage = Answer::<B>::QueryOutage(number, Outage::Memory);
        print_answer(&mut self.bytes, &query_outage).unwrap();
        true
    }

    /// Makes the text of what is given for the line of this number, and returns whether it reports trouble.
    #[inline(always)]
    pub(crate) fn hold<B: Allocator + Drop>(&mut self, number: u64, given: &Given<B>) -> bool
        requires { MayBePrinted given.now }
        ensures { IsTextFor number (answer_of self.old.bytes.items given.now) self.new.bytes.items result }
    {
        match given {
            Given::Answered(answer) => self.print(number, answer),
            Given::Listed => false,
            Given::Service => false,
        }
    }

    /// Makes the text of a listing of a desk's register.
    pub(crate) fn list<D: Desk<A>>(&mut self, desk: &mut D, listing: &Listing) -> Result<(), Outage>
        ensures listed { OnOk result (IsListed D.rules (D.world desk.old) listing.now [] self.new.bytes.items (D.world desk.new)) }
        ensures unlisted { IfErr result (λ word. D.rules.reads (D.world desk.old) (Err word) (D.world desk.new)
            ⊎ LacksLines D.rules (D.world desk.old) listing.now word (D.world desk.new)) }
    {
        self.bytes.clear();
        desk.list(listing, &mut self.bytes)
    }

    /// Makes the text of the figures of a service.
    pub(crate) fn service(&mut self, service: &ServiceFigures) -> Result<(), AllocError>
        ensures { OnOk result (IsService self.new.bytes.items) }
    {
        self.bytes.clear();
        put_service(&mut self.bytes, service)
    }

    /// Frees the memory of a long text, once it is written. Room for an answer of one line stays.
    pub(crate) fn free(&mut self) {
        if self.bytes.capacity() > LONG_TEXT {
            self.bytes.clear();
            self.bytes.shrink_to(ANSWER);
        }
    }

    pub(crate) fn as_slice(&self) -> &[u8]
        ensures { result.now ≡ self.now.bytes.items }
    {
        self.bytes.as_slice()
    }
}

/// How far a run has come.
#[derive(Drop)]
pub(crate) struct LineProgress<A: Allocator> {
    pub(crate) current: CurrentLine<A>,
    /// The text of the last answer.
    pub(crate) out: AnswerText<A>,
    /// The commands of the lines that are answered together.
    pub(crate) together: Together<A>,
    /// How many lines were answered.
    pub(crate) lines: u64,
    /// Whether there was trouble in an answer.
    pub(crate) troubled: bool,
}

impl<A: Allocator + Copy> LineProgress<A> {
    /// Takes memory for the current line, for 64 commands that are answered together, and for an answer of one line. A run takes
    /// no other memory for these, except for the PDUs of commands and replies.
    pub(crate) fn new(alloc: A) -> Result<Self, AllocError> {
        Ok(LineProgress {
            current: CurrentLine::new(alloc)?,
            out: AnswerText::new(alloc)?,
            together: Together::new(alloc)?,
            lines: 0,
            troubled: false,
        })
    }

    /// Begins a run: nothing has come.
    pub(crate) fn begin(&mut self)
        ensures current { Holds self.new.current.bytes.items self.new.current.long [] }
        ensures lines { self.new.lines ≡ 0 }
        ensures troubled { self.new.troubled ≡ false }
    {
        self.current.clear();
        self.lines = 0;
        self.troubled = false;
    }

    /// The result of a run that ends here.
    pub(crate) fn ran(&self) -> Ran
        ensures lines { result.lines ≡ self.now.lines }
        ensures troubled { result.troubled ≡ self.now.troubled }
    {
        Ran {
            lines: self.lines,
            troubled: self.troubled,
        }
    }
}
