//! Answering lines as their bytes come.
ghost use Rattle.std.specs.Prelude.{◌≡◌, ◌⊎◌, ◌≤◌, ◌<◌, ◌+◌, ◌-◌, ◌^◌, ◌++◌, ◌∷◌, [], List, ℕ, length, take, drop, slice_get};
ghost use Rattle.std.specs.Prelude.{MatchOption, option_map, IfErr, IfOk, IsErrOf, IsTrue, OnOk, OnErr, Some};
ghost use Rattle.console.specs.Inside.Given.{MayBePrinted, answer_of};
ghost use Rattle.console.specs.Inside.Feed.{GoesOnAtLine, GoesOnIn, StopsAtLine, StopsIn};
ghost use Rattle.console.specs.Inside.Feed.{Sends, SendsPart, GoesOn, StopsWithin, EndsSo, IsSameRun, RunsOn, reached_by, start_at, outcome_at};
ghost use Rattle.console.specs.Inside.Kept.{IsSameInput, WritesOn};
ghost use Rattle.console.specs.Inside.Passing.{sent_by};
ghost use Rattle.console.specs.Failures.{failures_reported};
ghost use Rattle.console.specs.Inside.Current.{HasNoEnd, Holds, KeepsLine};
ghost use Rattle.console.specs.Runs.{IsRun, speaker_of};
ghost use Rattle.console.specs.Told.{EndsSince, Tells, TellsWholeSince, calls_of, events_of, streams_of};
ghost use Rattle.console.specs.Dialogue.{Answers};
ghost use Rattle.console.specs.declared.answer.Answer.{Answer};

use crate::answer::Answer;
use crate::ends::next_end;
use crate::figures::ServiceFigures;
use crate::hearing::hear_line;
use crate::input::Input;
use crate::line::{Line, LineFault};
use crate::output::Output;
use crate::progress::{AnswerText, Given, LineProgress};
use crate::running::{Piece, Ran, RunFault, Terms};
use desk::{Desk, Outage};
use std::alloc::Allocator;
use std::io::{Read, Write};
use std::sync::ledger::Ledger;

/// The most bytes of one call of the reader.
const PIECE: usize = 65536;

/// The line of this number; `None` if it is too long.
#[derive(Clone, Copy)]
struct Asked<'a> {
    number: u64,
    line: Option<&'a [u8]>,
}

/// Does what a station's line asks, and returns what is given for it. The lines of a listing or of the figures are put into `text`.
#[inline(always)]
fn answer_line<A: Allocator + Copy, D: Desk<A>>(
    terms: &Terms<A>,
    service: &ServiceFigures,
    asked: Asked,
    desk: &mut D,
    text: &mut AnswerText<A>,
) -> Given<A>
    ensures answers { (whole : List ℕ) → KeepsLine (option_map (λ l. l.now) asked.entry.line) whole
        → Answers D.rules (speaker_of terms.now) asked.entry.number (D.world desk.old) whole (answer_of text.new.bytes.items result) (D.world desk.new) }
    ensures printable { MayBePrinted result }
{
    service.add_lines(terms.station, 1);
    let Some(line) = asked.line else {
        return Given::Answered(Answer::Bad(asked.number, LineFault::TooLong));
    };
    let said = hear_line(terms, line);
    match &said {
        Ok(Line::Silent) => Given::Answered(Answer::Quiet),
        Ok(Line::Bad(fault)) => Given::Answered(Answer::Bad(asked.number, *fault)),
        Ok(Line::Apply(command)) => match desk.apply(terms.alloc, command) {
            Ok(reply) => Given::Answered(Answer::Replied(command.sequence, reply)),
            Err(word) => Given::Answered(Answer::CommandOutage(command.sequence, word)),
        },
        Ok(Line::Ask(query)) => match desk.query(terms.alloc, query) {
            Ok(query_answer) => Given::Answered(Answer::Queried(query_answer)),
            Err(word) => Given::Answered(Answer::QueryOutage(asked.number, word)),
        },
        Ok(Line::Print(listing)) => match text.list(desk, listing) {
            Ok(()) => Given::Listed,
            Err(word) => Given::Answered(Answer::QueryOutage(asked.number, word)),
        },
        Ok(Line::Mark(mark)) => Given::Answered(Answer::Marked(*mark)),
        Ok(Line::OwnStation(station)) => Given::Answered(Answer::OwnStation(*station)),
        Ok(Line::Service) => match text.service(service) {
            Ok(()) => Given::Service,
            Err(_) => Given::Answered(Answer::ServiceOutage(asked.number)),
        },
        Ok(Line::Forbidden(sequence)) => {
            service.add_forbidden(terms.station);
            Given::Answered(Answer::Forbidden(*sequence))
        }
        Err(unread) => Given::Answered(Answer::CommandOutage(unread.sequence, Outage::Memory)),
    }
}

/// Writes the answer to the current line, and counts the line.
#[inline(always)]
fn send_answer<A: Allocator + Copy + Drop, W: Write, G: Ledger>(
    progress: &mut LineProgress<A>,
    given: &Given<A>,
    output: &mut Output<W, G>,
) -> Result<(), RunFault>
    requires room { progress.old.lines + 1 < 2 ^ 64 }
    requires printable { MayBePrinted given.now }
    ensures ok { OnOk result (Sends progress.old (sent_by W.contents output.old) (answer_of progress.old.out.bytes.items given.now)
        progress.new (sent_by W.contents output.new)) }
    ensures err { OnErr result (SendsPart progress.old.lines (sent_by W.contents output.old) (answer_of progress.old.out.bytes.items given.now)
        (sent_by W.contents output.new)) }
    ensures lines { progress.new.lines ≤ progress.old.lines + 1 }
    ensures writes { WritesOn output.old output.new result }
{
    let number = progress.lines + 1;
    let troubled = progress.out.hold(number, given);
    output.note_answer(progress.out.as_slice());
    output.send(progress.out.as_slice())?;
    progress.out.free();
    progress.lines = number;
    progress.troubled = progress.troubled | troubled;
    progress.current.clear();
    Ok(())
}

/// A run: its terms, how far it has come, the writer of its answers, and the desk that it asks.
#[derive(Drop)]
pub(crate) struct LineRun<
    't,
    's,
    'p,
    'o,
    'd,
    'w,
    'f,
    A: Allocator + Copy,
    W: Write,
    G: Ledger,
    D: Desk<A>,
> {
    pub(crate) terms: &'t Terms<A>,
    /// The figures of the service that the station is one of.
    pub(crate) service: &'s ServiceFigures,
    pub(crate) progress: &'p mut LineProgress<A>,
    pub(crate) output: &'o mut Output<'w, 'f, W, G>,
    pub(crate) desk: &'d mut D,
}

impl<
    't,
    's,
    'p,
    'o,
    'd,
    'w,
    'f,
    A: Allocator + Copy + Drop,
    W: Write,
    G: Ledger,
    D: Desk<A>,
> LineRun<'t, 's, 'p, 'o, 'd, 'w, 'f, A, W, G, D> {
    /// Takes bytes and the line feed after them, and answers the line that they end.
    #[inline(always)]
    fn take_line(&mut self, run: &[u8]) -> Result<(), RunFault>
        requires room { self.old.progress.now.lines + 1 < 2 ^ 64 }
        requires plain { HasNoEnd run.now }
        ensures ok { OnOk result (GoesOn D.rules (reached_by D.world W.contents self.old) (run.now ++ 10 ∷ []) (reached_by D.world W.contents self.new)) }
        ensures err { IfErr result (λ e. StopsWithin D.rules (reached_by D.world W.contents self.old) (run.now ++ 10 ∷ []) e
            (reached_by D.world W.contents self.new)) }
        ensures lines { self.new.progress.now.lines ≤ self.old.progress.now.lines + 1 }
        ensures runs { RunsOn self.old self.new result }
    {
        let progress = &mut *self.progress;
        progress.current.join(run);
        let asked = Asked {
            number: progress.lines + 1,
            line: progress.current.end_line(run),
        };
        let given = answer_line(
            self.terms,
            self.service,
            asked,
            self.desk,
            &mut progress.out,
        );
        send_answer(progress, &given, self.output)
    }

    /// Takes whole lines at the beginning of a text, as long as they ask for commands, and does and answers these together. It
    /// returns how many bytes it took. It may be called only if nothing of the current line has come before.
    fn take_together(&mut self, text: &[u8]) -> Result<usize, RunFault>
        requires room { self.old.progress.now.lines + length text.now < 2 ^ 64 }
        ensures within { IfOk result (λ n. n ≤ length text.now) }
        ensures ok { IfOk result (λ n. GoesOnAtLine D.rules (reached_by D.world W.contents self.old) (take n text.now) (reached_by D.world W.contents self.new)) }
        ensures err { IfErr result (λ e. StopsAtLine D.rules (reached_by D.world W.contents self.old) text.now e (reached_by D.world W.contents self.new)) }
        ensures lines { IfOk result (λ n. self.new.progress.now.lines ≤ self.old.progress.now.lines + n) }
        ensures most { self.new.progress.now.lines ≤ self.old.progress.now.lines + length text.now }
        ensures runs { RunsOn self.old self.new result }
    {
        let most = self.desk.most_together();
        let progress = &mut *self.progress;
        let taken = progress.together.collect(self.terms, text, most);
        let count = progress.together.commands.len() as u64;
        if count == 0 {
            return Ok(0);
        }
        self.service.add_lines(self.terms.station, count);
        let troubled = progress
            .together
            .serve(self.terms.alloc, self.desk, self.output)?;
        progress.lines += count;
        progress.troubled = progress.troubled | troubled;
        Ok(taken)
    }

    /// Whether a line begins at this place, and with a digit. Only such lines ask for commands.
    fn may_ask(&self, piece: &[u8], at: usize) -> bool
        requires { at < length piece.now }
        ensures { IsTrue result → (line : List ℕ) → Holds self.now.progress.now.current.bytes.items self.now.progress.now.current.long line → line ≡ [] }
    {
        if !self.progress.current.is_empty() {
            return false;
        }
        piece[at].is_ascii_digit()
    }

    /// Takes the next line of a piece, or several if these ask for commands. The piece is taken up to `at`, and its next line feed is
    /// at `end`. It returns the place up to which the piece is taken now.
    fn take_next(&mut self, piece: &[u8], at: usize, end: usize) -> Result<usize, RunFault>
        requires room { self.old.progress.now.lines + length piece.now < 2 ^ 64 + at }
        requires here { (at ≤ end) × (end < length piece.now) }
        requires plain { HasNoEnd (take (end - at) (drop at piece.now)) }
        requires ended { slice_get piece.now end ≡ Some 10 }
        ensures within { IfOk result (λ next. (at < next) × (next ≤ length piece.now)) }
        ensures ok { IfOk result (λ next. GoesOnIn D.rules (reached_by D.world W.contents self.old) piece.now at next (reached_by D.world W.contents self.new)) }
        ensures err { IfErr result (λ e. StopsIn D.rules (reached_by D.world W.contents self.old) piece.now at e (reached_by D.world W.contents self.new)) }
        ensures lines { IfOk result (λ next. self.new.progress.now.lines + at ≤ self.old.progress.now.lines + next) }
        ensures most { self.new.progress.now.lines + at ≤ self.old.progress.now.lines + length piece.now }
        ensures runs { RunsOn self.old self.new result }
    {
        if !self.may_ask(piece, at) {
            self.take_line(&piece[at..end])?;
            return Ok(end + 1);
        }
        let taken = self.take_together(&piece[at..])?;
        if taken > 0 {
            return Ok(at + taken);
        }
        self.take_line(&piece[at..end])?;
        Ok(end + 1)
    }

    /// Takes a piece of the text, and answers each line that it ends.
    fn take_piece(&mut self, piece: &[u8]) -> Result<(), RunFault>
        requires { self.old.progress.now.lines + length piece.now < 2 ^ 64 }
        ensures ok { OnOk result (GoesOn D.rules (reached_by D.world W.contents self.old) piece.now (reached_by D.world W.contents self.new)) }
        ensures err { IfErr result (λ e. StopsWithin D.rules (reached_by D.world W.contents self.old) piece.now e (reached_by D.world W.contents self.new)) }
        ensures lines { self.new.progress.now.lines ≤ self.old.progress.now.lines + length piece.now }
        ensures runs { RunsOn self.old self.new result }
    {
        let mut at = 0;
        while let Some(end) = next_end(piece, at) {
            at = self.take_next(piece, at, end)?;
        }
        self.progress.current.add(&piece[at..]);
        Ok(())
    }

    /// Answers the last line, if the text doesn't end in a line feed.
    fn finish(&mut self) -> Result<Ran, RunFault>
        requires { self.old.progress.now.lines + 1 < 2 ^ 64 }
        ensures ends { EndsSo D.rules (reached_by D.world W.contents self.old) (reached_by D.world W.contents self.new) result }
        ensures runs { RunsOn self.old self.new result }
    {
        let progress = &mut *self.progress;
        if progress.current.is_empty() {
            return Ok(progress.ran());
        }
        let asked = Asked {
            number: progress.lines + 1,
            line: progress.current.line(false),
        };
        let given = answer_line(
            self.terms,
            self.service,
            asked,
            self.desk,
            &mut progress.out,
        );
        send_answer(progress, &given, self.output)?;
        Ok(progress.ran())
    }

    /// Begins the run, reads to the end of the reader, in at most `turns` calls, and answers each line.
    pub(crate) fn take_all<R: Read, L: Ledger, F: Ledger>(
        &mut self,
        input: &mut Input<R, L, F>,
    ) -> Result<Ran, RunFault>
        ensures answers { IsRun A D.rules (start_at (reached_by D.world W.contents self.old) (R.remaining input.old.reader.now))
            (outcome_at (reached_by D.world W.contents self.new) result) }
        ensures told { Tells A D.rules (speaker_of self.old.terms.now) (D.world self.old.desk.now) (D.world self.new.desk.now)
            (streams_of R.remaining W.contents input.old self.old.output.now) (streams_of R.remaining W.contents input.new self.new.output.now) result }
        ensures whole { IsErrOf result RunFault.Read → TellsWholeSince A D.rules (speaker_of self.old.terms.now) (D.world self.old.desk.now) (D.world self.new.desk.now)
            (streams_of R.remaining W.contents input.old self.old.output.now) (streams_of R.remaining W.contents input.new self.new.output.now) }
        ensures ends { EndsSince self.old.terms.now.turns (calls_of input.old) (calls_of input.new) (events_of self.old.output.now) (events_of self.new.output.now) result }
        ensures calls { input.new.steps.now ≤ input.old.steps.now + self.old.terms.now.turns }
        ensures read { IsErrOf result RunFault.Read
            → (input.new.steps.now ≡ input.old.steps.now + self.old.terms.now.turns) ⊎ (input.old.faults.now < input.new.faults.now) }
        ensures ledger { self.new.output.now.failures.now ≡ self.old.output.now.failures.now + failures_reported result }
        ensures memory { IsErrOf result RunFault.NoMemory → ⊥ }
        ensures input { IsSameInput input.old input.new }
        ensures same { IsSameRun self.old self.new }
    {
        self.progress.begin();
        let mut buffer = [0u8; PIECE];
        for _ in 0..self.terms.turns {
            match input.read(&mut buffer)? {
                Piece::End => return self.finish(),
                Piece::Bytes(n) => self.take_piece(&buffer[..n])?,
            }
        }
        Err(RunFault::Read)
    }
}
