//! Consecutive lines that ask for commands. They are done together, and answered together.
ghost use Rattle.std.specs.Prelude.{◌≡◌, ◌≤◌, ◌<◌, ◌+◌, ◌++◌, ◌∷◌, [], List, ℕ, Result, All, IfOk, MatchBool, OnErr, OnOk, length, take, vec_capacity, vec_len};
ghost use Rattle.std.specs.List.{list_any};
ghost use Rattle.desk.specs.Replies.{HasShortPdu};
ghost use Rattle.desk.specs.Rules.{AreApplied};
ghost use Rattle.listings.specs.Parts.{answer_room};
ghost use Rattle.console.specs.Answer.{is_trouble, text, texts};
ghost use Rattle.console.specs.Reading.{heard};
ghost use Rattle.console.specs.Runs.{speaker_of};
ghost use Rattle.console.specs.declared.line.Line.TheVariants.{Apply};
ghost use Rattle.console.specs.Inside.Kept.{IsSameOutput, WritesOn};
ghost use Rattle.console.specs.Inside.Passing.{Passes, PassesPart, sent_by};
ghost use Rattle.console.specs.Inside.Together.{AreLines, answer_for, answers_for};

use crate::answer_text::{put_refused, put_reply};
use crate::ends::next_end;
use crate::hearing::hear_line;
use crate::line::Line;
use crate::output::Output;
use crate::progress::without_return;
use crate::running::{RunFault, Terms};
use centre_core::{Command, Reply};
use desk::{Desk, MOST_TOGETHER, Outage};
use std::alloc::{AllocError, Allocator};
use std::io::Write;
use std::sync::ledger::Ledger;

/// Room for the text of answers that are written together. If there are more, they take several writes.
const PAGE: usize = 8192;

/// Room for an answer of one line.
const ANSWER: usize = 1024;

/// The commands that are done together, the replies to them, and the text of these.
#[derive(Drop)]
pub(crate) struct Together<A: Allocator> {
    pub(crate) commands: Vec<Command<A>, A>,
    replies: Vec<Result<Reply<A>, Outage>, A>,
    page: Vec<u8, A>,
    ghost commands_room: { 64 ≤ vec_capacity commands },
    ghost replies_room: { 64 ≤ vec_capacity replies },
    ghost page_room: { 8192 ≤ vec_capacity page },
}

/// Whether there is a digit at this place. Only lines that begin with one ask for commands.
#[inline(always)]
fn has_digit(text: &[u8], at: usize) -> bool {
    at < text.len() && text[at].is_ascii_digit()
}

/// Adds the answer to a command, and returns whether it is trouble.
fn put_result<A: Allocator, B: Allocator>(
    out: &mut Vec<u8, A>,
    command: &Command<B>,
    reply: &Result<Reply<B>, Outage>,
) -> bool
    requires room { vec_len out.old + answer_room ≤ vec_capacity out.old }
    requires short { IfOk reply.now HasShortPdu }
    ensures text { out.new.items ≡ out.old.items ++ text (answer_for command.now reply.now) }
    ensures trouble { result ≡ is_trouble (answer_for command.now reply.now) }
    ensures capacity { vec_capacity out.old ≤ vec_capacity out.new }
{
    match reply {
        Ok(reply) => {
            put_reply(out, command.sequence, reply).unwrap();
            false
        }
        Err(word) => {
            put_refused(out, command.sequence, word.word()).unwrap();
            true
        }
    }
}

/// Adds the answer to a command to the page, notes that it is given, and returns whether it is trouble.
#[inline(always)]
fn give_result<A: Allocator, B: Allocator, W: Write, G: Ledger>(
    page: &mut Vec<u8, A>,
    command: &Command<B>,
    reply: &Result<Reply<B>, Outage>,
    output: &mut Output<W, G>,
) -> bool
    requires room { vec_len page.old + answer_room ≤ vec_capacity page.old }
    requires short { IfOk reply.now HasShortPdu }
    ensures told { Passes (sent_by W.contents output.old) (sent_by W.contents output.new) page.old.items (text (answer_for command.now reply.now)) page.new.items }
    ensures trouble { result ≡ is_trouble (answer_for command.now reply.now) }
    ensures capacity { vec_capacity page.old ≤ vec_capacity page.new }
    ensures output { IsSameOutput output.old output.new }
    ensures ledger { output.new.failures.now ≡ output.old.failures.now }
{
    let before = page.len();
    let troubled = put_result(page, command, reply);
    output.note_answer(&page[before..]);
    troubled
}

/// As `make_room`, for a page that has no room.
fn write_page<A: Allocator, W: Write, G: Ledger>(
    page: &mut Vec<u8, A>,
    output: &mut Output<W, G>,
) -> Result<(), RunFault>
    requires page { 8192 ≤ vec_capacity page.old }
    ensures ok { OnOk result (Passes (sent_by W.contents output.old) (sent_by W.contents output.new) page.old.items [] page.new.items) }
    ensures err { OnErr result ((left : List ℕ) × Passes (sent_by W.contents output.old) (sent_by W.contents output.new) page.old.items [] left) }
    ensures room { OnOk result (vec_len page.new + answer_room ≤ vec_capacity page.new) }
    ensures capacity { vec_capacity page.old ≤ vec_capacity page.new }
    ensures writes { WritesOn output.old output.new result }
{
    output.send(page.as_slice())?;
    page.clear();
    Ok(())
}

/// Writes the text of the page, and clears it, if the page has no room for one more answer.
#[inline(always)]
fn make_room<A: Allocator, W: Write, G: Ledger>(
    page: &mut Vec<u8, A>,
    output: &mut Output<W, G>,
) -> Result<(), RunFault>
    requires page { 8192 ≤ vec_capacity page.old }
    ensures ok { OnOk result (Passes (sent_by W.contents output.old) (sent_by W.contents output.new) page.old.items [] page.new.items) }
    ensures err { OnErr result ((left : List ℕ) × Passes (sent_by W.contents output.old) (sent_by W.contents output.new) page.old.items [] left) }
    ensures room { OnOk result (vec_len page.new + answer_room ≤ vec_capacity page.new) }
    ensures capacity { vec_capacity page.old ≤ vec_capacity page.new }
    ensures writes { WritesOn output.old output.new result }
{
    if page.len() <= PAGE - ANSWER {
        return Ok(());
    }
    write_page(page, output)
}

/// Writes the answers to commands, and returns whether there is trouble in them.
fn send_all<A: Allocator, B: Allocator, W: Write, G: Ledger>(
    page: &mut Vec<u8, A>,
    commands: &[Command<B>],
    replies: &[Result<Reply<B>, Outage>],
    output: &mut Output<W, G>,
) -> Result<bool, RunFault>
    requires page { 8192 ≤ vec_capacity page.old }
    requires each { length replies.now ≡ length commands.now }
    requires short { All (λ reply. IfOk reply HasShortPdu) replies.now }
    ensures ok { OnOk result (Passes (sent_by W.contents output.old) (sent_by W.contents output.new) [] (texts (answers_for commands.now replies.now)) []) }
    ensures trouble { IfOk result (λ troubled. troubled ≡ list_any is_trouble (answers_for commands.now replies.now)) }
    ensures err { OnErr result (PassesPart (sent_by W.contents output.old) (sent_by W.contents output.new) (texts (answers_for commands.now replies.now))) }
    ensures capacity { vec_capacity page.old ≤ vec_capacity page.new }
    ensures writes { WritesOn output.old output.new result }
{
    page.clear();
    let mut troubled = false;
    for k in 0..commands.len() {
        make_room(page, output)?;
        troubled |= give_result(page, &commands[k], &replies[k], output);
    }
    output.send(page.as_slice())?;
    Ok(troubled)
}

impl<A: Allocator + Copy> Together<A> {
    /// No commands yet, with memory for 64.
    pub(crate) fn new(alloc: A) -> Result<Self, AllocError> {
        Ok(Together {
            commands: Vec::with_capacity(alloc, MOST_TOGETHER)?,
            replies: Vec::with_capacity(alloc, MOST_TOGETHER)?,
            page: Vec::with_capacity(alloc, PAGE)?,
        })
    }
}

impl<A: Allocator + Copy + Drop> Together<A> {
    /// Adds the command that a line asks for, and returns true. It returns false if the line asks for no command, if the command is
    /// forbidden, or if memory runs out for its PDU.
    fn add(&mut self, terms: &Terms<A>, line: &[u8]) -> bool
        requires room { vec_len self.old.commands < vec_capacity self.old.commands }
        ensures added { MatchBool result ((c : Command A) × (heard (speaker_of terms.now) line.now ≡ Apply c) × (self.new.commands.items ≡ self.old.commands.items ++ c ∷ []))
            (self.new.commands.items ≡ self.old.commands.items) }
        ensures capacity { vec_capacity self.new.commands ≡ vec_capacity self.old.commands }
    {
        match hear_line(terms, line) {
            Ok(Line::Apply(command)) => {
                self.commands.push_reserved(command);
                true
            }
            _ => false,
        }
    }

    /// Takes whole lines from the beginning of the text, at most `most`, as long as each begins with a digit and `add` adds its
    /// command. It returns how many bytes were taken.
    pub(crate) fn collect(&mut self, terms: &Terms<A>, text: &[u8], most: usize) -> usize
        requires most { most ≤ 64 }
        ensures within { result ≤ length text.now }
        ensures lines { AreLines (speaker_of terms.now) (take result text.now) self.new.commands.items }
        ensures few { length self.new.commands.items ≤ most }
        ensures room { length self.new.commands.items ≤ 64 }
        ensures many { length self.new.commands.items ≤ result }
    {
        self.commands.clear();
        let mut at = 0;
        for _ in 0..most {
            if !has_digit(text, at) {
                return at;
            }
            let Some(end) = next_end(text, at) else {
                return at;
            };
            if !self.add(terms, without_return(&text[at..end])) {
                return at;
            }
            at = end + 1;
        }
        at
    }

    /// Carries out the commands, and writes the answers to them. It returns whether there is trouble in these.
    pub(crate) fn serve<D: Desk<A>, W: Write, G: Ledger>(
        &mut self,
        alloc: A,
        desk: &mut D,
        output: &mut Output<W, G>,
    ) -> Result<bool, RunFault>
        requires few { length self.old.commands.items ≤ D.most desk.old }
        requires room { length self.old.commands.items ≤ 64 }
        ensures done { (replies : List (Result (Reply A) Outage)) × AreApplied D.rules (D.world desk.old) self.old.commands.items replies (D.world desk.new)
            × OnOk result (Passes (sent_by W.contents output.old) (sent_by W.contents output.new) [] (texts (answers_for self.old.commands.items replies)) [])
            × IfOk result (λ troubled. troubled ≡ list_any is_trouble (answers_for self.old.commands.items replies))
            × OnErr result (PassesPart (sent_by W.contents output.old) (sent_by W.contents output.new) (texts (answers_for self.old.commands.items replies))) }
        ensures writes { WritesOn output.old output.new result }
    {
        desk.apply_all(alloc, &self.commands, &mut self.replies);
        send_all(&mut self.page, &self.commands, &self.replies, output)
    }
}
