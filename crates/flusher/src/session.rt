//! A station's session with a centre.
ghost use Rattle.std.specs.Prelude.{◌≡◌, ◌≤◌, true, false, length};
ghost use Rattle.answers.specs.Views.{received_of};
ghost use Rattle.flusher.specs.Submitted.{are_submitted, is_ended};

use crate::answer::Answer;
use crate::hearing::{hear, hear_all, refuse_all};
use crate::listening::Listening;
use crate::putting::{put_all, request_for};
use crate::response::Response;
use answers::AnswerReceiver;
use centre_core::{Command, Query, QueryAnswer};
use listings::Listing;
use registration::Station;
use snapshots::{Centre, Published, ReadFault, Viewer};
use station_queue::{Entry, Sender};
use std::alloc::{Allocator, Global};
use std::sync::Wait;

/// A station's session with a centre: it submits commands of that station, and reads the register. End it by `finish`.
#[derive(Drop)]
pub struct Session<J: Centre> {
    pub(crate) sender: Sender,
    pub(crate) receiver: AnswerReceiver<Response<J>>,
    pub(crate) viewer: Viewer<J>,
    pub(crate) listening: Listening<J>,
    /// How many commands it may have under way at a time.
    pub(crate) share: usize,
    pub(crate) alloc: Global,
    pub ghost submitted: { are_submitted sender.sent ≡ true },
    pub ghost few: { (1 ≤ share) × (share ≤ 64) },
    // As many answers were received as commands were put into the queue, unless the flusher was found gone.
    pub ghost answered: { listening ≡ false → length sender.sent ≡ length (received_of receiver.pass) },
}

/// A session that has ended. `close` takes it back.
#[derive(Drop)]
pub struct Ended<J: Centre> {
    pub(crate) sender: Sender,
    pub(crate) receiver: AnswerReceiver<Response<J>>,
    pub(crate) viewer: Viewer<J>,
    pub ghost ended: { is_ended sender.sent ≡ true },
}

impl<J: Centre> Session<J> {
    ghost use Rattle.std.specs.Prelude.{◌≡◌, ◌≤◌, ◌⊎◌, ◌∷◌, ◌++◌, [], All, IfOk, IsErrOf, OnErr, OnOk, length, vec_capacity, vec_len};
    ghost use mathlib.Core.List.{IsPrefix};
    ghost use Rattle.centre_core.specs.History.{after};
    ghost use Rattle.centre_core.specs.Histories.{IsHistory};
    ghost use Rattle.centre_core.specs.Queries.{AsksForList, answer_to};
    ghost use Rattle.listings.specs.Texts.{LacksRoom, listing_text};
    ghost use Rattle.snapshots.specs.declared.viewer.ReadFault.TheVariants.{Closed, NoMemory};
    ghost use Rattle.station_queue.specs.Ends.{sending};
    ghost use Rattle.station_queue.specs.declared.entry.Entry.TheVariants as entry;
    ghost use Rattle.flusher.specs.Closed.{HasFinished};
    ghost use Rattle.flusher.specs.Heard.{ArePutFirst};
    ghost use Rattle.flusher.specs.Submitted.{AreSubmissions, HasShortAnswer, IsSubmission, IsUnanswered};
    ghost use Rattle.flusher.specs.Sessions.{SessionHasOnlyRead, IsSameSession, view_of_session};

    /// Its station.
    pub fn station(&self) -> Station
        ensures { result ≡ self.now.sender.station }
    {
        self.sender.station()
    }

    /// How many commands it may submit together. The shares of all sessions of a centre fit into its queue.
    pub fn share(&self) -> usize
        ensures share { result ≡ self.now.share }
        ensures some { 1 ≤ result }
        ensures few { result ≤ 64 }
    {
        self.share
    }

    /// Submits a command of its station, and waits for the answer. It returns `NoMemory` also if memory runs out before the
    /// command is put into the queue. It returns `Closed` only if the flusher was found gone, or if what was received does not
    /// fit: it is for another command, lacks commands that the session has seen, or accepts under a number that was seen. Once
    /// the flusher is gone the call may wait for ever, if all the session's places in the queue are taken.
    pub fn submit<R: Wait>(&mut self, rt: &R, command: Command<Global>) -> Answer<J>
        requires station { command.station ≡ self.old.sender.station }

        // What is put into the queue, what is received, and what the answer says. What was seen stays seen.
        ensures submitted { IsSubmission J.base command (view_of_session self.old) (view_of_session self.new) result }
        ensures seen { IsPrefix self.old.viewer self.new.viewer }

        // A PDU in the answer has at most 2,048 bits.
        ensures short { HasShortAnswer result }

        // If it was put into the queue and no answer was received, the flusher was found gone.
        ensures gone { IsUnanswered (view_of_session self.old) (view_of_session self.new) result → self.new.listening ≡ true }

        // It stays the session of its station, with its share.
        ensures same { IsSameSession self.old self.new }
    {
        let Some((request, own)) = request_for(self.alloc, command) else {
            return Answer::NoMemory;
        };
        self.sender.send(rt, Entry::Submitted(request));
        let mut reached = self.viewer.count();
        hear(
            rt,
            &mut self.receiver,
            &mut self.listening,
            &mut self.viewer,
            &mut reached,
            &own,
        )
    }

    /// Submits commands of its station, at most its share, and then waits for the answer to each, in order. So one commit can take
    /// them all. Each is answered as by [`Session::submit`]. Once memory has run out for one, that one and all after it are
    /// answered `NoMemory`, and not put into the queue. `answers` then has these answers alone, in the memory that it had.
    pub fn submit_all<R: Wait>(
        &mut self,
        rt: &R,
        commands: &[Command<Global>],
        answers: &mut Vec<Answer<J>>,
    )
        requires station { All (λ c. c.station ≡ self.old.sender.station) commands.now }
        requires few { length commands.now ≤ self.old.share }
        requires room { length commands.now ≤ vec_capacity answers.old }

        // Each is answered as if it were submitted after the answer to the one before it. A prefix of them is put into the queue, and the
        // others are answered as out of memory.
        ensures submitted { AreSubmissions J.base commands.now (view_of_session self.old) (view_of_session self.new) answers.new.items }
        ensures put { ArePutFirst commands.now self.old.sender.sent self.new.sender.sent answers.new.items }
        ensures seen { IsPrefix self.old.viewer self.new.viewer }
        ensures short { All HasShortAnswer answers.new.items }
        ensures room { vec_capacity answers.new ≡ vec_capacity answers.old }

        // It stays the session of its station, with its share.
        ensures same { IsSameSession self.old self.new }
    {
        answers.clear();
        let put = put_all(rt, self.alloc, &mut self.sender, commands);
        hear_all(
            rt,
            &mut self.receiver,
            &mut self.listening,
            &mut self.viewer,
            &commands[..put],
            answers,
        );
        refuse_all(answers, commands.len() - put);
    }

    /// The answer to a query after a list of commands, and the length of this list. The answer's memory comes from `alloc`. Each
    /// of the commands was accepted in its turn, and the list begins with all that the session has seen. The call never waits.
    /// `NoMemory` comes only where the answer is a list; the session may then have seen more. After `Closed` it has seen no more
    /// than before.
    pub fn read<C: Allocator + Copy>(
        &mut self,
        alloc: C,
        query: &Query,
    ) -> Result<(QueryAnswer<C>, u64), ReadFault>
        ensures answer { IfOk result (λ r. (r.0 ≡ answer_to (after J.base self.new.viewer) query.now) × (r.1 ≡ length self.new.viewer)) }
        ensures history { OnOk result (IsHistory J.base self.new.viewer) }
        ensures memory { IsErrOf result NoMemory → AsksForList query.now }
        ensures closed { IsErrOf result Closed → self.new.viewer ≡ self.old.viewer }

        // Nothing is sent or received, and what was seen stays seen.
        ensures reads { SessionHasOnlyRead self.old self.new }
    {
        self.viewer.read(alloc, query)
    }

    /// Adds the text of a listing after a list of commands to `out`. Each of them was accepted in its turn, and the list begins
    /// with all that the session has seen. It never waits. If it fails, `out` is unchanged. `NoMemory` comes only where the
    /// text has no room; the session may then have seen more. After `Closed` it has seen no more than before.
    pub fn list<C: Allocator + Copy>(
        &mut self,
        listing: &Listing,
        out: &mut Vec<u8, C>,
    ) -> Result<(), ReadFault>
        ensures listed { OnOk result (out.new.items ≡ out.old.items ++ listing_text (after J.base self.new.viewer) listing.now) }
        ensures history { OnOk result (IsHistory J.base self.new.viewer) }
        ensures memory { IsErrOf result NoMemory → LacksRoom (vec_len out.old) (vec_capacity out.old) (after J.base self.new.viewer) listing.now }
        ensures closed { IsErrOf result Closed → self.new.viewer ≡ self.old.viewer }
        ensures unlisted { OnErr result (out.new.items ≡ out.old.items) }
        ensures capacity { vec_capacity out.old ≤ vec_capacity out.new }

        // Nothing is sent or received, and what was seen stays seen.
        ensures reads { SessionHasOnlyRead self.old self.new }
    {
        self.viewer.list(listing, out)
    }

    /// From now on what the session reads begins with this published list too. The call never waits.
    pub fn learn(&mut self, published: &Published<J>)
        ensures one { (self.new.viewer ≡ self.old.viewer) ⊎ (self.new.viewer ≡ published.now) }
        ensures learnt { IsPrefix published.now self.new.viewer }

        // Nothing is sent or received, and what was seen stays seen.
        ensures reads { SessionHasOnlyRead self.old self.new }
    {
        self.viewer.learn(published);
    }

    /// Ends the session. Its end is put into the queue, after all that it submitted.
    pub fn finish<R: Wait>(self, rt: &R) -> Ended<J>
        ensures sent { result.sender ≡ sending self.sender.queue self.sender.station (self.sender.sent ++ entry.Ended self.sender.station ∷ []) }
        ensures same { (result.receiver ≡ self.receiver) × (result.viewer ≡ self.viewer) }
        ensures finished { HasFinished self result }
    {
        let Session {
            mut sender,
            receiver,
            viewer,
            listening: _,
            share: _,
            alloc: _,
        } = self;
        let station = sender.station();
        sender.send(rt, Entry::Ended(station));
        Ended {
            sender,
            receiver,
            viewer,
        }
    }
}
