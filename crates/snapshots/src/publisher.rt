//! The one writer of the two copies.
ghost use Rattle.std.specs.Prelude.{◌≡◌, ◌↔◌, ◌∷◌, ◌++◌, [], IsTrue, MatchResult};
ghost use Rattle.std.specs.Arc.{arc_value};
ghost use Rattle.centre_core.specs.History.{accepts, after};
ghost use Rattle.centre_core.specs.Histories.{IsHistory};
ghost use Rattle.snapshots.specs.Counts.{IsCountedIfRefused};

use crate::appending::added_to_log;
use crate::counting::next_count;
use crate::log::{Centre, LogPrefix, LogWord};
use crate::published::Published;
use crate::publishing::{hand_over, publish_now};
use crate::rule::SnapshotWriter;
use crate::snapshot::Change;
use centre_core::Command;
use std::alloc::{AllocError, Global};
use std::collections::VecDeque;
use std::marker::{Model, PhantomData};
use std::sync::{Arc, Wait};

/// Contracts model the list that is published, the list of all that was appended, and how many calls of `append` and
/// `publish` were out of memory. After the greatest number that count goes on from 0. It is not `Drop`: end it by `close`.
pub struct Publisher<J: Centre> {
    pub(crate) writer: SnapshotWriter<J>,
    pub(crate) word: LogWord,
    pub(crate) appended: LogPrefix,
    pub(crate) pending: VecDeque<Change>,
    pub(crate) base: u64,
    pub(crate) count: u64,
    // How many calls were out of memory.
    pub(crate) refusals: u64,
}

impl<J: Centre> Model for Publisher<J> {
    ghost use Rattle.std.specs.Prelude.{◌≡◌, ◌≤◌, ◌++◌, length, drop};
    ghost use Rattle.std.specs.VecDeque.{deque_capacity};
    ghost use mathlib.Core.List.{IsPrefix};
    ghost use Rattle.centre_core.specs.History.{after};
    ghost use Rattle.centre_core.specs.Histories.{IsHistory};
    ghost use Rattle.snapshots.specs.Log.{word_of};
    ghost use Rattle.snapshots.specs.Views.{IsSnapshot};
    ghost use Rattle.snapshots.specs.Changes.{PublisherView, publisher_view};
    ghost use Rattle.snapshots.specs.Publishing.{after_changes};

    ghost Value = { PublisherView };

    ghost view = { λ p. publisher_view p.writer.desk.shown.value.list.log p.appended.log p.refusals };

    ghost invariant = { λ p. (p.word ≡ word_of J.book) × (p.appended.book ≡ J.book) × (p.base ≡ J.base.count) × (p.count ≡ length p.appended.log)
        × IsHistory J.base p.appended.log × IsSnapshot J.base J.book p.writer.desk.shown.value × IsPrefix p.writer.desk.shown.value.list.log p.appended.log
        × (after_changes p.writer.desk.shown.value (drop p.writer.behind p.writer.log.items ++ p.pending.items) ≡ (after J.base p.appended.log, p.appended))
        × (64 ≤ deque_capacity p.pending) };
}

impl<J: Centre> Publisher<J> {
    /// Appends a command that is accepted after all that was appended. Out of memory is counted, and gives the command back.
    /// While fewer than 64 commands are pending, it needs no memory.
    pub fn append(
        &mut self,
        command: Arc<Command<Global>, Global>,
    ) -> Result<(), Arc<Command<Global>, Global>>
        requires next { IsTrue (accepts (after J.base self.old.appended) (arc_value command)) }
        ensures legal { IsHistory J.base self.new.appended }
        ensures appended { MatchResult result
            (λ _. (self.new.appended ≡ self.old.appended ++ arc_value command ∷ []) × (self.new.published ≡ self.old.published))
            (λ c. (c ≡ command) × (self.new.appended ≡ self.old.appended) × (self.new.published ≡ self.old.published)) }
        ensures counted { IsCountedIfRefused result self.old.refusals self.new.refusals }
    {
        if self.pending.reserve(1).is_err() {
            self.refusals = next_count(self.refusals);
            return Err(command);
        }
        let mut list = self.appended.again();
        if !added_to_log(&self.word, &mut list, self.count, &command) {
            self.refusals = next_count(self.refusals);
            return Err(command);
        }
        self.appended = list.again();
        self.count += 1;
        self.pending.push_back_reserved(Change { command, list });
        Ok(())
    }

    /// Publishes all that was appended, at once. It waits for the viewers that still read the older copy. Out of memory is
    /// counted; then what is published stays, and what is pending stays pending.
    pub fn publish<R: Wait>(&mut self, rt: &R) -> Result<(), AllocError>
        ensures appended { self.new.appended ≡ self.old.appended }
        ensures published { MatchResult result (λ _. self.new.published ≡ self.old.appended) (λ _. self.new.published ≡ self.old.published) }
        ensures counted { IsCountedIfRefused result self.old.refusals self.new.refusals }
    {
        if !hand_over(&mut self.writer, &mut self.pending) {
            self.refusals = next_count(self.refusals);
            return Err(AllocError);
        }
        match publish_now(rt, &mut self.writer) {
            Ok(()) => Ok(()),
            Err(fault) => {
                self.refusals = next_count(self.refusals);
                Err(fault)
            }
        }
    }

    /// Whether all that was appended is published.
    pub fn is_caught_up(&self) -> bool
        ensures { IsTrue result ↔ (self.now.published ≡ self.now.appended) }
    {
        self.writer.published().register.count() - self.base == self.count
    }

    /// What is published.
    pub fn published(&self) -> Published<J>
        ensures { result ≡ self.now.published }
    {
        let shown = self.writer.published();
        Published {
            count: shown.register.count() - self.base,
            list: shown.list.again(),
            of: PhantomData,
        }
    }

    /// Ends it, once no viewer reads any more. What is pending is dropped.
    pub fn close<R: Wait>(self, rt: &R) {
        let Publisher {
            writer,
            word: _,
            appended: _,
            pending: _,
            base: _,
            count: _,
            refusals: _,
        } = self;
        drop(writer.take(rt));
    }
}
