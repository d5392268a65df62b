//! Rounds, until each session has ended.
ghost use Rattle.std.specs.Prelude.{◌≤◌, ◌↔◌, All, IsTrue};
ghost use Rattle.flusher.specs.View.{view_of_flusher};
ghost use Rattle.flusher.specs.Served.{IsSettled};
ghost use Rattle.flusher.specs.Stored.{IsStoredFor};
ghost use Rattle.flusher.specs.OnDisk.{AreRoundsStored, BreaksByDisk};
ghost use Rattle.flusher.specs.Runs.{AreRounds, HasSameEnds, HasStopped, HasTakenEnds};

use crate::flusher::{Flusher, Gate};
use sector_disk::Disk;
use snapshots::Centre;
use std::sync::Wait;

impl<J: Centre, D: Disk> Flusher<J, D> {
    /// Whether the end of each session was taken.
    pub fn has_ended(&self) -> bool
        ensures { IsTrue result ↔ All IsTrue (view_of_flusher self.now).ended }
    {
        self.ended.iter().all(|flag| *flag)
    }

    /// Does rounds until it has taken the end of each session.
    pub fn run<R: Wait, T: Gate>(&mut self, rt: &R, gate: &T)
        requires settled { IsSettled J.base (view_of_flusher self.old) }
        ensures settled { IsSettled J.base (view_of_flusher self.new) }
        ensures rounds { AreRounds D.view J.base (view_of_flusher self.old) (view_of_flusher self.new) }

        // After the run each image of the disk opens to what is durable, or once the disk has failed perhaps to more. If the store
        // was sound before, a stop at any moment of the run leaves a list between what was durable before and after the run, or once
        // the disk has failed perhaps more. After a stop once a round has ended the disk opens to no less than was durable at the end
        // of that round. What bears out an answer was durable before the answer was sent. Only a failure of the disk breaks the store.
        ensures stored { IsStoredFor D.view J.base (view_of_flusher self.old) → AreRoundsStored D.view J.base (view_of_flusher self.old) (view_of_flusher self.new) }
        ensures breaks { BreaksByDisk D.view (view_of_flusher self.old).store (view_of_flusher self.new).store }

        // The run ends as soon as the end of each session was taken. The flusher has the queue and the channels that it had.
        ensures ended { HasTakenEnds (view_of_flusher self.new) }
        ensures at_once { HasStopped D.view J.base (view_of_flusher self.old) (view_of_flusher self.new) }
        ensures same { HasSameEnds (view_of_flusher self.old) (view_of_flusher self.new) }
        ensures counted { self.old.rounds ≤ self.new.rounds }
    {
        for _ in rt.forever() {
            if self.has_ended() {
                return;
            }
            self.round(rt, gate);
        }
        unreachable!()
    }
}
