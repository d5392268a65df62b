//! What the publisher does with the writer of the two copies.
ghost use Rattle.std.specs.Prelude.{◌≡◌, ◌++◌, [], drop, IsTrue};
ghost use Rattle.std.specs.VecDeque.{deque_capacity};
ghost use Rattle.snapshots.specs.Views.{IsSnapshot};
ghost use Rattle.snapshots.specs.Publishing.{IsNextSnapshot, HasPublished};

use crate::log::Centre;
use crate::rule::{Sees, SnapshotWriter};
use crate::snapshot::Change;
use core::mem::replace_with;
use std::alloc::AllocError;
use std::collections::VecDeque;
use std::sync::Wait;

// Hands the pending changes to the writer, the oldest first. False if memory ran out; then the rest stays pending.
pub fn hand_over<J: Centre>(writer: &mut SnapshotWriter<J>, pending: &mut VecDeque<Change>) -> bool
    ensures desk { writer.new.desk ≡ writer.old.desk }
    ensures same { drop writer.new.behind writer.new.log.items ++ pending.new.items ≡ drop writer.old.behind writer.old.log.items ++ pending.old.items }
    ensures done { IsTrue result → pending.new.items ≡ [] }
    ensures capacity { deque_capacity pending.new ≡ deque_capacity pending.old }
{
    while let Some(change) = pending.pop_front() {
        if let Err(change) = writer.append(change) {
            pending.push_front_reserved(change);
            return false;
        }
    }
    true
}

// Publishes what the writer has. That must be a snapshot too, of a list that begins with the published one.
fn publish_writer<J: Centre, R: Wait>(
    rt: &R,
    writer: SnapshotWriter<J>,
) -> (SnapshotWriter<J>, Result<(), AllocError>)
    requires now { IsSnapshot J.base J.book writer.desk.shown.value }
    requires next { IsNextSnapshot J.base J.book writer.desk.shown.value (drop writer.behind writer.log.items) }
    ensures { HasPublished writer.desk.shown.value (drop writer.behind writer.log.items)
        result.0.desk.shown.value (drop result.0.behind result.0.log.items) result.1 }
{
    writer.publish_as::<Sees<J>, R>(rt)
}

// Publishes what the writer has, as `publish_writer` does, but in place.
pub fn publish_now<J: Centre, R: Wait>(
    rt: &R,
    writer: &mut SnapshotWriter<J>,
) -> Result<(), AllocError>
    requires now { IsSnapshot J.base J.book writer.old.desk.shown.value }
    requires next { IsNextSnapshot J.base J.book writer.old.desk.shown.value (drop writer.old.behind writer.old.log.items) }
    ensures { HasPublished writer.old.desk.shown.value (drop writer.old.behind writer.old.log.items)
        writer.new.desk.shown.value (drop writer.new.behind writer.new.log.items) result }
{
    replace_with(writer, rt, |writer, rt| publish_writer(rt, writer))
}
