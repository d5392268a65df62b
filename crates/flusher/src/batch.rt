//! A batch: how it is taken, and how it is committed.
ghost use Rattle.std.specs.Prelude.{◌≡◌, ◌≤◌, ◌<◌, ◌*◌, ◌++◌, ◌+◌, ◌∷◌, [], false, IfOk, IfSome, IsErrOf, MatchBool, length};
ghost use Rattle.recovery.specs.declared.fault.StoreFault.TheVariants.{Unready};
ghost use Rattle.std.specs.VecDeque.{deque_capacity};
ghost use Rattle.std.specs.List.{flat_map};
ghost use Rattle.command_bytes.specs.Text.{command_text, longest};
ghost use Rattle.station_queue.specs.Entries.{station_of};
ghost use Rattle.recovery.specs.Lives.{view_of};
ghost use Rattle.recovery.specs.Outcomes.{asked};
ghost use Rattle.flusher.specs.Shared.{commands_in, commands_among};
ghost use Rattle.flusher.specs.Short.{AreShort};
ghost use Rattle.flusher.specs.Batches.{AreWithin, ended_by};
ghost use Rattle.flusher.specs.Inside.Committing.{HasCommitted, HasTakenBatch, HasTakenOne, KeepsStore};

use crate::committing::Committer;
use centre_core::Command;
use command_bytes::text_len;
use recovery::{Outcome, StoreFault};
use sector_disk::Disk;
use station_queue::{Entry, Request, SharedCommand, Taker};
use std::alloc::Global;
use std::collections::VecDeque;
use std::sync::Wait;
use std::thread;

/// The most entries that one round takes.
pub(crate) const MOST: usize = 64;

// How often the flusher lets other threads run while it expects a further command, before it commits a round's commands. It expects
// one while a session is about to send another, so that commands submitted together are committed together. It also expects one while
// fewer stations have sent theirs than in the last round with commands, since stations that were just answered may have more at hand.
const TURNS: u32 = 64;

/// The commands of a round, each with its copy, and how many stations sent those of the last round that had any. There is room for 64
/// commands.
#[derive(Drop)]
pub struct BatchBuffers {
    pub(crate) batch: VecDeque<SharedCommand>,
    pub(crate) copies: VecDeque<SharedCommand>,
    pub(crate) stations: usize,
    pub ghost same: { commands_in copies.items ≡ commands_in batch.items },
    pub ghost few: { length batch.items ≤ 64 },
    pub ghost room: { 64 ≤ deque_capacity batch },
    pub ghost also_room: { 64 ≤ deque_capacity copies },
}

// Keeps the command of an entry and its copy, or notes the end of a session.
fn put(entry: Entry, room: &mut BatchBuffers, ended: &mut Vec<bool>)
    requires few { length room.old.batch.items < 64 }
    requires station { (0 < station_of entry) × (station_of entry ≤ length ended.old.items) }
    ensures batch { commands_in room.new.batch.items ≡ commands_in room.old.batch.items ++ commands_among (entry ∷ []) }
    ensures few { length room.new.batch.items ≤ length room.old.batch.items + 1 }
    ensures ended { ended.new.items ≡ ended_by (entry ∷ []) ended.old.items }
{
    match entry {
        Entry::Submitted(request) => {
            let Request {
                command,
                copy,
                more: _,
            } = request;
            room.batch.push_back_reserved(command);
            room.copies.push_back_reserved(copy);
        }
        Entry::Ended(station) => ended[usize::from(station.number()) - 1] = true,
    }
}

// Whether the sender of this entry is about to send another command.
fn has_more(entry: &Entry) -> bool {
    match entry {
        Entry::Submitted(request) => request.more,
        Entry::Ended(_) => false,
    }
}

// How many stations have sent all that they send before they are answered, after one more entry. `done` is how many had before this
// entry. `more`: the entry's sender is about to send another command.
fn done_after(done: usize, more: bool) -> usize {
    if more { done } else { done.saturating_add(1) }
}

// How often the flusher lets other threads run before it stops waiting for the round's next entry. `done` stations have sent all that
// they send before they are answered; in the last round with commands these were `stations`. The flusher waits if the last entry's
// sender is about to send another command (`more`), or if some stations are done, but fewer than in that round.
fn turns_before(more: bool, done: usize, stations: usize) -> u32 {
    if more || (0 < done && done < stations) {
        TURNS
    } else {
        0
    }
}

// Takes the oldest entry. While the queue is empty it lets other threads run, at most `turns` times. `None` if the queue is
// still empty then.
fn take_within<R: Wait>(rt: &R, taker: &mut Taker, turns: u32) -> Option<Entry>
    ensures same { (taker.new.queue ≡ taker.old.queue) × (taker.new.made ≡ taker.old.made) × (taker.new.settled ≡ taker.old.settled) }
    ensures taken { HasTakenOne result taker.old taker.new }
    ensures station { IfSome result (λ x. (0 < station_of x) × (station_of x ≤ taker.old.made)) }
{
    for _ in 0..turns {
        if let Some(entry) = taker.take(rt) {
            return Some(entry);
        }
        thread::yield_now();
    }
    taker.take(rt)
}

impl BatchBuffers {
    ghost use Rattle.std.specs.Prelude.{◌≡◌};

    // Notes how many stations sent the commands of this round, if any did.
    fn note_stations(&mut self, stations: usize)
        ensures batch { self.new.batch ≡ self.old.batch }
        ensures copies { self.new.copies ≡ self.old.copies }
    {
        if stations > 0 {
            self.stations = stations;
        }
    }
}

// Takes entries until there are 64 or the queue is empty, and notes the stations that ended. It returns how many stations have sent
// all that they send before they are answered. If it takes no entry, the contract says only that the queue was found empty, now or earlier.
fn take_entries<R: Wait>(
    rt: &R,
    taker: &mut Taker,
    room: &mut BatchBuffers,
    ended: &mut Vec<bool>,
) -> usize
    requires empty { room.old.batch.items ≡ [] }
    requires flags { taker.old.made ≡ length ended.old.items }
    ensures taken { HasTakenBatch taker.old taker.new ended.old.items ended.new.items (commands_in room.new.batch.items) }
    ensures stations { AreWithin taker.old.made (commands_in room.new.batch.items) }
{
    let mut more = false;
    let mut done = 0;
    for _ in 0..MOST {
        let turns = turns_before(more, done, room.stations);
        let Some(entry) = take_within(rt, taker, turns) else {
            return done;
        };
        more = has_more(&entry);
        done = done_after(done, more);
        put(entry, room, ended);
    }
    done
}

/// Takes entries until there are 64 or the queue is empty. It keeps the commands among them, and notes the stations that ended. If it
/// takes no entry, the contract says only that the queue was found empty, now or earlier.
pub(crate) fn take_batch<R: Wait>(
    rt: &R,
    taker: &mut Taker,
    room: &mut BatchBuffers,
    ended: &mut Vec<bool>,
)
    requires empty { room.old.batch.items ≡ [] }
    requires flags { taker.old.made ≡ length ended.old.items }
    ensures taken { HasTakenBatch taker.old taker.new ended.old.items ended.new.items (commands_in room.new.batch.items) }
    ensures stations { AreWithin taker.old.made (commands_in room.new.batch.items) }
{
    let stations = take_entries(rt, taker, room, ended);
    room.note_stations(stations);
}

// How many bytes the commands take. A record of so few fits after a checkpoint.
fn size_of(commands: &[&Command<Global>]) -> usize
    requires few { length commands.now ≤ 64 }
    ensures size { result ≡ length (flat_map (λ command. command_text command.now) commands.now) }
    ensures most { result ≤ longest * length commands.now }
{
    let mut size = 0;
    for command in commands {
        size += text_len(command);
    }
    size
}

// Whether the commit asks for a checkpoint first.
fn is_unready(done: &Result<Vec<Outcome<Global>>, StoreFault>) -> bool
    ensures { MatchBool result (IsErrOf done.now Unready) (IsErrOf done.now Unready → ⊥) }
{
    match done {
        Err(StoreFault::Unready) => true,
        _ => false,
    }
}

// Commits the commands. If a record of them would not fit, it makes a checkpoint first.
fn commit_with_room<D: Disk>(
    committer: &mut Committer<D>,
    commands: &[&Command<Global>],
) -> Result<Vec<Outcome<Global>>, StoreFault>
    requires sound { committer.old.store.broken ≡ false }
    requires few { length commands.now ≤ 64 }
    requires some { 0 < length commands.now }
    ensures committed { HasCommitted (asked commands.now) committer.old committer.new result }
    ensures short { IfOk result (λ outcomes. AreShort outcomes.items) }
    ensures store { KeepsStore D.view (view_of committer.old.store) (view_of committer.new.store) }
{
    let first = committer.commit(commands);
    if !is_unready(&first) {
        return first;
    }
    let _size = size_of(commands);
    committer.make_room()?;
    committer.commit(commands)
}

/// Commits the commands of a batch.
pub(crate) fn commit_batch<D: Disk>(
    committer: &mut Committer<D>,
    batch: &VecDeque<SharedCommand>,
) -> Result<Vec<Outcome<Global>>, StoreFault>
    requires sound { committer.old.store.broken ≡ false }
    requires few { length batch.now.items ≤ 64 }
    ensures committed { HasCommitted (commands_in batch.now.items) committer.old committer.new result }
    ensures short { IfOk result (λ outcomes. AreShort outcomes.items) }
    ensures store { KeepsStore D.view (view_of committer.old.store) (view_of committer.new.store) }
{
    if batch.is_empty() {
        return Ok(Vec::new(committer.alloc));
    }
    let first: &Command<Global> = &batch[0];
    let mut commands = [first; MOST];
    for k in 0..batch.len() {
        commands[k] = &batch[k];
    }
    commit_with_room(committer, &commands[..batch.len()])
}
