//! The store that commits, and whether its last commit was out of memory.
ghost use Rattle.std.specs.Prelude.{◌≡◌, ◌↔◌, ◌≤◌, ◌<◌, All, IfOk, IsTrue, IsErrOf, MatchBool, None, Some, true, false, length};
ghost use Rattle.centre_core.specs.Ranges.{InRange};
ghost use Rattle.recovery.specs.declared.fault.StoreFault.TheVariants.{NoMemory};
ghost use Rattle.recovery.specs.Figures.{figures_at};
ghost use Rattle.recovery.specs.Lives.{view_of};
ghost use Rattle.recovery.specs.Outcomes.{asked};
ghost use Rattle.snapshots.specs.Counts.{IsNext};
ghost use Rattle.flusher.specs.Attempts.{HasAttempted, none_tried};
ghost use Rattle.flusher.specs.Short.{AreShort};
ghost use Rattle.flusher.specs.Batches.{HasMadeRoom, HasTried};
ghost use Rattle.flusher.specs.Inside.Committing.{KeepsStore};

use crate::moment::Moment;
use centre_core::laws::{in_range, registers};
use centre_core::{Command, Register};
use recovery::{Figures, Outcome, Store, StoreFault};
use sector_disk::Disk;
use snapshots::next_count;
use std::alloc::Global;

/// How many commits were tried, and whether the last one was out of memory. After the greatest number it counts from 0 again.
#[derive(Drop)]
pub struct Attempts {
    count: u64,
    refused: bool,
}

impl Attempts {
    /// No commit was tried yet.
    pub(crate) fn none() -> Attempts
        ensures { result ≡ none_tried }
    {
        Attempts {
            count: 0,
            refused: false,
        }
    }

    /// The attempts after one more commit. `refused`: that one was out of memory.
    pub(crate) fn after(&self, refused: bool) -> Attempts
        ensures counted { IsNext self.now.count result.count }
        ensures exact { result.refused ≡ refused }
    {
        Attempts {
            count: next_count(self.count),
            refused,
        }
    }
}

/// A store that commits, and the count of its attempts.
#[derive(Drop)]
pub struct Committer<D: Disk> {
    pub(crate) store: Store<Global, D>,
    pub(crate) alloc: Global,
    attempts: Attempts,
}

impl<D: Disk> Committer<D> {
    /// A store that has not committed yet.
    pub(crate) fn new(alloc: Global, store: Store<Global, D>) -> Committer<D>
        ensures store { result.store ≡ store }
        ensures untried { result.attempts ≡ none_tried }
    {
        Committer {
            store,
            alloc,
            attempts: Attempts::none(),
        }
    }

    /// Whether the disk has not failed.
    pub(crate) fn is_sound(&self) -> bool
        ensures { MatchBool result (self.now.store.broken ≡ false) (self.now.store.broken ≡ true) }
    {
        self.store.register().is_some()
    }

    /// The figures of the store, or `None` once the disk has failed.
    pub(crate) fn figures(&self) -> Option<Figures>
        ensures broken { self.now.store.broken ≡ true → result ≡ None }
        ensures sound { self.now.store.broken ≡ false → result ≡ Some (figures_at (view_of self.now.store)) }
    {
        self.store.figures()
    }

    /// The moment now, by the disk's clock.
    pub(crate) fn moment(&self) -> Moment
        ensures { result.tick ≡ (D.view self.now.store.disk).moment }
    {
        Moment::of(&self.store)
    }

    /// Calls the store's `commit` once.
    pub(crate) fn commit(
        &mut self,
        commands: &[&Command<Global>],
    ) -> Result<Vec<Outcome<Global>>, StoreFault>
        requires sound { self.old.store.broken ≡ false }
        requires few { length commands.now ≤ 64 }
        requires some { 0 < length commands.now }
        ensures tried { HasTried (asked commands.now) (view_of self.old.store) (view_of self.new.store) result }
        ensures attempted { HasAttempted self.old.attempts result self.new.attempts }
        ensures short { IfOk result (λ outcomes. AreShort outcomes.items) }
        ensures store { KeepsStore D.view (view_of self.old.store) (view_of self.new.store) }
    {
        registers(register_of(&self.store));
        facts_of_ranges(commands);
        let done = self.store.commit(self.alloc, commands);
        self.attempts = self.attempts.after(is_out_of_memory(&done));
        done
    }

    /// Calls the store's `checkpoint` once.
    pub(crate) fn make_room(&mut self) -> Result<(), StoreFault>
        requires sound { self.old.store.broken ≡ false }
        ensures attempts { self.new.attempts ≡ self.old.attempts }
        ensures made { HasMadeRoom (view_of self.old.store) (view_of self.new.store) result }
        ensures store { KeepsStore D.view (view_of self.old.store) (view_of self.new.store) }
    {
        self.store.checkpoint()
    }
}

/// The register of a store that is not broken.
pub fn register_of<D: Disk>(store: &Store<Global, D>) -> &Register<Global>
    requires { store.now.broken ≡ false }
    ensures { result.now ≡ store.now.register }
{
    let Some(register) = store.register() else {
        unreachable!()
    };
    register
}

// Each field of these commands is in its range.
fn facts_of_ranges(commands: &[&Command<Global>])
    ensures { All (λ command. InRange command.now) commands.now }
{
    for command in commands {
        in_range(command);
    }
}

// Whether a commit was out of memory.
fn is_out_of_memory(done: &Result<Vec<Outcome<Global>>, StoreFault>) -> bool
    ensures { IsTrue result ↔ IsErrOf done.now NoMemory }
{
    match done {
        Err(StoreFault::NoMemory) => true,
        _ => false,
    }
}
