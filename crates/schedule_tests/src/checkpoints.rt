//! Rounds beside a checkpoint.

use crate::commands::Made;
use crate::steps::{Step, goes};
use schedule::World;
use std::alloc::Global;
use std::test::Fail;

/// A checkpoint is under way when a commit begins, and after the round too.
const UNDER_WAY: [Step; 11] = [
    (Made::CheckpointBegin, true, (0, 0, 0)),
    (Made::CheckpointBegin, false, (0, 0, 0)),
    (Made::Submit(1, 1), true, (0, 0, 0)),
    (Made::Publish, true, (0, 0, 0)),
    (Made::Seal(1), true, (0, 0, 0)),
    (Made::CommitBegin, true, (1, 0, 0)),
    (Made::CommitEnd, true, (1, 1, 0)),
    (Made::CheckpointBegin, false, (1, 1, 0)),
    (Made::Publish, true, (1, 1, 1)),
    (Made::Answer(1), true, (1, 1, 1)),
    (Made::CheckpointEnd, true, (1, 1, 1)),
];

/// A checkpoint begins after a commit's end, and ends after the end of the next commit.
const WITH_COMMITS: [Step; 17] = [
    (Made::Submit(1, 1), true, (0, 0, 0)),
    (Made::Submit(1, 2), true, (0, 0, 0)),
    (Made::Seal(1), true, (0, 0, 0)),
    (Made::CommitBegin, true, (1, 0, 0)),
    (Made::CheckpointBegin, false, (1, 0, 0)),
    (Made::CommitEnd, true, (1, 1, 0)),
    (Made::CheckpointBegin, true, (1, 1, 0)),
    (Made::Publish, true, (1, 1, 1)),
    (Made::Answer(1), true, (1, 1, 1)),
    (Made::Publish, true, (1, 1, 1)),
    (Made::Seal(1), true, (1, 1, 1)),
    (Made::CommitBegin, true, (2, 1, 1)),
    (Made::CommitEnd, true, (2, 2, 1)),
    (Made::CheckpointEnd, true, (2, 2, 1)),
    (Made::CheckpointEnd, false, (2, 2, 1)),
    (Made::Publish, true, (2, 2, 2)),
    (Made::Answer(1), true, (2, 2, 2)),
];

/// Before a commit, with its commands in the batch, a checkpoint is given up and another one made.
const BEFORE_A_COMMIT: [Step; 10] = [
    (Made::CheckpointBegin, true, (0, 0, 0)),
    (Made::Submit(1, 1), true, (0, 0, 0)),
    (Made::Seal(1), true, (0, 0, 0)),
    (Made::CheckpointEnd, true, (0, 0, 0)),
    (Made::CheckpointBegin, true, (0, 0, 0)),
    (Made::CheckpointEnd, true, (0, 0, 0)),
    (Made::CommitBegin, true, (1, 0, 0)),
    (Made::CommitEnd, true, (1, 1, 0)),
    (Made::Publish, true, (1, 1, 1)),
    (Made::Answer(1), true, (1, 1, 1)),
];

/// A crash stops a commit beside a checkpoint, and another crash a checkpoint. No checkpoint is under way after them.
const STOPPED: [Step; 16] = [
    (Made::Submit(1, 1), true, (0, 0, 0)),
    (Made::CheckpointBegin, true, (0, 0, 0)),
    (Made::Seal(1), true, (0, 0, 0)),
    (Made::CommitBegin, true, (1, 0, 0)),
    (Made::Crash(0), true, (0, 0, 0)),
    (Made::CheckpointEnd, false, (0, 0, 0)),
    (Made::CheckpointBegin, false, (0, 0, 0)),
    (Made::Reopen, true, (0, 0, 0)),
    (Made::Submit(1, 1), true, (0, 0, 0)),
    (Made::Seal(1), true, (0, 0, 0)),
    (Made::CheckpointBegin, true, (0, 0, 0)),
    (Made::Crash(1), false, (0, 0, 0)),
    (Made::Crash(0), true, (0, 0, 0)),
    (Made::Answer(1), false, (0, 0, 0)),
    (Made::Reopen, true, (0, 0, 0)),
    (Made::CheckpointEnd, false, (0, 0, 0)),
];

/// Whether the row goes as stated from the start, with one session.
fn goes_alone(alloc: Global, row: &[Step]) -> Result<bool, Fail> {
    let mut world = World::new(alloc, 1)?;
    let went = goes(&mut world, row);
    drop(world);
    went
}

#[test]
fn a_commit_begins_beside_a_checkpoint(rt: HostRuntime) -> Result<(), Fail> {
    assert!(rt; goes_alone(rt.alloc(), &UNDER_WAY)?);
    Ok(())
}

#[test]
fn a_checkpoint_begins_and_ends_after_a_commit(rt: HostRuntime) -> Result<(), Fail> {
    assert!(rt; goes_alone(rt.alloc(), &WITH_COMMITS)?);
    Ok(())
}

#[test]
fn a_checkpoint_is_given_up_before_a_commit(rt: HostRuntime) -> Result<(), Fail> {
    assert!(rt; goes_alone(rt.alloc(), &BEFORE_A_COMMIT)?);
    Ok(())
}

#[test]
fn a_crash_ends_a_checkpoint(rt: HostRuntime) -> Result<(), Fail> {
    assert!(rt; goes_alone(rt.alloc(), &STOPPED)?);
    Ok(())
}
