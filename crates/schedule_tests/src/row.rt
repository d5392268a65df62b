//! The worked row: a rule and an `expire` of two stations, a commit that a crash stops, and a resend after it.

use crate::commands::Made;
use crate::steps::{Step, goes};
use centre_core::Reply;
use registration::Station;
use schedule::World;
use std::alloc::Global;
use std::test::Fail;

const ROW: [Step; 22] = [
    (Made::SubmitRule(1, 1), true, (0, 0, 0)),
    (Made::Submit(2, 1), true, (0, 0, 0)),
    (Made::CommitBegin, false, (0, 0, 0)),
    (Made::Seal(1), true, (0, 0, 0)),
    (Made::Seal(2), true, (0, 0, 0)),
    (Made::CommitBegin, true, (2, 0, 0)),
    (Made::Publish, false, (2, 0, 0)),
    (Made::Read(1), true, (2, 0, 0)),
    (Made::Crash(2), false, (2, 0, 0)),
    (Made::Crash(1), true, (2, 0, 0)),
    (Made::Crash(0), false, (2, 0, 0)),
    (Made::Reopen, true, (2, 2, 2)),
    (Made::SubmitRule(1, 1), true, (2, 2, 2)),
    (Made::Seal(1), true, (2, 2, 2)),
    (Made::CommitBegin, true, (2, 2, 2)),
    (Made::CommitEnd, true, (2, 2, 2)),
    (Made::Publish, true, (2, 2, 2)),
    (Made::Answer(2), false, (2, 2, 2)),
    (Made::Answer(1), true, (2, 2, 2)),
    (Made::Answer(1), false, (2, 2, 2)),
    (Made::Read(3), false, (2, 2, 2)),
    (Made::Read(0), false, (2, 2, 2)),
];

fn is_kept_first(answer: Option<&Reply<Global>>) -> bool {
    matches!(answer, Some(Reply::Kept { number: 1, .. }))
}

fn row_goes(alloc: Global) -> Result<bool, Fail> {
    let mut world = World::new(alloc, 2)?;
    let went = goes(&mut world, &ROW);
    let kept = is_kept_first(world.last_answer(Station::new(1)))
        && world.last_answer(Station::new(2)).is_none();
    drop(world);
    Ok(went? && kept)
}

#[test]
fn worked_row(rt: HostRuntime) -> Result<(), Fail> {
    assert!(rt; row_goes(rt.alloc())?);
    Ok(())
}
