//! Rows of events.

use crate::commands::{Made, event};
use schedule::World;
use std::alloc::Global;
use std::test::Fail;

/// An event, whether it comes, and how many commands are accepted, durable and published after it.
pub type Step = (Made, bool, (u64, u64, u64));

fn comes(world: &mut World<Global>, made: Made) -> Result<bool, Fail> {
    Ok(world.step(&event(made)?).is_ok())
}

fn numbers(world: &World<Global>) -> (u64, u64, u64) {
    (world.accepted(), world.durable(), world.published())
}

/// Whether the row goes as stated in this world.
pub fn goes(world: &mut World<Global>, row: &[Step]) -> Result<bool, Fail> {
    for (made, now, after) in row {
        if comes(world, *made)? != *now || numbers(world) != *after {
            return Ok(false);
        }
    }
    Ok(true)
}
