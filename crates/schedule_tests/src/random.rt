//! Random events beside the plain lists.

use crate::commands::{Made, event};
use crate::plain::{Plain, STATIONS};
use schedule::World;
use std::alloc::Global;
use std::test::Fail;

/// The event that a number makes: crashes are rare, and one submission in four is a resend.
fn made(plain: &Plain, number: u64) -> Made {
    let station = (number % 5) as u16;
    let place = number / 5 % 64;
    match place {
        0..=15 => {
            let next = plain.next(station.max(1).min(STATIONS));
            let back = u32::from(place < 4 && next > 1);
            Made::Submit(station, next.saturating_sub(back).max(1))
        }
        16..=29 => Made::Seal(station),
        30..=35 => Made::CommitBegin,
        36..=41 => Made::CommitEnd,
        42..=47 => Made::Publish,
        48..=56 => Made::Answer(station),
        57 | 58 => Made::Read(station),
        59 => Made::CheckpointBegin,
        60 | 61 => Made::CheckpointEnd,
        62 => Made::Reopen,
        _ => {
            if number / 320 % 8 == 0 {
                Made::Crash((number / 2560 % 3) as usize)
            } else {
                Made::Read(station)
            }
        }
    }
}

fn same(world: &World<Global>, plain: &Plain) -> bool {
    let (accepted, durable, published) = plain.numbers();
    world.accepted() == accepted as u64
        && world.durable() == durable as u64
        && world.published() == published as u64
}

/// How many of so many random events came; an error if the world and the plain lists differ.
fn alike(world: &mut World<Global>, plain: &mut Plain, events: u32) -> Result<u32, Fail> {
    let (mut number, mut came) = (1u64, 0u32);
    for _ in 0..events {
        number = number
            .wrapping_mul(6_364_136_223_846_793_005)
            .wrapping_add(1_442_695_040_888_963_407);
        let next = made(plain, number >> 33);
        let now = plain.step(next)?;
        let came_too = world.step(&event(next)?).is_ok();
        if came_too != now || !same(world, plain) || !plain.is_in_order() {
            return Err(Fail::from("the world and the lists differ"));
        }
        came = came.saturating_add(u32::from(now));
    }
    Ok(came)
}

fn compared(alloc: Global) -> Result<u32, Fail> {
    let mut world = World::new(alloc, STATIONS)?;
    let mut plain = Plain::new(alloc);
    let came = alike(&mut world, &mut plain, 100_000);
    drop(world);
    came
}

#[test]
fn hundred_thousand_events(rt: HostRuntime) -> Result<(), Fail> {
    assert!(rt; compared(rt.alloc())? > 30_000);
    Ok(())
}
