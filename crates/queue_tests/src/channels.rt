//! Channels of answers, between threads and with an end that is gone.
ghost use Rattle.std.specs.Prelude.{◌≡◌, ◌*◌, IfSome};

use answers::{AnswerReceiver, AnswerSender, open_channel};
use std::alloc::Global;
use std::sync::Wait;
use std::test::*;
use std::thread;
use std::thread::Threads;

// How many answers go through each channel.
const ANSWERS: u32 = 1_000;

// A message with a ghost field for what its sender proved of it.
#[derive(Drop)]
struct Doubled {
    number: u32,
    twice: u64,
    ghost is_double: { twice ≡ 2 * number },
}

// The receiver has what the sender proved.
fn received<R: Wait>(rt: &R, receiver: &mut AnswerReceiver<Doubled>) -> Option<(u32, u64)>
    ensures { IfSome result (λ r. r.1 ≡ 2 * r.0) }
{
    let message = receiver.receive(rt)?;
    Some((message.number, message.twice))
}

fn answer_all<R: Wait>(rt: &R, sender: &mut AnswerSender<Doubled>) {
    for number in 0..ANSWERS {
        sender.send(
            rt,
            Doubled {
                number,
                twice: 2 * u64::from(number),
            },
        );
    }
}

// Whether all answers came, in order.
fn is_answered<R: Wait>(rt: &R, receiver: &mut AnswerReceiver<Doubled>) -> bool {
    for number in 0..ANSWERS {
        let Some((found, twice)) = received(rt, receiver) else {
            return false;
        };
        if found != number || twice != 2 * u64::from(number) {
            return false;
        }
    }
    true
}

// One thread answers, another receives.
fn is_relayed<R: Threads + Wait + Sync>(rt: &R, alloc: Global) -> Option<bool> {
    let (mut sender, mut receiver) = open_channel(alloc, 2).ok()?;
    let (_, received) = thread::join(
        rt,
        || answer_all(rt, &mut sender),
        || is_answered(rt, &mut receiver),
    );
    Some(received)
}

#[test]
fn answers_come_in_order(rt: HostRuntime) {
    assert_eq!(rt; is_relayed(&rt, rt.alloc()), Some(true));
}

// Sends three answers, the last two to a session that is gone. There is room for one, so a send that waited would never end.
fn is_dropped<R: Wait>(rt: &R, alloc: Global) -> Option<bool> {
    let (mut sender, receiver) = open_channel::<u32>(alloc, 1).ok()?;
    sender.send(rt, 1);
    drop(receiver);
    for number in [2, 3] {
        sender.send(rt, number);
    }
    Some(true)
}

#[test]
fn an_answer_to_a_session_that_is_gone_is_dropped(rt: HostRuntime) {
    assert_eq!(rt; is_dropped(&rt, rt.alloc()), Some(true));
}

// Whether what was sent before the sender was dropped is still received, and nothing after it.
fn is_ended<R: Wait>(rt: &R, alloc: Global) -> Option<bool> {
    let (mut sender, mut receiver) = open_channel::<u32>(alloc, 1).ok()?;
    sender.send(rt, 7);
    drop(sender);
    let last = receiver.receive(rt);
    Some(last == Some(7) && receiver.receive(rt).is_none())
}

#[test]
fn a_session_whose_flusher_is_gone_is_answered(rt: HostRuntime) {
    assert_eq!(rt; is_ended(&rt, rt.alloc()), Some(true));
}

// A receiver waits in another thread while the sender is dropped.
fn is_woken<R: Threads + Wait + Sync>(rt: &R, alloc: Global) -> Option<bool> {
    let (sender, mut receiver) = open_channel::<u32>(alloc, 1).ok()?;
    let (_, woken) = thread::join(rt, move || drop(sender), || receiver.receive(rt).is_none());
    Some(woken)
}

#[test]
fn a_session_that_waits_is_answered(rt: HostRuntime) {
    assert_eq!(rt; is_woken(&rt, rt.alloc()), Some(true));
}

// Each receiver gets what its own sender sent.
fn are_apart<R: Wait>(rt: &R, alloc: Global) -> Option<bool> {
    let mut channels = Vec::with_capacity(alloc, 64).ok()?;
    for _ in 0..64 {
        channels.push(open_channel::<u64>(alloc, 1).ok()?).ok()?;
    }
    let mut number: u64 = 0;
    for ends in channels.iter_mut() {
        ends.0.send(rt, number);
        number = number.wrapping_add(1);
    }
    let mut expected: u64 = 0;
    for ends in channels.iter_mut() {
        if ends.1.receive(rt) != Some(expected) {
            return Some(false);
        }
        expected = expected.wrapping_add(1);
    }
    Some(number == 64)
}

#[test]
fn each_session_gets_its_own_answers(rt: HostRuntime) {
    assert_eq!(rt; are_apart(&rt, rt.alloc()), Some(true));
}
