//! 64 senders and one taker of the queue, each in a thread of its own.
ghost use Rattle.std.specs.Prelude.{◌≡◌, IfSome};
ghost use Rattle.std.specs.Arc.{arc_value};

use centre_core::{Body, Command, Sequence};
use mailbox::Moment;
use registration::Station;
use station_queue::{Entry, Request, Sender, Taker, open_queue};
use std::alloc::Global;
use std::sync::{Arc, Wait};
use std::test::*;
use std::thread;
use std::thread::Threads;

// The most turns that the taker waits for an entry.
const TURNS: u32 = 1_000_000;

const SENDERS: u16 = 64;
// How many commands each sends, before its end.
const ENTRIES: u32 = 1_000;

// A command of the station. Its sequence is its number among the station's commands.
fn request(alloc: Global, station: Station, number: u32) -> Option<Request>
    ensures { IfSome result (λ r. (arc_value r.command).station ≡ station) }
{
    let sequence = Sequence::new(number)?;
    let command = Command::new(station, sequence, Moment::new(0), Body::Expire)?;
    let command = Arc::new(alloc, command).ok()?;
    let copy = Arc::try_clone(&command).ok()?;
    Some(Request {
        command,
        copy,
        more: false,
    })
}

// Sends the command of this number; whether there was memory for it.
fn submit<R: Wait>(rt: &R, alloc: Global, sender: &mut Sender, number: u32) -> bool {
    let station = sender.station();
    let Some(request) = request(alloc, station, number) else {
        return false;
    };
    sender.send(rt, Entry::Submitted(request));
    true
}

// Sends the commands 1 to `ENTRIES`, and then the end.
fn send_all<R: Wait>(rt: &R, alloc: Global, sender: Sender) {
    let mut sender = sender;
    for number in 1..ENTRIES + 1 {
        if !submit(rt, alloc, &mut sender, number) {
            return;
        }
    }
    let station = sender.station();
    sender.send(rt, Entry::Ended(station));
}

// What was taken of each station so far: how many of its commands, in order, and whether it has ended.
#[derive(Drop)]
struct Taken {
    counts: [u32; 64],
    ended: [bool; 64],
}

impl Taken {
    // Whether the entry is the one that must come next from its station. It is counted then.
    fn takes(&mut self, entry: &Entry) -> bool {
        match entry {
            Entry::Submitted(request) => {
                let station = request.command.station.number();
                self.takes_command(station, request.command.sequence.number())
            }
            Entry::Ended(station) => self.takes_end(station.number()),
        }
    }

    fn takes_command(&mut self, station: u16, number: u32) -> bool {
        if station == 0 || station > SENDERS {
            return false;
        }
        let place = usize::from(station - 1);
        let is_next = !self.ended[place] && number == self.counts[place].wrapping_add(1);
        self.counts[place] = number;
        is_next
    }

    fn takes_end(&mut self, station: u16) -> bool {
        if station == 0 || station > SENDERS {
            return false;
        }
        let place = usize::from(station - 1);
        let is_last = !self.ended[place] && self.counts[place] == ENTRIES;
        self.ended[place] = true;
        is_last
    }
}

// Takes until every sender has ended; whether each sender's entries came in order, and all of them.
fn take_all<R: Wait>(rt: &R, taker: &mut Taker) -> bool {
    let mut taken = Taken {
        counts: [0; 64],
        ended: [false; 64],
    };
    let mut left = SENDERS;
    let mut turns: u32 = 0;
    for _ in 0..u64::MAX {
        if left == 0 || turns == TURNS {
            break;
        }
        let Some(entry) = taker.take(rt) else {
            turns = turns.saturating_add(1);
            thread::yield_now();
            continue;
        };
        turns = 0;
        if !taken.takes(&entry) {
            return false;
        }
        if let Entry::Ended(_) = entry {
            left = left.saturating_sub(1);
        }
    }
    left == 0
}

// Runs the senders, each in a thread, beside the taker; whether all entries came.
fn relayed<R: Threads + Wait + Sync>(
    rt: &R,
    alloc: Global,
    taker: &mut Taker,
    senders: Vec<Sender>,
) -> bool {
    thread::scope(thread::scope_env(), rt, |scope| {
        let mut started = true;
        for sender in senders {
            let thread = scope.spawn(move || send_all(rt, alloc, sender));
            started &= thread.is_ok();
        }
        started & take_all(rt, taker)
    })
}

// Whether all entries came, and none is left.
fn is_relayed<R: Threads + Wait + Sync>(rt: &R, alloc: Global) -> Option<bool> {
    let (mut taker, senders) = open_queue(alloc, SENDERS).ok()?;
    let came = relayed(rt, alloc, &mut taker, senders);
    Some(came && taker.take(rt).is_none())
}

#[test]
fn each_order_is_kept_and_none_is_lost(rt: HostRuntime) {
    assert_eq!(rt; is_relayed(&rt, rt.alloc()), Some(true));
}

// Three senders send two commands each; the taker takes all six, and then finds the queue empty.
fn is_taken<R: Wait>(rt: &R, alloc: Global) -> Option<bool> {
    let (mut taker, mut senders) = open_queue(alloc, 3).ok()?;
    for sender in senders.iter_mut() {
        if !submit(rt, alloc, sender, 1) || !submit(rt, alloc, sender, 2) {
            return None;
        }
    }
    let mut count: u32 = 0;
    for _ in 0..6 {
        if taker.take(rt).is_some() {
            count = count.saturating_add(1);
        }
    }
    Some(count == 6 && taker.take(rt).is_none())
}

#[test]
fn takes_what_was_sent(rt: HostRuntime) {
    assert_eq!(rt; is_taken(&rt, rt.alloc()), Some(true));
}
