//! Lines served at a desk that answers every outage word of a store. Its register is on a disk that has room for so many
//! commands at its last epoch, and that fails at one of them.
ghost use Rattle.std.specs.Prelude.{true};
ghost use Rattle.desk.specs.OfStore.{Stored, of_store};

use crate::answered::are_answered;
use crate::limits::usual;
use centre_core::{Command, Query, QueryAnswer, Register, Reply, Sequence};
use console::{Answer, Desk, Outage, print_answer};
use listings::{Listing, print_listing};
use std::alloc::{Allocator, Global};

#[derive(Drop)]
struct FailingDesk<A: Allocator> {
    register: Register<A>,
    /// How many commands the disk has room for.
    room: u32,
    /// How many commands come before the failure.
    sound: u32,
    broken: bool,
    failures: u64,
}

impl<A: Allocator + Copy, B: Allocator + Copy> Desk<A> for FailingDesk<B> {
    ghost World = { Stored };

    ghost world = { λ desk. record { register = desk.register; broken = desk.broken; failures = desk.failures; last = true } };

    ghost rules = { of_store };

    ghost most = { λ desk. 64 };

    fn most_together(&self) -> usize {
        64
    }

    fn apply(&mut self, alloc: A, command: &Command<A>) -> Result<Reply<A>, Outage> {
        if self.broken {
            return Err(Outage::Broken);
        }
        if self.room == 0 {
            return Err(Outage::Epochs);
        }
        if self.sound == 0 {
            self.broken = true;
            self.failures = self.failures.saturating_add(1);
            return Err(Outage::Device);
        }
        match Desk::apply(&mut self.register, alloc, command) {
            Ok(reply) => {
                self.room -= 1;
                self.sound -= 1;
                Ok(reply)
            }
            Err(_) => Err(Outage::Memory),
        }
    }

    fn query(&mut self, alloc: A, query: &Query) -> Result<QueryAnswer<A>, Outage> {
        if self.broken {
            return Err(Outage::Broken);
        }
        match self.register.query(alloc, query) {
            Ok(reported) => Ok(reported),
            Err(_) => Err(Outage::Memory),
        }
    }

    fn list(&mut self, listing: &Listing, out: &mut Vec<u8, A>) -> Result<(), Outage> {
        if self.broken {
            return Err(Outage::Broken);
        }
        match print_listing(out, &self.register, listing) {
            Ok(()) => Ok(()),
            Err(_) => Err(Outage::Memory),
        }
    }
}

/// Whether these are the answers of a new desk with so much room and so many sound commands.
fn is_answered(alloc: Global, room: u32, sound: u32, lines: &str, want: &str) -> Option<bool> {
    let limits = usual()?;
    let register = Register::new(alloc, limits).ok()?;
    let mut desk = FailingDesk {
        register,
        room,
        sound,
        broken: false,
        failures: 0,
    };
    let is_answered = are_answered(alloc, alloc, &mut desk, lines.as_bytes(), want.as_bytes());
    drop(desk);
    Some(is_answered)
}

/// Room, sound commands, lines and answers.
const ROWS: [(u32, u32, &str, &str); 2] = [
    (
        9,
        1,
        "1 0 expire\ncount\nradios\n2 0 expire\n3 0 expire\ncount\nroom\nradios\nwhat\n",
        "1 ok 1 -\ncount 1\nradios 0\n2 no device\n3 no broken\nline 6 no broken\nline 7 no broken\nline 8 no broken\nline 9 bad syntax\n",
    ),
    (
        1,
        9,
        "1 0 expire\n2 0 expire\ncount\n",
        "1 ok 1 -\n2 no epochs\ncount 1\n",
    ),
];

fn all_are_answered(alloc: Global) -> bool {
    for (room, sound, lines, want) in ROWS {
        if is_answered(alloc, room, sound, lines, want) != Some(true) {
            return false;
        }
    }
    true
}

#[test]
fn after_a_failure_the_desk_is_broken(rt: HostRuntime) {
    assert!(rt; all_are_answered(rt.alloc()));
}

const WORDS: [(Outage, &str); 5] = [
    (Outage::Memory, "7 no memory\n"),
    (Outage::Device, "7 no device\n"),
    (Outage::Broken, "7 no broken\n"),
    (Outage::Epochs, "7 no epochs\n"),
    (Outage::Closed, "7 no closed\n"),
];

/// Whether the answer to a command with this word has this text, and is trouble.
fn is_printed(alloc: Global, sequence: Sequence, word: Outage, want: &str) -> bool {
    let answer: Answer<Global> = Answer::CommandOutage(sequence, word);
    let mut out = Vec::new(alloc);
    let is_printed = print_answer(&mut out, &answer).is_ok();
    is_printed && out.as_slice() == want.as_bytes() && answer.is_trouble()
}

fn are_printed(alloc: Global) -> Option<bool> {
    let sequence = Sequence::new(7)?;
    for (word, want) in WORDS {
        if !is_printed(alloc, sequence, word, want) {
            return Some(false);
        }
    }
    Some(true)
}

#[test]
fn each_word_is_printed(rt: HostRuntime) {
    assert!(rt; are_printed(rt.alloc()) == Some(true));
}
