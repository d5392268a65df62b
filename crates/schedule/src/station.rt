ghost use Rattle.std.specs.Prelude.{◌≡◌, ◌++◌, ◌∷◌, [], OnOk, OnErr, false, cond};
ghost use Rattle.schedule.specs.World.{line};
ghost use Rattle.schedule.specs.Next.{is_empty};

use centre_core::Command;
use std::alloc::{AllocError, Allocator};
use std::marker::Model;

/// A station's line: the commands that it submitted and that are not sealed, oldest first, and how many accepted
/// commands it has seen.
#[derive(Drop)]
pub(crate) struct StationLine<A: Allocator> {
    queue: Vec<Command<A>, A>,
    seen: usize,
}

impl<A: Allocator> Model for StationLine<A> {
    ghost use Rattle.schedule.specs.World.{Line, line};

    ghost Value = { Line A };

    ghost view = { λ s. line s.queue.items s.seen };
}

impl<A: Allocator> StationLine<A> {
    pub(crate) fn new(alloc: A) -> Self
        ensures { result ≡ line [] 0 }
    {
        StationLine {
            queue: Vec::new(alloc),
            seen: 0,
        }
    }

    pub(crate) fn submit(&mut self, command: Command<A>) -> Result<(), AllocError>
        ensures ok { OnOk result (self.new ≡ line (self.old.queue ++ command ∷ []) self.old.seen) }
        ensures err { OnErr result (self.new ≡ self.old) }
    {
        self.queue.push(command)?;
        Ok(())
    }

    pub(crate) fn is_idle(&self) -> bool
        ensures { result ≡ is_empty self.now.queue }
    {
        self.queue.is_empty()
    }

    pub(crate) fn seal(&mut self) -> Command<A>
        requires { is_empty self.old.queue ≡ false }
        ensures queue { self.old.queue ≡ result ∷ self.new.queue }
        ensures seen { self.new.seen ≡ self.old.seen }
    {
        self.queue.remove(0)
    }

    pub(crate) fn see(&mut self, count: usize)
        ensures { self.new ≡ line self.old.queue count }
    {
        self.seen = count;
    }

    pub(crate) fn take_answer(&mut self, accepted: bool, published: usize)
        ensures { self.new ≡ line self.old.queue (cond accepted published self.old.seen) }
    {
        if accepted {
            self.seen = published;
        }
    }

    pub(crate) fn fall(&mut self)
        ensures { self.new ≡ line [] self.old.seen }
    {
        self.queue.clear();
    }
}
