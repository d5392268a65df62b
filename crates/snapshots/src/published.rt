//! Prefixes of the list of commands, as far as they were published.
ghost use Rattle.std.specs.Prelude.{◌≡◌, ◌⊎◌, ◌<◌, length, MatchBool};
ghost use mathlib.Core.List.{IsPrefix};
ghost use Rattle.centre_core.specs.Histories.{IsHistory};

use crate::log::{Centre, LogPrefix};
use std::marker::{Model, PhantomData};

/// A list of commands that was published. Contracts model it as that list; in memory it is only its length. It may be sent
/// to other threads.
#[derive(Drop)]
pub struct Published<J: Centre> {
    pub(crate) count: u64,
    pub(crate) list: LogPrefix,
    pub(crate) of: PhantomData<J>,
}

impl<J: Centre> Model for Published<J> {
    ghost use Rattle.std.specs.Prelude.{◌≡◌, List, length};
    ghost use Rattle.std.specs.declared.alloc.Global.{Global};
    ghost use Rattle.centre_core.specs.Asked.{Asked};
    ghost use Rattle.centre_core.specs.Histories.{IsHistory};

    ghost Value = { List (Asked Global) };

    ghost view = { λ p. p.list.log };

    ghost invariant = { λ p. (p.count ≡ length p.list.log) × (p.list.book ≡ J.book) × IsHistory J.base p.list.log };
}

impl<J: Centre> Published<J> {
    /// How many commands it has. Each was accepted in its turn.
    pub fn count(&self) -> u64
        ensures length { result ≡ length self.now }
        ensures accepted { IsHistory J.base self.now }
    {
        self.count
    }

    /// Another value of this list.
    pub fn copy(&self) -> Published<J>
        ensures { result ≡ self.now }
    {
        Published {
            count: self.count,
            list: self.list.again(),
            of: PhantomData,
        }
    }

    /// Whether it is a prefix of the other. If not, the other is a shorter prefix of this one.
    pub fn is_prefix_of(&self, other: &Published<J>) -> bool
        ensures { MatchBool result (IsPrefix self.now other.now) (IsPrefix other.now self.now × (length other.now < length self.now)) }
    {
        let mut both = self.list.again();
        both.learn(&other.list);
        self.count <= other.count
    }

    /// The longer of the two. The other is a prefix of it.
    pub fn longer(&self, other: &Published<J>) -> Published<J>
        ensures one { (result ≡ self.now) ⊎ (result ≡ other.now) }
        ensures this { IsPrefix self.now result }
        ensures that { IsPrefix other.now result }
    {
        if self.is_prefix_of(other) {
            other.copy()
        } else {
            self.copy()
        }
    }
}
