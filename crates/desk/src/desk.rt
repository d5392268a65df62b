//! The trait of desks.
ghost use Rattle.std.specs.Prelude.{◌≡◌, ◌≤◌, ℕ, All, IfErr, IfOk, OnErr, OnOk, length, vec_capacity, vec_len};
ghost use Rattle.desk.specs.Listed.{IsListed, IsUnlisted};
ghost use Rattle.desk.specs.Replies.{HasShortPdu};
ghost use Rattle.desk.specs.Rules.{AreApplied, Rules};

use crate::outage::Outage;
use centre_core::{Command, Query, QueryAnswer, Reply};
use listings::Listing;
use std::alloc::Allocator;

/// The most commands that any desk takes together.
pub const MOST_TOGETHER: usize = 64;

/// Carries out commands and answers queries. Commands, replies and answers have allocators of one kind.
pub trait Desk<A: Allocator + Copy> {
    // The values that desks of this kind are modelled as.
    ghost World: { Type 0 };

    ghost world: { Self → World };

    // What they may do and answer.
    ghost rules: { Rules A World };

    // How many commands one takes together at most.
    ghost most: { Self → ℕ };

    /// How many commands it takes together at most, from 1 to [`MOST_TOGETHER`].
    fn most_together(&self) -> usize
        ensures most { result ≡ most self.now }
        ensures some { 1 ≤ result }
        ensures few { result ≤ 64 };

    /// Carries out a command. The reply's bits are allocated in `alloc`, and are at most 2,048.
    fn apply(&mut self, alloc: A, command: &Command<A>) -> Result<Reply<A>, Outage>
        ensures applies { rules.applies (world self.old) command.now result (world self.new) }
        ensures short { IfOk result HasShortPdu };

    /// Carries out commands, each as [`Desk::apply`] does, one after another. `replies` gets their answers and nothing else.
    fn apply_all(
        &mut self,
        alloc: A,
        commands: &[Command<A>],
        replies: &mut Vec<Result<Reply<A>, Outage>, A>,
    )
        requires few { length commands.now ≤ most self.old }
        requires room { length commands.now ≤ vec_capacity replies.old }
        ensures applies { AreApplied rules (world self.old) commands.now replies.new.items (world self.new) }
        ensures short { All (λ reply. IfOk reply HasShortPdu) replies.new.items }
        ensures room { vec_capacity replies.new ≡ vec_capacity replies.old }
    {
        replies.clear();
        for k in 0..commands.len() {
            let reply = self.apply(alloc, &commands[k]);
            replies.push_reserved(reply);
        }
    }

    /// Answers a query. A list in the answer is allocated in `alloc`.
    fn query(&mut self, alloc: A, query: &Query) -> Result<QueryAnswer<A>, Outage>
        ensures { rules.answers (world self.old) query.now result (world self.new) };

    /// Adds the text of a listing of its register. If it has none to read, or memory runs out, `out` is unchanged.
    fn list(&mut self, listing: &Listing, out: &mut Vec<u8, A>) -> Result<(), Outage>
        ensures listed { OnOk result (IsListed rules (world self.old) listing.now out.old.items out.new.items (world self.new)) }
        ensures unlisted { IfErr result (λ word. IsUnlisted rules (world self.old) listing.now (vec_len out.old) (vec_capacity out.old) word (world self.new)) }
        ensures unchanged { OnErr result (out.new.items ≡ out.old.items) }
        ensures capacity { vec_capacity out.old ≤ vec_capacity out.new };
}
