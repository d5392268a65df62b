//! Laws of the register for all commands and lists of commands, which follow from its definitions alone.
//! These functions do nothing: a call gives the caller the clauses.

mod in_turn;

ghost use Rattle.centre_core.specs.Ranges.{InRange};
ghost use Rattle.centre_core.specs.State.{IsState};
ghost use Rattle.centre_core.specs.StateRanges.{StateInRange};
ghost use Rattle.centre_core.specs.Laws.{AcceptedAreAnswered, AcceptedAreNumbered, AcceptedAreLast, AcceptedHaveRoom};
ghost use Rattle.centre_core.specs.Laws.{SameAgain, NamesAreSame, AcceptsAreSame, AfterIsSame, FreshIsSame, HistoriesAreSame, StepIsSame, StepIsNext};
ghost use Rattle.centre_core.specs.Laws.{EmptyIsState, NextIsState, EmptyIsInRange, NextIsInRange, NoneLost, NoneLostMade, OnlyAcceptedChange};
ghost use Rattle.centre_core.specs.Laws.{HistoriesAreNumbered, LastAcceptedAreLast, ResendsAreAnswered, ResendsAreIdle};

use crate::{Command, Register};
pub use in_turn::{accepted_in_turn, batches, joined_lists, prefixes, replies_say};
use std::alloc::Allocator;

/// The empty state is a state (`IsState`), and so is the state after each command.
pub fn states<A: Allocator>()
    ensures empty { EmptyIsState }
    ensures step { NextIsState A }
{}

/// The empty state is in range, and so is the state after each command in range.
pub fn ranges<A: Allocator>()
    ensures empty { EmptyIsInRange }
    ensures step { NextIsInRange A }
{}

/// The value of each register is a state (`IsState`), and is in range.
pub fn registers<A: Allocator>(register: &Register<A>)
    ensures state { IsState register.now }
    ensures ranges { StateInRange register.now }
{
    register.facts_of_state()
}

/// Each command is in range.
pub fn in_range<A: Allocator>(command: &Command<A>)
    ensures { InRange command.now }
{
    command.facts_of_ranges()
}

/// A refused command and a resend change nothing.
pub fn only_accepted_change<A: Allocator, B: Allocator>()
    ensures { OnlyAcceptedChange A B }
{}

/// The state after a command does not depend on the allocator of its reply.
pub fn step_is_next<A: Allocator, B: Allocator>()
    ensures { StepIsNext A B }
{}

/// An accepted command gets the next number. Its resend, with any body, is answered with the same number and PDU,
/// and changes nothing.
pub fn replies<A: Allocator, B: Allocator>()
    ensures numbered { AcceptedAreNumbered A B }
    ensures again { ResendsAreAnswered A B }
{}

/// A command is accepted only if fewer than 2^62 commands were accepted before.
pub fn accepted_have_room<A: Allocator>()
    ensures { AcceptedHaveRoom A }
{}

/// The entry of a station is kept until the station's next accepted command. A history is a list of commands that
/// are accepted one after another. Its numbers follow the base's count one by one. After it each station's entry
/// is that of its last command in it, or the base's.
pub fn histories<A: Allocator>()
    ensures kept { AcceptedAreLast A }
    ensures numbered { HistoriesAreNumbered A }
    ensures last { LastAcceptedAreLast A }
{}

/// A copy of a command under another allocator does the same. It ends the same messages and is accepted in the
/// same states. A list of copies leads to the same state, with its resends and without them.
pub fn same_commands<A: Allocator, B: Allocator>()
    ensures again { SameAgain A B }
    ensures names { NamesAreSame A B }
    ensures accepts { AcceptsAreSame A B }
    ensures after { AfterIsSame A B }
    ensures fresh { FreshIsSame A B }
    ensures histories { HistoriesAreSame A B }
{}

/// The step of a command does not depend on the allocators of the command and of its reply.
pub fn same_step<A: Allocator, B: Allocator, C: Allocator>()
    ensures { StepIsSame A B C }
{}

/// From any state, over every list of commands: a message that waits, or that an accepted command makes, is
/// missing afterwards exactly if a later accepted command ends it. Such a command is a report from its destination
/// that says so, `Sent` where it asks for no report, `Expire` at its deadline or later, or `Delete`.
pub fn no_lost_message<A: Allocator>()
    ensures waiting { NoneLost A }
    ensures made { NoneLostMade A }
{}

/// Without its resends a list of commands leads to the same state.
pub fn resends<A: Allocator>()
    ensures { ResendsAreIdle A }
{}

/// A location update whose type is not refused is answered by a D-LOCATION UPDATE ACCEPT of that type.
pub fn accepted_are_answered()
    ensures { AcceptedAreAnswered }
{
    registration::laws::accepted_types()
}
