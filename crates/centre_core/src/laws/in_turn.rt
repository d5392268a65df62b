//! Lists of commands that are accepted one after another.
ghost use Rattle.centre_core.specs.InTurn.{AcceptedAreCounted, EndedAreNamed, LastAreOfTheList, RepliesSay};
ghost use Rattle.centre_core.specs.Joined.{AfterIsJoined, HistoriesAreJoined, PrefixesAreHistories, RestsAreHistories, TakenAreAll, TakenAreHistory};
ghost use Rattle.centre_core.specs.Joined.{LandsInLonger, LandsInPrefix, LeftByLonger, LeftByPrefix};

use std::alloc::Allocator;

/// What a reply shows of the state after its command, and of the entry of each station.
pub fn replies_say<A: Allocator, B: Allocator>()
    ensures { RepliesSay A B }
{}

/// For every list of commands that a state accepts one after another. They are counted. The entry of a station
/// afterwards is of one of them, or is the old one. A message is ended exactly if one of them names it.
pub fn accepted_in_turn<A: Allocator>()
    ensures counted { AcceptedAreCounted A }
    ensures kept { LastAreOfTheList A }
    ensures ended { EndedAreNamed A }
{}

/// Two lists of commands, one after the other: the state that they lead to, and when the whole is a history. A
/// prefix of a history is a history. The rest is one too, from the state after the prefix.
pub fn joined_lists<A: Allocator>()
    ensures after { AfterIsJoined A }
    ensures whole { HistoriesAreJoined A }
    ensures prefix { PrefixesAreHistories A }
    ensures rest { RestsAreHistories A }
{}

/// The accepted commands of a batch are a history, and they alone change the state.
pub fn batches<A: Allocator>()
    ensures history { TakenAreHistory A }
    ensures state { TakenAreAll A }
{}

/// A command that has its number and reply in a list of commands has them in each longer list. It has them in a
/// prefix of the list if its number is within the count of the prefix. The same holds of the entry that it leaves.
pub fn prefixes<A: Allocator>()
    ensures longer { LandsInLonger A }
    ensures shorter { LandsInPrefix A }
    ensures left_longer { LeftByLonger A }
    ensures left_shorter { LeftByPrefix A }
{}
