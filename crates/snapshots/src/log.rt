//! The list of accepted commands, which exists in proofs alone. A `LogPrefix` is a prefix of it, and takes no bytes.
ghost use Rattle.std.specs.Prelude.{◌≡◌, []};
ghost use Rattle.snapshots.specs.Log.{word_of};

use centre_core::Command;
use logbook::{Gain, Plain, Play, Rule, Seen, Start, Word};
use std::alloc::Global;
use std::marker::Brand;
use std::sync::Arc;

/// The word counts the commands of the list.
pub struct LogRule;

impl Rule<Command<Global>, u64> for LogRule {
    ghost use Rattle.std.specs.Prelude.{[]};
    ghost use base.Fml.{ftrue};
    ghost use Rattle.snapshots.specs.Log.{CountsLog};

    ghost holds = { λ cells log. CountsLog cells log };

    ghost first = { [] };

    ghost hinted = { λ n log. Unit {0} };

    ghost shows = { λ log. [] };

    ghost keeps = { λ names log. ftrue };

    ghost moves = { λ ask before after answer. Unit {0} };
}

/// Adding a command gives its caller nothing to keep.
pub struct NoGain;

impl Gain<Command<Global>, u64> for NoGain {
    ghost use base.Fml.{ftrue};

    ghost after = { λ names about answer. ftrue };
}

/// One command is added.
pub struct Adds;

impl Play<Command<Global>, u64> for Adds {
    ghost use Rattle.snapshots.specs.Log.{Extends};

    ghost then = { Extends };
}

impl Plain<Arc<Command<Global>, Global>, Command<Global>, u64> for Adds {
    ghost use Rattle.std.specs.Prelude.{None};
    ghost use Rattle.std.specs.Arc.{arc_value};

    ghost ask = { λ c. arc_value c };

    ghost state = { λ c. None };
}

pub type LogPrefix = Seen<Command<Global>, u64, LogRule>;

pub type LogWord = Word<Command<Global>, u64, LogRule>;

/// One centre: the state that its list of commands starts from, and the logbook that the list is in. Each program that
/// makes a centre picks both.
pub trait Centre {
    ghost use Rattle.logbook.specs.Pages.{Book};
    ghost use Rattle.centre_core.specs.State.{State};

    ghost base: { State };

    ghost book: { Book };
}

// A caller that makes a centre names it by `Brand`, and its proof says which base and book are meant.
impl Centre for Brand {
    ghost use Rattle.snapshots.specs.Log.{some_base, some_book};

    ghost base = { some_base };

    ghost book = { some_book };
}

/// An empty list, which belongs to no centre yet.
#[derive(Drop)]
pub struct NewLog {
    pub(crate) word: LogWord,
    pub(crate) seen: LogPrefix,
    pub ghost empty: { seen.log ≡ [] },
    pub ghost word_is: { word ≡ word_of seen.book },
}

impl NewLog {
    pub fn new() -> NewLog {
        let (seen, mut first, _second) = Seen::open(Start::alone(), 0, 0);
        NewLog {
            word: Word::tracked(0, &mut first),
            seen,
        }
    }
}
