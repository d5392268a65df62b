//! The step that adds a command to the list.
ghost use Rattle.std.specs.Prelude.{◌≡◌, ◌<◌, ◌^◌, ◌∷◌, ◌++◌, [], length, IsTrue};
ghost use Rattle.std.specs.Arc.{arc_value};
ghost use Rattle.snapshots.specs.Log.{word_of};

use crate::log::{Adds, LogPrefix, LogRule, LogWord, NoGain};
use centre_core::Command;
use logbook::Offer;
use std::alloc::Global;
use std::sync::Arc;

// Adds the command to all that was seen, and says whether it did.
pub fn added_to_log(
    word: &LogWord,
    list: &mut LogPrefix,
    count: u64,
    command: &Arc<Command<Global>, Global>,
) -> bool
    requires word { word.now ≡ word_of list.old.book }
    requires count { count ≡ length list.old.log }
    requires room { count < 2 ^ 63 }
    ensures book { list.new.book ≡ list.old.book }
    ensures added { IsTrue result → list.new.log ≡ list.old.log ++ arc_value command.now ∷ [] }
{
    let mut offer: Offer<Command<Global>, u64, LogRule, NoGain> = list.plain::<
        NoGain,
        Arc<Command<Global>, Global>,
        Adds,
    >(command);
    let mut pen = list.no_pen();
    let found = word.compare_exchange::<Adds, NoGain>(count, count + 1, list, &mut offer, &mut pen);
    found == count
}
