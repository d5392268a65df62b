//! Laws of all lines, and of all dialogues with a register, in memory or on a disk. `A` is the allocator of the bits of
//! commands and replies; nothing depends on it.

ghost use Rattle.console.specs.Dialogue.{CutOffIsPrefix, OneText};
ghost use Rattle.console.specs.Spelling.{OnlyCommands, OnlyQueries, OnlyListings, OnlyMarks, OnlyOwnStation, OnlyService, NothingForbidden};
ghost use Rattle.console.specs.Spelling.{AllCommands, AllQueries, AllListings, AllMarks, AllOwnStation, AllService, BadLines, MarkCompletesNoCommand};
ghost use Rattle.desk.specs.OfRegister.{of_register};
ghost use Rattle.desk.specs.OfStore.{of_store};
ghost use Rattle.console.specs.Stored.{BrokenAfterDevice, RegisterAtDevice, StoredAsRegister};

use std::alloc::Allocator;

/// What a run wrote before a fault is a prefix of a text that may be written for the lines. This holds for a register in
/// memory, and for one on a disk.
pub fn cut_off_is_prefix<A: Allocator>()
    ensures register { CutOffIsPrefix A of_register }
    ensures store { CutOffIsPrefix A of_store }
{}

/// If no answer has an outage word, the lines determine the register after them and all answers, except the figures of a service.
pub fn one_text<A: Allocator>()
    ensures { OneText A }
{}

/// After a register on a disk has answered a command by `device`, each later query and listing is answered by `broken`. Each later command
/// is answered by `broken` or `memory`, or is forbidden.
pub fn broken_after_device<A: Allocator>()
    ensures { BrokenAfterDevice A }
{}

/// After a register on a disk has answered a command by `device`, it stays as the lines before made it.
pub fn register_at_device<A: Allocator>()
    ensures { RegisterAtDevice A }
{}

/// Without outage words, a register on a disk answers as one in memory.
pub fn stored_as_register<A: Allocator>()
    ensures { StoredAsRegister A }
{}

/// A line is read as a command, a query, a listing or a mark only if it spells that, with values in range. Only the line `station`
/// is read as the question which station this is, and the answer is that station. Only the line `service` is read as the question for
/// the figures of the service. None is read as forbidden.
pub fn only_what_is_spelled<A: Allocator>()
    ensures commands { OnlyCommands A }
    ensures queries { OnlyQueries A }
    ensures listings { OnlyListings A }
    ensures marks { OnlyMarks A }
    ensures station { OnlyOwnStation A }
    ensures service { OnlyService A }
    ensures forbidden { NothingForbidden A }
{}

/// A line that spells a command, a query, a listing or a mark, or asks which station this is or for the figures of the service, is read as that.
pub fn all_that_is_spelled<A: Allocator>()
    ensures commands { AllCommands A }
    ensures queries { AllQueries A }
    ensures listings { AllListings A }
    ensures marks { AllMarks A }
    ensures station { AllOwnStation A }
    ensures service { AllService A }
{}

/// Which lines are too long, which have no form (`syntax`), and which have a form but spell nothing (`value`).
pub fn bad_lines<A: Allocator>()
    ensures { BadLines A }
{}

/// A mark that follows a line that was cut completes no command.
pub fn mark_completes_no_command<A: Allocator>()
    ensures { MarkCompletesNoCommand A }
{}
