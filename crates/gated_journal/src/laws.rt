//! What holds of records and halves alone, of all bytes and all disks.

ghost use Rattle.gated_journal.specs.Laws.{ClosedIsEmpty, HeldIsRead, ReadAreInRange, ReadAreSpelt, ReadIsHeld, TextsAreReadBack};

use sector_disk::Disk;
use std::alloc::Allocator;

/// Bytes are read as a record after so many accepted commands exactly where they are the record's text, with zeros after it.
pub fn records<A: Allocator>()
    ensures read_back { TextsAreReadBack A }
    ensures in_range { ReadAreInRange A }
    ensures spelt { ReadAreSpelt A }
{}

/// A half whose first gate is closed in each image has no record: `Journal::start` may begin there.
pub fn begun<A: Allocator, D: Disk>()
    ensures { (disk : D) → ClosedIsEmpty A (D.view disk) }
{}

/// Where nothing is pending, a half holds in each image what it reads as. So records can be added to what `Journal::replay` gives.
pub fn replayed<A: Allocator, D: Disk>()
    ensures { (disk : D) → ReadIsHeld A (D.view disk) }
{}

/// What a half holds in each image of an honest disk is what it reads as: after appends that answered `Ok`,
/// `Journal::replay` gives these records and those before them.
pub fn reads_as_held<A: Allocator, D: Disk>()
    ensures { (disk : D) → HeldIsRead A (D.view disk) }
{}
