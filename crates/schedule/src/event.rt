use centre_core::Command;
use registration::Station;
use std::alloc::Allocator;

/// An event that may happen next. Stations are counted from 1.
#[derive(Drop)]
pub enum Event<A: Allocator> {
    /// A station submits a command of its own, which becomes the last of its queue. Not while down.
    Submit(Station, Command<A>),
    /// The first command of a station's queue becomes the last of the batch, which has at most 64 commands. Not
    /// while down, while a commit is in flight, or while an entry of the last batch is owed.
    Seal(Station),
    /// A commit begins: the register accepts commands of the batch, in turn. Not while down, while another commit
    /// is in flight, while nothing is sealed, or while something durable is not published. A checkpoint may be
    /// under way.
    CommitBegin,
    /// The commit ends: all that is accepted is durable, and the entries of the batch are owed.
    CommitEnd,
    /// All that is durable is published. Not while down or while a commit is in flight.
    Publish,
    /// The first entry that is owed to a station is answered. Not while down.
    Answer(Station),
    /// A station reads what is published. It may do so while down.
    Read(Station),
    /// A checkpoint begins. One that a commit begins comes after the commit's end. Not while down, while a commit
    /// is in flight, or while another checkpoint is under way.
    CheckpointBegin,
    /// The checkpoint ends, or is given up.
    CheckpointEnd,
    /// All stops. So many records of the commit in flight reach the disk. A commit has one record, of all that it
    /// accepted, or none if it accepted nothing. Not while down.
    Crash(usize),
    /// The centre starts again after a crash. All that is accepted is durable and published. Only while down.
    Reopen,
}
