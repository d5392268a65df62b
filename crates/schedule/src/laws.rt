//! Laws of the centre over every list of events, which follow from its definitions alone.
//! These functions do nothing: a call gives the caller the clauses.

ghost use Rattle.schedule.specs.Laws.{AcceptedInTurn, PublishedAreDurable, PublishedNeverFalls, OnlyCrashShortens, AnswersStay};
ghost use Rattle.schedule.specs.Laws.{AnswersAreBorneOut, ReadsGrow, ReadsHoldAnswers, SealedAreSubmitted, NoneOfTheBaseLost, NoneMadeLost};
ghost use Rattle.schedule.specs.Rounds.{RoundsRun, IdleRoundsRun, CrashedRoundsRun, CrashedCheckpointsRun, RoundsFollow, StopsFollow};
ghost use Rattle.schedule.specs.RoundParts.{SealsRun, AnswersRun, OneIsBorneOut, AnsweredAreBorneOut, BorneOutByLonger, BatchesAreBorneOut};

use std::alloc::Allocator;

/// For every base state, any number of sessions, and every list of events that runs from the opening world, with
/// crashes and reopenings.
///
/// `waiting` and `made` state that no message is lost. They have a premise: the base is a state as the register keeps
/// it, with its mail in order and each item under a key of its own. Each register that was opened or made is such a
/// state ([`registers`](centre_core::laws::registers)). `waiting` is on the messages of the base's mail, and `made` on
/// each message that an accepted command makes.
pub fn every_schedule<A: Allocator>()
    ensures stepped { AcceptedInTurn A }
    ensures bounds { PublishedAreDurable A }
    ensures published { PublishedNeverFalls A }
    ensures shortened { OnlyCrashShortens A }
    ensures answers { AnswersStay A }
    ensures borne_out { AnswersAreBorneOut A }
    ensures read { ReadsGrow A }
    ensures read_answers { ReadsHoldAnswers A }
    ensures sealed { SealedAreSubmitted A }
    // No message is lost.
    ensures waiting { NoneOfTheBaseLost A }
    ensures made { NoneMadeLost A }
{}

/// Each round of the flusher is a run of events, whatever else is queued, and leaves that queued. What was durable
/// before is published. The popped commands are sealed, committed, published if there is memory for it, and answered.
/// A checkpoint may be made before the commit; one that is under way is given up first. A checkpoint may also begin or
/// end with the commit. A round that popped nothing publishes, or does nothing.
pub fn every_round<A: Allocator>()
    ensures sealed { RoundsRun A }
    ensures idle { IdleRoundsRun A }
{}

/// A round that the disk stops is a run of events that ends in a crash. `commit`: the commit stops, and its record, if it
/// has one, reaches the disk or not. `checkpoint`: the checkpoint before the commit stops.
pub fn crashed_rounds<A: Allocator>()
    ensures commit { CrashedRoundsRun A }
    ensures checkpoint { CrashedCheckpointsRun A }
{}

/// Two rounds, one after the other, are one run that pops the commands of both. The second round may be one that the disk
/// stops.
pub fn rounds_follow<A: Allocator>()
    ensures round { RoundsFollow A }
    ensures stop { StopsFollow A }
{}

/// The parts of a round: the first commands of the queues are sealed, and the entries that are owed are answered.
pub fn round_parts<A: Allocator>()
    ensures seals { SealsRun A }
    ensures answers { AnswersRun A }
{}

/// What a list of accepted commands bears out. It bears out an answer if it bears out the entry. It bears out all that a
/// prefix of it bears out, and each entry of a batch whose accepted commands are its last ones.
pub fn borne_out<A: Allocator>()
    ensures answer_from { OneIsBorneOut A }
    ensures answered { AnsweredAreBorneOut A }
    ensures longer { BorneOutByLonger A }
    ensures batches { BatchesAreBorneOut A }
{}
