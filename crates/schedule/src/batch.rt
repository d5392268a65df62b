//! What a batch does to the register.

ghost use Rattle.std.specs.Prelude.{◌≡◌, ◌==◌, ◌++◌, ◌∷◌, [], IfOk, OnOk, find, reverse};
ghost use Rattle.std.specs.Option.{option_copied};
ghost use Rattle.centre_core.specs.History.{next, after};
ghost use Rattle.centre_core.specs.InTurn.{reply_to};
ghost use Rattle.centre_core.specs.Batches.{with_replies, accepted_of, taken};
ghost use Rattle.schedule.specs.World.{Entry, ground};
ghost use Rattle.schedule.specs.Next.{answer_from, last_answer};

use base::TryCopy;
use centre_core::{Command, Register, Reply};
use registration::{
    Limits, MAIL_CAPACITY, RADIO_CAPACITY, RULE_CAPACITY, STATION_CAPACITY, Station,
};
use std::alloc::{AllocError, Allocator};

/// The greatest limits of a register.
const GREATEST: Limits = Limits {
    rules: RULE_CAPACITY,
    radios: RADIO_CAPACITY,
    mail: MAIL_CAPACITY,
    stations: STATION_CAPACITY,
};

/// A copy of the command, allocated in `alloc`.
#[tactic(auto, using(centre_core::proofs::SameLaws::under_own))]
pub(crate) fn copy_of<A: Allocator + Copy>(
    alloc: A,
    command: &Command<A>,
) -> Result<Command<A>, AllocError>
    ensures { IfOk result (λ copy. copy ≡ command.now) }
{
    command.try_copy(alloc)
}

// Applies a command. Its reply is added to the replies, and the command to the news if it is accepted.
fn judge_one<A: Allocator + Copy>(
    register: &mut Register<A>,
    command: &Command<A>,
    alloc: A,
    replies: &mut Vec<(Command<A>, Reply<A>), A>,
    news: &mut Vec<Command<A>, A>,
) -> Result<(), AllocError>
    ensures replies { OnOk result (replies.new.items ≡ replies.old.items ++ (command.now, reply_to register.old command.now) ∷ []) }
    ensures news { OnOk result (news.new.items ≡ news.old.items ++ accepted_of ((command.now, reply_to register.old command.now) ∷ [])) }
    ensures register { OnOk result (register.new ≡ next register.old command.now) }
{
    let reply = register.apply(alloc, command)?;
    if reply.is_acceptance() {
        news.push(copy_of(alloc, command)?)?;
    }
    replies.push((copy_of(alloc, command)?, reply))?;
    Ok(())
}

// The replies to a batch in turn, and its accepted commands.
fn judge<A: Allocator + Copy>(
    alloc: A,
    register: &mut Register<A>,
    batch: &[Command<A>],
) -> Result<(Vec<(Command<A>, Reply<A>), A>, Vec<Command<A>, A>), AllocError>
    ensures { IfOk result (λ r.
        (r.0.items ≡ with_replies A register.old batch.now)
        × (r.1.items ≡ taken register.old batch.now)
        × (register.new ≡ after register.old batch.now)) }
{
    let mut replies = Vec::new(alloc);
    let mut news = Vec::new(alloc);
    for command in batch {
        judge_one(register, command, alloc, &mut replies, &mut news)?;
    }
    Ok((replies, news))
}

/// The register after a batch, the replies in turn, and the accepted commands of the batch.
pub(crate) fn judged<A: Allocator + Copy>(
    alloc: A,
    register: &Register<A>,
    batch: &[Command<A>],
) -> Result<
    (
        Register<A>,
        Vec<(Command<A>, Reply<A>), A>,
        Vec<Command<A>, A>,
    ),
    AllocError,
>
    ensures { IfOk result (λ r.
        (r.0 ≡ after register.now batch.now)
        × (r.1.items ≡ with_replies A register.now batch.now)
        × (r.2.items ≡ taken register.now batch.now)) }
{
    let mut next = register.try_copy()?;
    match judge(alloc, &mut next, batch) {
        Ok((replies, news)) => Ok((next, replies, news)),
        Err(error) => {
            drop(next);
            Err(error)
        }
    }
}

/// The empty register at the greatest limits.
pub(crate) fn ground<A: Allocator + Copy>(alloc: A) -> Result<Register<A>, AllocError>
    ensures { IfOk result (λ register. register ≡ ground) }
{
    Register::new(alloc, GREATEST)
}

/// The register after these commands.
pub(crate) fn replay<A: Allocator + Copy>(
    alloc: A,
    commands: &[Command<A>],
) -> Result<Register<A>, AllocError>
    ensures { IfOk result (λ register. register ≡ after ground commands.now) }
{
    let mut register = ground(alloc)?;
    for command in commands {
        let _ = register.apply(alloc, command)?;
    }
    Ok(register)
}

/// The answer that is given for a reply. An acceptance is answered as one only if all that is durable is published.
pub(crate) fn answer_from<A: Allocator>(all: bool, reply: Reply<A>) -> Reply<A>
    ensures { result ≡ answer_from all reply }
{
    match reply {
        Reply::Accepted { number, pdu } => {
            if all {
                Reply::Accepted { number, pdu }
            } else {
                Reply::Kept { number, pdu }
            }
        }
        Reply::Kept { number, pdu } => Reply::Kept { number, pdu },
        Reply::Refused(refusal) => Reply::Refused(refusal),
    }
}

// The last entry of the station.
fn last_of<A: Allocator>(
    answers: &[(Command<A>, Reply<A>)],
    station: Station,
) -> Option<&(Command<A>, Reply<A>)>
    ensures { option_copied result ≡ find (λ (x : Entry A). x.0.station == station) (reverse answers.now) }
{
    answers
        .iter()
        .rev()
        .find(|entry| entry.0.station == station)
}

/// The last answer to a station.
pub(crate) fn last_answer<A: Allocator>(
    answers: &[(Command<A>, Reply<A>)],
    station: Station,
) -> Option<&Reply<A>>
    ensures { option_copied result ≡ last_answer station answers.now }
{
    match last_of(answers, station) {
        Some(entry) => Some(&entry.1),
        None => None,
    }
}
