//! Commands that a session submits, one at a time or together.
ghost use Rattle.std.specs.Prelude.{◌≡◌, All, IfSome, IsTrue};

use centre_core::Command;
use flusher::{Answer, Session};
use probe_live_centre::attach;
use registration::Station;
use snapshots::Centre;
use std::alloc::Global;
use std::sync::Wait;

/// How many commands a session submits together.
pub(crate) const TOGETHER: u32 = 8;

/// The command with this sequence that attaches this station's radio.
pub(crate) fn update(alloc: Global, station: Station, sequence: u32) -> Option<Command<Global>>
    ensures { IfSome result (λ command. command.station ≡ station) }
{
    attach(alloc, station, sequence, u32::from(station.number()) % 16)
}

/// Submits the attach with this sequence; whether it was accepted.
pub(crate) fn is_accepted<J: Centre, R: Wait>(
    rt: &R,
    alloc: Global,
    session: &mut Session<J>,
    sequence: u32,
) -> bool {
    let Some(command) = update(alloc, session.station(), sequence) else {
        return false;
    };
    matches!(session.submit(rt, command), Answer::Accepted { .. })
}

// `TOGETHER` commands that attach this station's radio. The first has the sequence `first`, each later one the next.
fn updates(alloc: Global, station: Station, first: u32) -> Option<Vec<Command<Global>>> {
    let mut commands = Vec::with_capacity(alloc, TOGETHER as usize).ok()?;
    for k in 0..TOGETHER {
        commands
            .push(update(alloc, station, first.saturating_add(k))?)
            .ok()?;
    }
    Some(commands)
}

// Whether all of these commands are of this station.
fn are_of(station: Station, commands: &[Command<Global>]) -> bool
    ensures { IsTrue result → All (λ c. c.station ≡ station) commands.now }
{
    for k in 0..commands.len() {
        let command: &Command<Global> = &commands[k];
        if command.station != station {
            return false;
        }
    }
    true
}

// How many of the answers are those to commands that were accepted.
fn accepted_among<J: Centre>(answers: &Vec<Answer<J>>) -> u64 {
    let mut accepted: u64 = 0;
    for answer in answers {
        if matches!(answer, Answer::Accepted { .. }) {
            accepted = accepted.saturating_add(1);
        }
    }
    accepted
}

/// Submits `TOGETHER` commands in one call, from the sequence `first` on, and returns how many were accepted. `None` if memory runs out,
/// or if so many are more than the session's share.
pub(crate) fn accepted_together<J: Centre, R: Wait>(
    rt: &R,
    alloc: Global,
    session: &mut Session<J>,
    first: u32,
) -> Option<u64> {
    let commands = updates(alloc, session.station(), first)?;
    if !are_of(session.station(), &commands) || commands.len() > session.share() {
        return None;
    }
    let mut answers = Vec::with_capacity(alloc, commands.len()).ok()?;
    session.submit_all(rt, &commands, &mut answers);
    Some(accepted_among(&answers))
}
