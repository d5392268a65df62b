// Applying a batch of commands to a register.
ghost use Rattle.std.specs.Prelude.{◌≡◌, ◌≤◌, ◌<◌, ◌+◌, ◌-◌, ◌++◌, ◌∷◌, [], IsTrue, OnErr, OnOk, length, map, replicate, vec_capacity, vec_len};
ghost use Rattle.centre_core.specs.Batches.{replies, taken};
ghost use Rattle.centre_core.specs.History.{next};
ghost use Rattle.centre_core.specs.Memory.{needs_memory};
ghost use Rattle.recovery.specs.Inside.Applied.{AreAccepted, AreAppliedInPart};
ghost use Rattle.recovery.specs.Outcomes.{AreApplied, IsAnswered, asked};
ghost use Rattle.recovery.specs.declared.outcome.Outcome.TheVariants.{NoMemory, Replied};

use crate::Outcome;
use centre_core::{Command, Register};
use std::alloc::{AllocError, Allocator};

// Applies a command and adds its reply to the outcomes. If the command is accepted, it is added to the accepted ones.
// Both lists have room. Out of memory, nothing is changed.
fn apply_one<'a, A: Allocator + Copy, B: Allocator, C: Allocator + Copy>(
    register: &mut Register<A>,
    alloc: C,
    command: &'a Command<B>,
    outcomes: &mut Vec<Outcome<C>, C>,
    accepted: &mut Vec<&'a Command<B>, C>,
) -> Result<(), AllocError>
    requires room { vec_len outcomes.old < vec_capacity outcomes.old }
    requires also { vec_len accepted.old < vec_capacity accepted.old }
    ensures register { OnOk result (register.new ≡ next register.old command.now) }
    ensures outcomes { OnOk result (outcomes.new.items ≡ outcomes.old.items ++ map Replied (replies C register.old (command.now ∷ []))) }
    ensures accepted { OnOk result (asked accepted.new.items ≡ asked accepted.old.items ++ taken register.old (command.now ∷ [])) }
    ensures places { OnOk result (vec_len outcomes.new ≡ vec_len outcomes.old + 1) }
    ensures also_places { vec_len accepted.new ≤ vec_len accepted.old + 1 }
    ensures capacity { vec_capacity outcomes.old ≤ vec_capacity outcomes.new }
    ensures also_capacity { vec_capacity accepted.old ≤ vec_capacity accepted.new }
    ensures same { OnErr result ((register.new ≡ register.old) × (outcomes.new.items ≡ outcomes.old.items)
        × (accepted.new.items ≡ accepted.old.items)) }
    ensures memory { OnErr result (IsTrue (needs_memory register.old command.now)) }
{
    let reply = register.apply(alloc, command)?;
    if reply.is_acceptance() {
        accepted.push(command).unwrap();
    }
    outcomes.push(Outcome::Replied(reply)).unwrap();
    Ok(())
}

// Applies commands in turn, up to the first one that runs out of memory. Both lists are empty, with room for all.
fn apply_in_turn<'a, A: Allocator + Copy, B: Allocator, C: Allocator + Copy>(
    register: &mut Register<A>,
    alloc: C,
    commands: &[&'a Command<B>],
    outcomes: &mut Vec<Outcome<C>, C>,
    accepted: &mut Vec<&'a Command<B>, C>,
) -> Result<(), AllocError>
    requires empty { outcomes.old.items ≡ [] }
    requires also_empty { accepted.old.items ≡ [] }
    requires room { length commands.now ≤ vec_capacity outcomes.old }
    requires also { length commands.now ≤ vec_capacity accepted.old }
    ensures all { OnOk result (AreApplied register.old (asked commands.now) (length commands.now) register.new outcomes.new.items (asked accepted.new.items)) }
    ensures some { OnErr result (AreAppliedInPart register.old (asked commands.now) register.new outcomes.new.items (asked accepted.new.items)) }
    ensures capacity { vec_capacity outcomes.old ≤ vec_capacity outcomes.new }
{
    for command in commands {
        apply_one(register, alloc, command, outcomes, accepted)?;
    }
    Ok(())
}

// Adds outcomes `NoMemory` until there are so many. The list has room for them.
fn fill_up<C: Allocator>(outcomes: &mut Vec<Outcome<C>, C>, count: usize)
    requires some { vec_len outcomes.old ≤ count }
    requires room { count ≤ vec_capacity outcomes.old }
    ensures { outcomes.new.items ≡ outcomes.old.items ++ replicate (count - vec_len outcomes.old) NoMemory }
{
    for _ in outcomes.len()..count {
        outcomes.push(Outcome::NoMemory).unwrap();
    }
}

/// Applies commands in turn, up to the first one that runs out of memory. Gives each command its outcome, and collects
/// the accepted ones. Both lists are empty, with room for all.
pub(crate) fn apply_all<'a, A: Allocator + Copy, B: Allocator, C: Allocator + Copy>(
    register: &mut Register<A>,
    alloc: C,
    commands: &[&'a Command<B>],
    outcomes: &mut Vec<Outcome<C>, C>,
    accepted: &mut Vec<&'a Command<B>, C>,
)
    requires empty { outcomes.old.items ≡ [] }
    requires also_empty { accepted.old.items ≡ [] }
    requires room { length commands.now ≤ vec_capacity outcomes.old }
    requires also { length commands.now ≤ vec_capacity accepted.old }
    ensures answered { IsAnswered register.old (asked commands.now) register.new outcomes.new.items }
    ensures accepted { AreAccepted A register.old register.new commands.now accepted.new.items }
{
    let _ = apply_in_turn(register, alloc, commands, outcomes, accepted);
    fill_up(outcomes, commands.len());
}
