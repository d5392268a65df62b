//! Registers whose radios are present.
use centre_core::{Command, Register};
use probe_live_register::{LiveRegister, command_for, limits};
use snapshots::Centre;
use std::alloc::Global;
use std::sync::{Arc, Wait};

/// How many radios each register has room for.
pub const RADIOS: u32 = 1_000;

/// An empty register with room for that many.
pub fn empty(alloc: Global) -> Option<Register<Global>> {
    Register::new(alloc, limits(RADIOS)?).ok()
}

/// The command of this number. Command 1 sets the rule, and each later one attaches one of the radios.
pub fn attach(alloc: Global, number: u32) -> Option<Arc<Command<Global>, Global>> {
    let command = command_for(alloc, number, 2 + number % RADIOS)?;
    Arc::new(alloc, command).ok()
}

/// Sets the rule, attaches all radios but one, and publishes that; whether all was done. The next command attaches the last
/// radio.
pub fn is_filled<J: Centre, R: Wait>(rt: &R, alloc: Global, live: &mut LiveRegister<J>) -> bool {
    for number in 1..=RADIOS {
        let Some(command) = attach(alloc, number) else {
            return false;
        };
        if !live.apply(command) {
            return false;
        }
    }
    live.publish(rt).is_ok()
}
