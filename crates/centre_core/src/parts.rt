//! The parts of a register.

use crate::last_accepted::LastAccepted;
use group_attach::Groups;
use mailbox::Mail;
use registration::Registry;
use std::alloc::Allocator;
use std::marker::Model;

/// The parts of a register. Each is sound by itself; `Register::from_parts` requires that they fit together.
#[derive(Drop)]
pub struct Parts<A: Allocator> {
    /// The allocator of the register.
    pub alloc: A,
    /// The rules and radios.
    pub registry: Registry<A>,
    /// The groups to which the radios are attached.
    pub groups: Groups<A>,
    /// The waiting items.
    pub mail: Mail<A>,
    /// Each station's last accepted command, if there is one. The entry of station 1 comes first.
    pub served: Vec<Option<LastAccepted<A>>, A>,
    /// How many commands were accepted.
    pub count: u64,
}

impl<A: Allocator> Model for Parts<A> {
    ghost use Rattle.centre_core.specs.State.{State, coded_state};

    ghost Value = { State };

    ghost coded = { coded_state };

    ghost view = { λ p. record { registered = p.registry; groups = p.groups; mail = p.mail; served = p.served.items; count = p.count } };
}
