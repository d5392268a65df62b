//! A register in memory as a desk.
ghost use Rattle.centre_core.specs.State.{State};
ghost use Rattle.desk.specs.OfRegister.{of_register};

use crate::desk::{Desk, MOST_TOGETHER};
use crate::outage::Outage;
use centre_core::laws::registers;
use centre_core::{Command, Query, QueryAnswer, Register, Reply};
use listings::{Listing, print_listing};
use std::alloc::Allocator;

impl<A: Allocator + Copy, B: Allocator + Copy> Desk<A> for Register<B> {
    ghost World = { State };

    ghost world = { λ register. register };

    ghost rules = { of_register };

    ghost most = { λ register. 64 };

    fn most_together(&self) -> usize {
        MOST_TOGETHER
    }

    fn apply(&mut self, alloc: A, command: &Command<A>) -> Result<Reply<A>, Outage> {
        registers(self);
        match Register::apply(self, alloc, command) {
            Ok(reply) => Ok(reply),
            Err(_) => Err(Outage::Memory),
        }
    }

    fn query(&mut self, alloc: A, query: &Query) -> Result<QueryAnswer<A>, Outage> {
        match Register::query(self, alloc, query) {
            Ok(answer) => Ok(answer),
            Err(_) => Err(Outage::Memory),
        }
    }

    fn list(&mut self, listing: &Listing, out: &mut Vec<u8, A>) -> Result<(), Outage> {
        match print_listing(out, self, listing) {
            Ok(()) => Ok(()),
            Err(_) => Err(Outage::Memory),
        }
    }
}
