//! A register that is kept on a disk, as a desk: each command is a commit of one command.
ghost use Rattle.std.specs.Prelude.{◌≡◌, ◌≤◌, ◌∷◌, [], IfErr, IfOk, IsErrOf, OnErr, OnOk, true, vec_capacity, vec_len};
ghost use Rattle.desk.specs.Listed.{IsListed, IsUnlisted};
ghost use Rattle.desk.specs.OfStore.{Stored, of_store};
ghost use Rattle.desk.specs.Replies.{HasShortPdu};
ghost use Rattle.desk.specs.declared.outage.Outage.TheVariants.{Epochs, Memory};
ghost use Rattle.recovery.specs.AfterCommit.{HasRoom};
ghost use Rattle.recovery.specs.Calls.{LacksRoom, fits_in};
ghost use Rattle.recovery.specs.Lives.{IsAnsweredOnHonest, IsUnansweredOnHonest, view_of};
ghost use Rattle.recovery.specs.Refusals.{IsOfDesk};
ghost use Rattle.recovery.specs.Serving.{DeskCalls, HoldsOne, IsWordFor, stored_in, stored_of};
ghost use Rattle.recovery.specs.declared.outcome.Outcome.TheVariants.{Replied};

use crate::{Store, StoreFault};
use centre_core::laws::registers;
use centre_core::{Command, Query, QueryAnswer, Reply};
use desk::{Desk, MOST_TOGETHER, Outage};
use listings::{Listing, print_listing};
use sector_disk::Disk;
use std::alloc::Allocator;

impl<A: Allocator + Copy, B: Allocator + Copy, D: Disk> Desk<A> for Store<B, D> {
    ghost World = { Stored };

    ghost world = { λ store. stored_of (D.view store.disk).failures store.epoch store.broken store.before.value store.register };

    ghost rules = { of_store };

    ghost most = { λ store. 64 };

    fn most_together(&self) -> usize {
        MOST_TOGETHER
    }

    fn apply(&mut self, alloc: A, command: &Command<A>) -> Result<Reply<A>, Outage>
        ensures applies { of_store.applies (stored_in D.view self.old) command.now result (stored_in D.view self.new) }
        ensures short { IfOk result HasShortPdu }

        // What is on the disk, at any moment and at the end. A broken store does nothing.
        ensures on_disk { HoldsOne B D.view (view_of self.old) (view_of self.new) command.now }
        ensures broken { self.old.broken ≡ true → self.new ≡ self.old }
        ensures honest { (D.view self.old.disk).honest → (D.view self.new.disk).honest }
        ensures layout { self.new.layout ≡ self.old.layout }
        ensures found { self.new.found.value ≡ self.old.found.value }

        // A checkpoint is made first only if a record of the command would not fit. The other calls of the disk are those of a
        // commit of this one command.
        ensures calls { DeskCalls B D.view (view_of self.old) (view_of self.new)
            (fits_in B self.old.journal (command.entry ∷ [])) (command.now ∷ []) result }

        // Out of memory, if a record of the command fits, the side that counts, its journal and a checkpoint under way stay as
        // they were; else a checkpoint was made. The epochs are used up only where no record of the command fits, and then the
        // disk is not called.
        ensures memory { IsErrOf result Memory → HasRoom (view_of self.old) (view_of self.new) (fits_in B self.old.journal (command.entry ∷ [])) }
        ensures epochs { IsErrOf result Epochs → LacksRoom B self.old.journal (command.entry ∷ []) × (self.new.disk ≡ self.old.disk) }

        // In the life of the disk this is a call that is answered with this reply, or one that is not answered.
        ensures answered { IfOk result (λ reply. IsAnsweredOnHonest B D.view (view_of self.old) (command.now ∷ []) (Replied reply ∷ []) (view_of self.new)) }
        ensures unanswered { OnErr result (IsUnansweredOnHonest B D.view (view_of self.old) (command.now ∷ []) (view_of self.new)) }
    {
        registers(&self.register);
        match self.commit_one(alloc, command) {
            Ok(reply) => Ok(reply),
            Err(fault) => Err(outage_of(fault)),
        }
    }

    fn query(&mut self, alloc: A, query: &Query) -> Result<QueryAnswer<A>, Outage>
        ensures answers { of_store.answers (stored_in D.view self.old) query.now result (stored_in D.view self.new) }

        // Neither the store nor its disk is touched.
        ensures same { self.new ≡ self.old }
    {
        let Some(register) = self.register() else {
            return Err(Outage::Broken);
        };
        match register.query(alloc, query) {
            Ok(answer) => Ok(answer),
            Err(_) => Err(Outage::Memory),
        }
    }

    fn list(&mut self, listing: &Listing, out: &mut Vec<u8, A>) -> Result<(), Outage>
        ensures listed { OnOk result (IsListed (of_store {A = A}) (stored_in D.view self.old) listing.now
            out.old.items out.new.items (stored_in D.view self.new)) }
        ensures unlisted { IfErr result (λ word. IsUnlisted (of_store {A = A}) (stored_in D.view self.old) listing.now
            (vec_len out.old) (vec_capacity out.old) word (stored_in D.view self.new)) }
        ensures unchanged { OnErr result (out.new.items ≡ out.old.items) }
        ensures capacity { vec_capacity out.old ≤ vec_capacity out.new }

        // Neither the store nor its disk is touched.
        ensures same { self.new ≡ self.old }
    {
        match self.register() {
            None => Err(Outage::Broken),
            Some(register) => match print_listing(out, register, listing) {
                Ok(()) => Ok(()),
                Err(_) => Err(Outage::Memory),
            },
        }
    }
}

// The outage word for a fault of a desk's commit.
fn outage_of(fault: StoreFault) -> Outage
    requires { IsOfDesk fault }
    ensures { IsWordFor fault result }
{
    match fault {
        StoreFault::DiskFault => Outage::Device,
        StoreFault::Broken => Outage::Broken,
        StoreFault::EpochsUsedUp => Outage::Epochs,
        StoreFault::NoMemory => Outage::Memory,
        StoreFault::Unformatted
        | StoreFault::BadGeometry
        | StoreFault::Damaged(_)
        | StoreFault::Unready => unreachable!(),
    }
}
