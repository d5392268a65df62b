//! What is kept of each station.
ghost use Rattle.std.specs.Prelude.{◌≡◌, ◌<◌, ◌≤◌, ◌+◌, ◌-◌, IfOk, OnErr, IsTrue, length, replicate, slice_set, vec_len, None, Some};
ghost use Rattle.centre_core.specs.State.{last_number};
ghost use Rattle.centre_core.specs.Memory.{is_long};
ghost use Rattle.centre_core.specs.declared.reply.Reply.TheVariants.{Kept};

use crate::{Command, Reply, Sequence};
use identity::Bits;
use std::alloc::{AllocError, Allocator};
use std::marker::Model;

/// What is kept of a station's last accepted command.
#[derive(Drop)]
pub struct LastAccepted<A: Allocator> {
    /// Its sequence.
    pub sequence: Sequence,
    /// The number under which it was accepted.
    pub number: u64,
    /// The PDU of its reply.
    pub pdu: Option<Bits<A>>,
}

impl<A: Allocator> Model for LastAccepted<A> {
    ghost use Rattle.centre_core.specs.State.{LastAccepted, coded_last_accepted};

    ghost Value = { LastAccepted };

    ghost coded = { coded_last_accepted };

    ghost view = { λ s. record { sequence = s.sequence; number = s.number; pdu = s.pdu } };
}

impl<A: Allocator> LastAccepted<A> {
    /// The reply to a resend of that command. Only a PDU of more than 64 bits takes memory.
    pub(crate) fn kept_reply<B: Allocator>(&self, alloc: B) -> Result<Reply<B>, AllocError>
        ensures ok { IfOk result (λ reply. reply ≡ Kept self.now.number self.now.pdu) }
        ensures memory { OnErr result (IsTrue (is_long self.now.pdu)) }
    {
        Ok(Reply::Kept {
            number: self.number,
            pdu: copy_of(alloc, &self.pdu)?,
        })
    }

    fn copy<B: Allocator>(&self, alloc: B) -> Result<LastAccepted<B>, AllocError>
        ensures { IfOk result (λ copy. copy ≡ self.now) }
    {
        Ok(LastAccepted {
            sequence: self.sequence,
            number: self.number,
            pdu: copy_of(alloc, &self.pdu)?,
        })
    }
}

/// As many entries as there are stations, with no command accepted.
pub fn none_accepted<A: Allocator + Clone>(
    alloc: &A,
    stations: u32,
) -> Result<Vec<Option<LastAccepted<A>>, A>, AllocError>
    ensures { IfOk result (λ served. served.items ≡ replicate stations None) }
{
    let mut served = Vec::new(alloc.clone()?);
    for _ in 0..stations {
        served.push(None)?;
    }
    Ok(served)
}

/// Counts an accepted command, and keeps its sequence, number and PDU in the entry of its station. It takes no
/// memory.
pub(crate) fn count_accepted<A: Allocator, B: Allocator>(
    served: &mut Vec<Option<LastAccepted<A>>, A>,
    count: &mut u64,
    command: &Command<B>,
    pdu: Option<Bits<A>>,
)
    requires left { count.old < last_number }
    requires station { 0 < command.now.station }
    requires place { command.now.station ≤ vec_len served.old }
    ensures count { count.new ≡ count.old + 1 }
    ensures kept { served.new.items ≡ slice_set served.old.items (command.now.station - 1)
        (Some (record { sequence = command.now.sequence; number = count.old + 1; pdu = pdu })) }
{
    *count += 1;
    served[usize::from(command.station.number()) - 1] = Some(LastAccepted {
        sequence: command.sequence,
        number: *count,
        pdu,
    });
}

/// A copy of the entries.
pub(crate) fn copy_all<A: Allocator + Clone>(
    alloc: &A,
    served: &[Option<LastAccepted<A>>],
) -> Result<Vec<Option<LastAccepted<A>>, A>, AllocError>
    ensures { IfOk result (λ copy. copy.items ≡ served.now) }
{
    let mut copy = Vec::new(alloc.clone()?);
    for entry in served {
        copy.push(copied_entry(alloc.clone()?, entry)?)?;
    }
    Ok(copy)
}

fn copied_entry<A: Allocator, B: Allocator>(
    alloc: B,
    entry: &Option<LastAccepted<A>>,
) -> Result<Option<LastAccepted<B>>, AllocError>
    ensures { IfOk result (λ copy. copy ≡ entry.now) }
{
    match entry {
        None => Ok(None),
        Some(last) => Ok(Some(last.copy(alloc)?)),
    }
}

/// A copy of a PDU, if there is one. Only more than 64 bits take memory.
#[tactic(auto, using(crate::proofs::ShortPdus::long_copy))]
pub(crate) fn copy_of<A: Allocator, B: Allocator>(
    alloc: B,
    pdu: &Option<Bits<A>>,
) -> Result<Option<Bits<B>>, AllocError>
    ensures ok { IfOk result (λ copy. copy ≡ pdu.now) }
    ensures memory { OnErr result (IsTrue (is_long pdu.now)) }
{
    match pdu {
        None => Ok(None),
        Some(bits) => Ok(Some(bits_copy(alloc, bits)?)),
    }
}

/// A copy of bits. Only more than 64 bits take memory.
pub(crate) fn bits_copy<A: Allocator, B: Allocator>(
    alloc: B,
    bits: &Bits<A>,
) -> Result<Bits<B>, AllocError>
    ensures ok { IfOk result (λ copy. copy ≡ bits.now) }
    ensures memory { OnErr result (64 < length bits.now) }
{
    match bits.try_copy(alloc) {
        Ok(copy) => Ok(copy),
        Err(_) => Err(AllocError),
    }
}
