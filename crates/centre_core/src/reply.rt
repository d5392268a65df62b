use crate::Sequence;
use group_attach::GroupFault;
use identity::Bits;
use mailbox::MailFault;
use mm_pdus::MmFault;
use registration::RegFault;
use sds_tl::SdsFault;
use std::alloc::Allocator;

/// The answer to a command.
#[derive(Drop)]
pub enum Reply<A: Allocator> {
    /// The command was accepted under this number, counted from 1 over all stations. The PDU goes
    /// back to the radio.
    Accepted { number: u64, pdu: Option<Bits<A>> },
    /// A resend of the station's last accepted command: its number and PDU. Nothing changed.
    Kept { number: u64, pdu: Option<Bits<A>> },
    /// Nothing changed.
    Refused(Refusal<A>),
}

/// Why a command is refused.
#[derive(Drop)]
pub enum Refusal<A: Allocator> {
    /// There is no station of that number.
    UnknownStation,
    /// The sequence is below that of the station's last accepted command.
    OldSequence { last: Sequence },
    /// All 2 to the 62nd numbers of accepted commands are used.
    NumbersUsedUp,
    /// The bits are no supported mobility management PDU.
    Pdu(MmFault),
    /// The bits are no supported short data PDU.
    ShortData(SdsFault),
    /// The rules or radios are not changed, and there is no PDU for the radio.
    Registration(RegFault),
    /// A location update is refused, with a D-LOCATION UPDATE REJECT for the radio.
    Location { fault: RegFault, reject: Bits<A> },
    /// The groups of a radio are not changed.
    Groups(GroupFault),
    /// The mail is not changed.
    Mail(MailFault),
}

impl<A: Allocator> Reply<A> {
    ghost use Rattle.std.specs.Prelude.{◌≡◌};
    ghost use Rattle.centre_core.specs.History.{is_acceptance};

    /// Whether it accepts its command as a new one.
    pub fn is_acceptance(&self) -> bool
        ensures { result ≡ is_acceptance self.now }
    {
        match self {
            Reply::Accepted { .. } => true,
            Reply::Kept { .. } | Reply::Refused(_) => false,
        }
    }
}
