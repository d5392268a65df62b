ghost use Rattle.std.specs.Prelude.{◌≡◌, ◌<◌, ◌≤◌, ◌^◌, ◌==◌, nat_lt, if◌then◌else◌, Some, None};
ghost use Rattle.sds_tl.specs.Identifier.{first_identifier};
ghost use Rattle.sds_tl.specs.Reading.{head_of};

use crate::MessageReference;
use identity::Bits;
use std::alloc::Allocator;
use std::marker::Model;

/// The first protocol identifier of a PDU with the transport layer SDS-TL (clause 29.4.3.9).
pub const FIRST_IDENTIFIER: u8 = 128;

/// The application that a PDU is for: a number from [`FIRST_IDENTIFIER`] to 255. 130 is text messaging.
#[derive(Clone, Copy, Debug, PartialEq, Eq)]
pub struct ProtocolIdentifier {
    number: u8,
}

impl Model for ProtocolIdentifier {
    ghost use Rattle.std.specs.Prelude.{ℕ, ◌<◌, ◌≤◌, ◌^◌};
    ghost use Rattle.sds_tl.specs.Identifier.{first_identifier};

    ghost Value = { ℕ };

    ghost view = { λ p. p.number };

    ghost invariant = { λ p. (first_identifier ≤ p.number) × (p.number < 2 ^ 8) };

    ghost inverse = { λ n. record { number = n } };
}

impl ProtocolIdentifier {
    /// The identifier of this number; `None` below [`FIRST_IDENTIFIER`].
    pub fn new(number: u8) -> Option<ProtocolIdentifier>
        ensures { result ≡ (if nat_lt number first_identifier then None else Some number) }
    {
        if number < FIRST_IDENTIFIER {
            return None;
        }
        Some(ProtocolIdentifier { number })
    }

    /// Its number.
    pub fn number(&self) -> u8
        ensures value { result ≡ self.now }
        ensures taken { first_identifier ≤ result }
    {
        self.number
    }
}

/// The events of which the sender of a message wants a report.
#[derive(Clone, Copy, Debug, PartialEq, Eq, Drop)]
pub enum DeliveryReportRequest {
    /// None.
    None,
    /// The message was received.
    Received,
    /// The message was consumed.
    Consumed,
    /// Both.
    Both,
}

/// What became of a message: a number of 8 bits. This switch knows two of them.
#[derive(Clone, Copy, Debug, PartialEq, Eq)]
pub struct DeliveryStatus {
    code: u8,
}

impl Model for DeliveryStatus {
    ghost use Rattle.std.specs.Prelude.{ℕ, ◌<◌, ◌^◌};

    ghost Value = { ℕ };

    ghost view = { λ s. s.code };

    ghost invariant = { λ s. s.code < 2 ^ 8 };

    ghost inverse = { λ n. record { code = n } };
}

impl DeliveryStatus {
    /// The status of this code.
    pub fn new(code: u8) -> DeliveryStatus
        ensures { result ≡ code }
    {
        DeliveryStatus { code }
    }

    /// Its code.
    pub fn code(&self) -> u8
        ensures { result ≡ self.now }
    {
        self.code
    }

    /// Whether the destination acknowledged that it received the message.
    pub fn is_received(&self) -> bool
        ensures { result ≡ (self.now == 0) }
    {
        self.code == 0
    }

    /// Whether the destination consumed the message.
    pub fn is_consumed(&self) -> bool
        ensures { result ≡ (self.now == 2) }
    {
        self.code == 2
    }
}

/// The most bits that a PDU has.
pub const MOST_BITS: usize = 2047;

/// A PDU of the short data transport layer. It can't be written if its user data make it longer than [`MOST_BITS`].
#[derive(Drop)]
pub enum Sds<A: Allocator> {
    /// A message (SDS-TRANSFER).
    Transfer {
        /// The application that it is for.
        identifier: ProtocolIdentifier,
        /// Which delivery reports its sender asks for.
        request: DeliveryReportRequest,
        /// The bit for service selection or short form report.
        selection: bool,
        /// The reference by which reports name the message.
        reference: MessageReference,
        /// The message itself: any bits, which the switch does not read.
        user_data: Bits<A>,
    },
    /// What became of a message (SDS-REPORT).
    Report {
        /// The application that it is for.
        identifier: ProtocolIdentifier,
        /// Whether an acknowledgement is required.
        acknowledge: bool,
        /// What became of the message.
        status: DeliveryStatus,
        /// The reference of the message.
        reference: MessageReference,
        /// Any bits, which the switch does not read.
        user_data: Bits<A>,
    },
    /// The acknowledgement of a report (SDS-ACK).
    Ack {
        /// The application that it is for.
        identifier: ProtocolIdentifier,
        /// The status of the report.
        status: DeliveryStatus,
        /// The reference of the message.
        reference: MessageReference,
    },
}

/// The fields of a PDU by which the switch decides: all but its user data, protocol identifier and service selection.
/// Each field has the meaning that it has in [`Sds`].
#[derive(Clone, Copy, Debug, PartialEq, Eq, Drop)]
pub enum Head {
    /// A message.
    Transfer {
        request: DeliveryReportRequest,
        reference: MessageReference,
    },
    /// What became of a message.
    Report {
        acknowledge: bool,
        status: DeliveryStatus,
        reference: MessageReference,
    },
    /// The acknowledgement of a report.
    Ack {
        status: DeliveryStatus,
        reference: MessageReference,
    },
}

impl<A: Allocator> Sds<A> {
    /// Its head.
    pub fn head(&self) -> Head
        ensures { result ≡ head_of self.now }
    {
        match self {
            Sds::Transfer {
                request,
                reference,
                ..
            } => Head::Transfer {
                request: *request,
                reference: *reference,
            },
            Sds::Report {
                acknowledge,
                status,
                reference,
                ..
            } => Head::Report {
                acknowledge: *acknowledge,
                status: *status,
                reference: *reference,
            },
            Sds::Ack {
                status,
                reference,
                ..
            } => Head::Ack {
                status: *status,
                reference: *reference,
            },
        }
    }
}
