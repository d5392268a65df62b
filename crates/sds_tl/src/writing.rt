ghost use Rattle.std.specs.Prelude.{◌≡◌, ◌<◌, ◌≤◌, ◌^◌, ◌++◌, ◌∷◌, [], nat_lt, false, length, replicate, take, drop, OnOk, IfOk, IfErr};
ghost use Rattle.identity.specs.Number.{num};
ghost use Rattle.sds_tl.specs.declared.fault.SdsFault.TheVariants.{NoMemory};
ghost use Rattle.sds_tl.specs.Identifier.{first_identifier};
ghost use Rattle.sds_tl.specs.Values.{code_of};
ghost use Rattle.sds_tl.specs.Syntax.{most_bits, canon, IsInRange, Spells};
ghost use Rattle.sds_tl.specs.Reading.{writing, Gives};

use crate::pieces::{put, put_left, put_reserved};
use crate::{
    DeliveryReportRequest, DeliveryStatus, MOST_BITS, MessageReference, ProtocolIdentifier, Sds,
    SdsFault,
};
use identity::{BitReader, BitWriter, Bits};
use std::alloc::Allocator;

fn put_bit<A: Allocator>(writer: &mut BitWriter<A>, bit: bool) -> Result<(), SdsFault>
    ensures ok { OnOk result (writer.new ≡ writer.old ++ bit ∷ []) }
    ensures err { IfErr result (λ e. e ≡ NoMemory) }
{
    put(writer, u64::from(bit), 1)
}

fn put_octet<A: Allocator>(writer: &mut BitWriter<A>, octet: u8) -> Result<(), SdsFault>
    ensures ok { OnOk result (writer.new ≡ writer.old ++ num 8 octet) }
    ensures err { IfErr result (λ e. e ≡ NoMemory) }
{
    put(writer, u64::from(octet), 8)
}

fn code(request: DeliveryReportRequest) -> u64
    ensures value { result ≡ code_of request }
    ensures small { result < 2 ^ 2 }
{
    match request {
        DeliveryReportRequest::None => 0,
        DeliveryReportRequest::Received => 1,
        DeliveryReportRequest::Consumed => 2,
        DeliveryReportRequest::Both => 3,
    }
}

/// Appends the protocol identifier and the message type.
#[tactic(auto, using(std::proofs::Common::append_assoc))]
fn put_start<A: Allocator>(
    writer: &mut BitWriter<A>,
    identifier: ProtocolIdentifier,
    kind: u64,
) -> Result<(), SdsFault>
    requires { kind < 2 ^ 4 }
    ensures ok { OnOk result (writer.new ≡ writer.old ++ (num 8 identifier ++ num 4 kind)) }
    ensures layer { first_identifier ≤ identifier }
    ensures fits { identifier < 2 ^ 8 }
    ensures err { IfErr result (λ e. e ≡ NoMemory) }
{
    put_octet(writer, identifier.number())?;
    put(writer, kind, 4)
}

/// Appends a message's status and its reference.
#[tactic(auto, using(std::proofs::Common::append_assoc))]
fn put_outcome<A: Allocator>(
    writer: &mut BitWriter<A>,
    status: DeliveryStatus,
    reference: MessageReference,
) -> Result<(), SdsFault>
    ensures ok { OnOk result (writer.new ≡ writer.old ++ (num 8 status ++ num 8 reference)) }
    ensures fits { status < 2 ^ 8 }
    ensures named { reference < 2 ^ 8 }
    ensures err { IfErr result (λ e. e ≡ NoMemory) }
{
    put_octet(writer, status.code())?;
    put_octet(writer, reference.number())
}

/// Appends the whole PDU.
#[tactic(auto, using(std::proofs::Common::append_assoc))]
fn put_sds<A: Allocator, B: Allocator>(
    writer: &mut BitWriter<A>,
    sds: &Sds<B>,
) -> Result<(), SdsFault>
    ensures ok { OnOk result (writer.new ≡ writer.old ++ canon sds.now) }
    ensures range { OnOk result (IsInRange sds.now) }
    ensures err { IfErr result (λ e. e ≡ NoMemory) }
{
    match sds {
        Sds::Transfer {
            identifier,
            request,
            selection,
            reference,
            user_data,
        } => {
            put_start(writer, *identifier, 0)?;
            put(writer, code(*request), 2)?;
            put_bit(writer, *selection)?;
            put_bit(writer, false)?;
            put_octet(writer, reference.number())?;
            put_left(writer, &mut BitReader::new(user_data))
        }
        Sds::Report {
            identifier,
            acknowledge,
            status,
            reference,
            user_data,
        } => {
            put_start(writer, *identifier, 1)?;
            put_bit(writer, *acknowledge)?;
            put_reserved(writer, 2)?;
            put_bit(writer, false)?;
            put_outcome(writer, *status, *reference)?;
            put_left(writer, &mut BitReader::new(user_data))
        }
        Sds::Ack {
            identifier,
            status,
            reference,
        } => {
            put_start(writer, *identifier, 2)?;
            put_reserved(writer, 4)?;
            put_outcome(writer, *status, *reference)
        }
    }
}

fn is_too_long<A: Allocator>(sds: &Sds<A>) -> bool
    ensures { result ≡ nat_lt most_bits (length (canon sds.now)) }
{
    match sds {
        Sds::Transfer { user_data, .. } => user_data.len() > MOST_BITS - 24,
        Sds::Report { user_data, .. } => user_data.len() > MOST_BITS - 32,
        Sds::Ack { .. } => false,
    }
}

fn write_sds<A: Allocator, B: Allocator>(alloc: A, sds: &Sds<B>) -> Result<Bits<A>, SdsFault>
    ensures exact { Gives result (writing sds.now) }
    ensures range { OnOk result (IsInRange sds.now) }
{
    if is_too_long(sds) {
        return Err(SdsFault::TooLong);
    }
    let mut writer = BitWriter::new(alloc);
    put_sds(&mut writer, sds)?;
    Ok(writer.finish())
}

/// The canonical text of the PDU; `SdsFault::TooLong` where it has more than 2,047 bits.
pub fn write<A: Allocator, B: Allocator>(alloc: A, sds: &Sds<B>) -> Result<Bits<A>, SdsFault>
    ensures exact { Gives result (writing sds.now) }
    // The bits spell the PDU, so `read` reads it back.
    ensures spelt { IfOk result (λ bits. Spells sds.now bits) }
{
    write_sds(alloc, sds)
}
