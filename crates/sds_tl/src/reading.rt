//! Reading bits, each field at its place.

ghost use Rattle.std.specs.Prelude.{◌≡◌, ◌<◌, ◌≤◌, ◌^◌, ◌+◌, length, drop, IfOk, IfErr, Ok, None};
ghost use Rattle.sds_tl.specs.declared.fault.SdsFault.TheVariants.{NoMemory};
ghost use Rattle.sds_tl.specs.declared.pdu.Sds.{Sds};
ghost use Rattle.sds_tl.specs.Identifier.{first_identifier};
ghost use Rattle.sds_tl.specs.Values.{request_of};
ghost use Rattle.sds_tl.specs.Syntax.{Spells};
ghost use Rattle.sds_tl.specs.Reading.{field, flag, type_of, data_fault, ack_fault, fault, value, transfer, report, ack, head_value, reading, heading, Gives};

use crate::pieces::rest;
use crate::{
    DeliveryReportRequest, DeliveryStatus, FIRST_IDENTIFIER, Head, MOST_BITS, MessageReference,
    ProtocolIdentifier, Sds, SdsFault,
};
use identity::Bits;
use std::alloc::Allocator;

/// The `width` bits from place `at` on as a number.
pub fn field<A: Allocator>(bits: &Bits<A>, at: usize, width: u32) -> u64
    requires width { width ≤ 48 }
    requires room { at + width ≤ length bits.now }
    ensures value { result ≡ field at width bits.now }
    ensures small { result < 2 ^ width }
{
    bits.number(at, width)
}

/// The bit at place `at`.
fn flag<A: Allocator>(bits: &Bits<A>, at: usize) -> bool
    requires { at < length bits.now }
    ensures { result ≡ flag at bits.now }
{
    field(bits, at, 1) == 1
}

/// The first fault of a message or a report from its storage control on; its user data begin at `begin`.
#[tactic(auto, unfolding(crate::specs::Reading::data_fault))]
fn data_fault<A: Allocator>(bits: &Bits<A>, begin: usize) -> Option<SdsFault>
    requires { 16 ≤ length bits.now }
    ensures { result ≡ data_fault begin bits.now }
{
    if flag(bits, 15) {
        return Some(SdsFault::StorageControl);
    }
    if bits.len() < begin {
        return Some(SdsFault::Short);
    }
    None
}

/// The first fault of an acknowledgement from its delivery status on.
#[tactic(auto, unfolding(crate::specs::Reading::ack_fault))]
fn ack_fault<A: Allocator>(bits: &Bits<A>) -> Option<SdsFault>
    ensures { result ≡ ack_fault bits.now }
{
    if bits.len() < 32 {
        return Some(SdsFault::Short);
    }
    if bits.len() > 32 {
        return Some(SdsFault::Trailing);
    }
    None
}

/// The first fault from the left, if there is one.
#[tactic(auto, unfolding(crate::specs::Reading::fault))]
pub fn fault<A: Allocator>(bits: &Bits<A>) -> Option<SdsFault>
    ensures { result ≡ fault bits.now }
{
    if bits.len() > MOST_BITS {
        return Some(SdsFault::TooLong);
    }
    if bits.len() < 8 {
        return Some(SdsFault::Short);
    }
    if field(bits, 0, 8) < u64::from(FIRST_IDENTIFIER) {
        return Some(SdsFault::NotSdsTl);
    }
    if bits.len() < 12 {
        return Some(SdsFault::Short);
    }
    let kind = field(bits, 8, 4);
    if kind > 2 {
        return Some(SdsFault::UnknownType);
    }
    if bits.len() < 16 {
        return Some(SdsFault::Short);
    }
    match kind {
        0 => data_fault(bits, 24),
        1 => data_fault(bits, 32),
        _ => ack_fault(bits),
    }
}

fn identifier<A: Allocator>(bits: &Bits<A>) -> ProtocolIdentifier
    requires room { 8 ≤ length bits.now }
    requires layer { first_identifier ≤ field 0 8 bits.now }
    ensures { result ≡ field 0 8 bits.now }
{
    ProtocolIdentifier::new(field(bits, 0, 8) as u8).unwrap()
}

fn request<A: Allocator>(bits: &Bits<A>) -> DeliveryReportRequest
    requires { 14 ≤ length bits.now }
    ensures { result ≡ request_of (flag 12 bits.now) (flag 13 bits.now) }
{
    match (flag(bits, 12), flag(bits, 13)) {
        (false, false) => DeliveryReportRequest::None,
        (false, true) => DeliveryReportRequest::Received,
        (true, false) => DeliveryReportRequest::Consumed,
        (true, true) => DeliveryReportRequest::Both,
    }
}

/// The octet at place `at`.
fn octet<A: Allocator>(bits: &Bits<A>, at: usize) -> u8
    requires { at + 8 ≤ length bits.now }
    ensures { result ≡ field at 8 bits.now }
{
    field(bits, at, 8) as u8
}

fn status<A: Allocator>(bits: &Bits<A>) -> DeliveryStatus
    requires { 24 ≤ length bits.now }
    ensures { result ≡ field 16 8 bits.now }
{
    DeliveryStatus::new(octet(bits, 16))
}

/// The message reference at place `at`.
fn reference<A: Allocator>(bits: &Bits<A>, at: usize) -> MessageReference
    requires { at + 8 ≤ length bits.now }
    ensures { result ≡ field at 8 bits.now }
{
    MessageReference::new(octet(bits, at))
}

fn transfer<A: Allocator, B: Allocator>(alloc: A, bits: &Bits<B>) -> Result<Sds<A>, SdsFault>
    requires room { 24 ≤ length bits.now }
    requires layer { first_identifier ≤ field 0 8 bits.now }
    ensures ok { IfOk result (λ sds. sds ≡ transfer bits.now) }
    ensures err { IfErr result (λ e. e ≡ NoMemory) }
{
    Ok(Sds::Transfer {
        identifier: identifier(bits),
        request: request(bits),
        selection: flag(bits, 14),
        reference: reference(bits, 16),
        user_data: rest(alloc, bits, 24)?,
    })
}

fn report<A: Allocator, B: Allocator>(alloc: A, bits: &Bits<B>) -> Result<Sds<A>, SdsFault>
    requires room { 32 ≤ length bits.now }
    requires layer { first_identifier ≤ field 0 8 bits.now }
    ensures ok { IfOk result (λ sds. sds ≡ report bits.now) }
    ensures err { IfErr result (λ e. e ≡ NoMemory) }
{
    Ok(Sds::Report {
        identifier: identifier(bits),
        acknowledge: flag(bits, 12),
        status: status(bits),
        reference: reference(bits, 24),
        user_data: rest(alloc, bits, 32)?,
    })
}

fn ack<A: Allocator, B: Allocator>(bits: &Bits<B>) -> Sds<A>
    requires room { 32 ≤ length bits.now }
    requires layer { first_identifier ≤ field 0 8 bits.now }
    ensures { result ≡ ack bits.now }
{
    Sds::Ack {
        identifier: identifier(bits),
        status: status(bits),
        reference: reference(bits, 24),
    }
}

/// The PDU of bits without a fault.
#[tactic(auto, unfolding(crate::specs::Reading::value), using(crate::proofs::Fitting::fields_fit))]
fn value<A: Allocator, B: Allocator>(alloc: A, bits: &Bits<B>) -> Result<Sds<A>, SdsFault>
    requires { fault bits.now ≡ None }
    ensures ok { IfOk result (λ sds. sds ≡ value bits.now) }
    ensures err { IfErr result (λ e. e ≡ NoMemory) }
{
    match field(bits, 8, 4) {
        0 => transfer(alloc, bits),
        1 => report(alloc, bits),
        _ => Ok(ack(bits)),
    }
}

/// The head of the PDU of bits without a fault.
#[tactic(auto, unfolding(crate::specs::Reading::head_value), using(crate::proofs::Fitting::head_fits))]
fn head_value<A: Allocator>(bits: &Bits<A>) -> Head
    requires { fault bits.now ≡ None }
    ensures { result ≡ head_value bits.now }
{
    match field(bits, 8, 4) {
        0 => Head::Transfer {
            request: request(bits),
            reference: reference(bits, 16),
        },
        1 => Head::Report {
            acknowledge: flag(bits, 12),
            status: status(bits),
            reference: reference(bits, 24),
        },
        _ => Head::Ack {
            status: status(bits),
            reference: reference(bits, 24),
        },
    }
}

fn read_sds<A: Allocator, B: Allocator>(alloc: A, bits: &Bits<B>) -> Result<Sds<A>, SdsFault>
    ensures { Gives result (reading bits.now) }
{
    match fault(bits) {
        Some(fault) => Err(fault),
        None => value(alloc, bits),
    }
}

/// The PDU that all of the bits spell; else the first fault from the left.
pub fn read<A: Allocator, B: Allocator>(alloc: A, bits: &Bits<B>) -> Result<Sds<A>, SdsFault>
    // If a PDU is read, the bits spell it.
    ensures found { IfOk result (λ sds. Spells sds bits.now) }
    // If the bits spell a PDU, it is read, unless memory runs out.
    ensures only { (sds : Sds A) → Spells sds bits.now → Gives result (Ok sds) }
    // Else the result is the first fault.
    ensures exact { Gives result (reading bits.now) }
{
    read_sds(alloc, bits)
}

/// The head of the PDU that the bits spell; else the first fault from the left. Takes no memory.
pub fn head<A: Allocator>(bits: &Bits<A>) -> Result<Head, SdsFault>
    ensures { result ≡ heading bits.now }
{
    match fault(bits) {
        Some(fault) => Err(fault),
        None => Ok(head_value(bits)),
    }
}
