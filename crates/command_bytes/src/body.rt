// The bodies of commands, as they are read.
ghost use Rattle.std.specs.Prelude.{◌≡◌, IfOk, IsSome, OnErr, option_map};
ghost use Rattle.centre_core.specs.Ranges.{IsShort, pdu_of};
ghost use Rattle.command_bytes.specs.Reading.{body_at, delete_at, group_sds_at, mm_at, rule_clear_at, rule_set_at, sds_at, sent_at};
ghost use Rattle.command_bytes.specs.Views.{body_view};

use crate::bits::{PackedBits, bits};
use crate::fields::{area, area_of, gtsi_of, itsi_of, key, number, prefix, rule};
use centre_core::Body;
use identity::{Gtsi, Itsi, Prefix};
use mailbox::Key;
use registration::{LocationArea, Rule};
use std::alloc::{AllocError, Allocator};

/// What a command asks. Its PDU is still in the bytes it was read from.
#[derive(Drop)]
pub enum ReadBody<'a> {
    RuleSet {
        prefix: Prefix,
        rule: Rule,
    },
    RuleClear {
        prefix: Prefix,
    },
    Mm {
        itsi: Itsi,
        area: LocationArea,
        pdu: PackedBits<'a>,
    },
    Sds {
        source: Itsi,
        destination: Itsi,
        pdu: PackedBits<'a>,
    },
    GroupSds {
        source: Itsi,
        group: Gtsi,
        pdu: PackedBits<'a>,
    },
    Sent(Key),
    Expire,
    Delete(Key),
}

impl<'a> ReadBody<'a> {
    /// A copy of the body, with the PDU in memory of its own.
    pub fn copy<A: Allocator>(&self, alloc: A) -> Result<Body<A>, AllocError>
        ensures body { IfOk result (λ body. body ≡ body_view self.now) }
        ensures short { IfOk result (λ body. IsShort (pdu_of body)) }
        ensures memory { OnErr result (IsSome (pdu_of (body_view {A = A} self.now))) }
    {
        match self {
            ReadBody::RuleSet { prefix, rule } => Ok(Body::RuleSet {
                prefix: *prefix,
                rule: *rule,
            }),
            ReadBody::RuleClear { prefix } => Ok(Body::RuleClear { prefix: *prefix }),
            ReadBody::Mm { itsi, area, pdu } => Ok(Body::Mm {
                itsi: *itsi,
                area: *area,
                pdu: pdu.copy(alloc)?,
            }),
            ReadBody::Sds {
                source,
                destination,
                pdu,
            } => Ok(Body::Sds {
                source: *source,
                destination: *destination,
                pdu: pdu.copy(alloc)?,
            }),
            ReadBody::GroupSds { source, group, pdu } => Ok(Body::GroupSds {
                source: *source,
                group: *group,
                pdu: pdu.copy(alloc)?,
            }),
            ReadBody::Sent(key) => Ok(Body::Sent(*key)),
            ReadBody::Expire => Ok(Body::Expire),
            ReadBody::Delete(key) => Ok(Body::Delete(*key)),
        }
    }
}

#[tactic(auto, unfolding(crate::specs::Reading::rule_set_at))]
fn rule_set<A: Allocator>(bytes: &[u8]) -> Option<(ReadBody<'_>, &[u8])>
    ensures { option_map (λ x. (body_view {A = A} x.0, x.1.now)) result ≡ rule_set_at bytes.now }
{
    let Some((prefix, rest)) = prefix(bytes) else {
        return None;
    };
    let Some((rule, rest)) = rule(rest) else {
        return None;
    };
    Some((ReadBody::RuleSet { prefix, rule }, rest))
}

#[tactic(auto, unfolding(crate::specs::Reading::rule_clear_at))]
fn rule_clear<A: Allocator>(bytes: &[u8]) -> Option<(ReadBody<'_>, &[u8])>
    ensures { option_map (λ x. (body_view {A = A} x.0, x.1.now)) result ≡ rule_clear_at bytes.now }
{
    let Some((prefix, rest)) = prefix(bytes) else {
        return None;
    };
    Some((ReadBody::RuleClear { prefix }, rest))
}

#[tactic(auto, unfolding(crate::specs::Reading::mm_at))]
fn mm<A: Allocator>(bytes: &[u8]) -> Option<(ReadBody<'_>, &[u8])>
    ensures { option_map (λ x. (body_view {A = A} x.0, x.1.now)) result ≡ mm_at bytes.now }
{
    let (itsi, rest) = number(bytes, 6)?;
    let (area, rest) = area(rest)?;
    let (pdu, rest) = bits(rest)?;
    let body = ReadBody::Mm {
        itsi: itsi_of(itsi),
        area: area_of(area),
        pdu,
    };
    Some((body, rest))
}

#[tactic(auto, unfolding(crate::specs::Reading::sds_at))]
fn sds<A: Allocator>(bytes: &[u8]) -> Option<(ReadBody<'_>, &[u8])>
    ensures { option_map (λ x. (body_view {A = A} x.0, x.1.now)) result ≡ sds_at bytes.now }
{
    let (source, rest) = number(bytes, 6)?;
    let (destination, rest) = number(rest, 6)?;
    let (pdu, rest) = bits(rest)?;
    let body = ReadBody::Sds {
        source: itsi_of(source),
        destination: itsi_of(destination),
        pdu,
    };
    Some((body, rest))
}

#[tactic(auto, unfolding(crate::specs::Reading::group_sds_at))]
fn group_sds<A: Allocator>(bytes: &[u8]) -> Option<(ReadBody<'_>, &[u8])>
    ensures { option_map (λ x. (body_view {A = A} x.0, x.1.now)) result ≡ group_sds_at bytes.now }
{
    let (source, rest) = number(bytes, 6)?;
    let (group, rest) = number(rest, 6)?;
    let (pdu, rest) = bits(rest)?;
    let body = ReadBody::GroupSds {
        source: itsi_of(source),
        group: gtsi_of(group),
        pdu,
    };
    Some((body, rest))
}

#[tactic(auto, unfolding(crate::specs::Reading::sent_at))]
fn sent<A: Allocator>(bytes: &[u8]) -> Option<(ReadBody<'_>, &[u8])>
    ensures { option_map (λ x. (body_view {A = A} x.0, x.1.now)) result ≡ sent_at bytes.now }
{
    let Some((key, rest)) = key(bytes) else {
        return None;
    };
    Some((ReadBody::Sent(key), rest))
}

#[tactic(auto, unfolding(crate::specs::Reading::delete_at))]
fn delete<A: Allocator>(bytes: &[u8]) -> Option<(ReadBody<'_>, &[u8])>
    ensures { option_map (λ x. (body_view {A = A} x.0, x.1.now)) result ≡ delete_at bytes.now }
{
    let Some((key, rest)) = key(bytes) else {
        return None;
    };
    Some((ReadBody::Delete(key), rest))
}

/// The body that the bytes after its tag begin with, and the bytes after it.
#[tactic(auto, unfolding(crate::specs::Reading::body_at))]
pub fn body<A: Allocator>(tag: u64, bytes: &[u8]) -> Option<(ReadBody<'_>, &[u8])>
    ensures { option_map (λ x. (body_view {A = A} x.0, x.1.now)) result ≡ body_at tag bytes.now }
{
    match tag {
        1 => rule_set::<A>(bytes),
        2 => rule_clear::<A>(bytes),
        3 => mm::<A>(bytes),
        4 => sds::<A>(bytes),
        5 => sent::<A>(bytes),
        6 => Some((ReadBody::Expire, bytes)),
        7 => delete::<A>(bytes),
        8 => group_sds::<A>(bytes),
        _ => None,
    }
}
