// The fields of a command, as they are read. Each function returns the value and the bytes after it.
ghost use Rattle.std.specs.Prelude.{◌≡◌, ◌≤◌, ◌<◌, ◌*◌, ◌^◌, IfSome, option_map};
ghost use Rattle.identity.specs.Number.{num};
ghost use Rattle.command_bytes.specs.Fields.{number_at, unpadded};
ghost use Rattle.command_bytes.specs.Reading.{area_at, key_at, kind_of, lifetime_at, prefix_at, rule_at};

use byteorder::{BigEndian, ByteOrder};
use identity::{Gtsi, Itsi, Prefix};
use mailbox::{Key, Kind};
use mm_pdus::Lifetime;
use registration::{LocationArea, Rule};
use sds_tl::MessageReference;

/// The number in the first `width` bytes (1 to 8), the highest first, and the bytes after them; `None` where there are
/// fewer bytes.
#[inline(always)]
#[tactic(auto, unfolding(crate::specs::Fields::number_at))]
pub fn number(bytes: &[u8], width: usize) -> Option<(u64, &[u8])>
    requires low { 1 ≤ width }
    requires high { width ≤ 8 }
    ensures value { option_map (λ x. (x.0, x.1.now)) result ≡ number_at width bytes.now }
    ensures small { IfSome result (λ x. x.0 < 256 ^ width) }
{
    if bytes.len() < width {
        return None;
    }
    Some((BigEndian::read_uint(bytes, width), &bytes[width..]))
}

/// The ITSI with this number.
pub fn itsi_of(number: u64) -> Itsi
    requires { number < 2 ^ 48 }
    ensures { result ≡ number }
{
    Itsi::from_number(number).unwrap()
}

/// The GTSI with this number.
pub fn gtsi_of(number: u64) -> Gtsi
    requires { number < 2 ^ 48 }
    ensures { result ≡ number }
{
    Gtsi::from_number(number).unwrap()
}

/// The location area with this number.
pub fn area_of(number: u64) -> LocationArea
    requires { number < 2 ^ 14 }
    ensures { result ≡ number }
{
    LocationArea::new(number as u32).unwrap()
}

// The prefix of the first `len` of 48 bits; `None` where another bit is 1.
fn prefix_of(bits: u64, len: u64) -> Option<Prefix>
    requires bits { bits < 2 ^ 48 }
    requires len { len ≤ 48 }
    ensures { result ≡ unpadded len (num 48 bits) }
{
    Prefix::new(bits, len as u32)
}

/// A prefix: its length, and its bits from the left of 48.
#[tactic(auto, unfolding(crate::specs::Reading::prefix_at, crate::specs::Fields::left_at))]
pub fn prefix(bytes: &[u8]) -> Option<(Prefix, &[u8])>
    ensures { option_map (λ x. (x.0, x.1.now)) result ≡ prefix_at bytes.now }
{
    let (len, rest) = number(bytes, 1)?;
    if len > 48 {
        return None;
    }
    let (bits, rest) = number(rest, 6)?;
    Some((prefix_of(bits, len)?, rest))
}

/// A location area's number.
#[tactic(auto, unfolding(crate::specs::Reading::area_at))]
pub fn area(bytes: &[u8]) -> Option<(u64, &[u8])>
    ensures value { option_map (λ x. (x.0, x.1.now)) result ≡ area_at bytes.now }
    ensures small { IfSome result (λ x. x.0 < 2 ^ 14) }
{
    let (number, rest) = number(bytes, 2)?;
    if number >= 1 << 14 {
        return None;
    }
    Some((number, rest))
}

#[tactic(auto, unfolding(crate::specs::Reading::lifetime_at))]
fn lifetime(bytes: &[u8]) -> Option<(Lifetime, &[u8])>
    ensures { option_map (λ x. (x.0, x.1.now)) result ≡ lifetime_at bytes.now }
{
    let (number, rest) = number(bytes, 1)?;
    Some((Lifetime::from_number(number as u8)?, rest))
}

/// A rule: its lowest and highest location area, its lifetime and its keep.
#[tactic(auto, unfolding(crate::specs::Reading::rule_at))]
pub fn rule(bytes: &[u8]) -> Option<(Rule, &[u8])>
    ensures { option_map (λ x. (x.0, x.1.now)) result ≡ rule_at bytes.now }
{
    let (low, rest) = area(bytes)?;
    let (high, rest) = area(rest)?;
    let (lifetime, rest) = lifetime(rest)?;
    let (keep, rest) = number(rest, 4)?;
    let rule = Rule::new(area_of(low), area_of(high), lifetime, keep as u32)?;
    Some((rule, rest))
}

fn kind(number: u64) -> Option<Kind>
    ensures { result ≡ kind_of number }
{
    match number {
        0 => Some(Kind::Message),
        1 => Some(Kind::Report),
        _ => None,
    }
}

/// The key of a message or a report.
#[tactic(auto, unfolding(crate::specs::Reading::key_at))]
pub fn key(bytes: &[u8]) -> Option<(Key, &[u8])>
    ensures { option_map (λ x. (x.0, x.1.now)) result ≡ key_at bytes.now }
{
    let (destination, rest) = number(bytes, 6)?;
    let (source, rest) = number(rest, 6)?;
    let (reference, rest) = number(rest, 1)?;
    let (number, rest) = number(rest, 1)?;
    let key = Key {
        destination: itsi_of(destination),
        source: itsi_of(source),
        reference: MessageReference::new(reference as u8),
        kind: kind(number)?,
    };
    Some((key, rest))
}
