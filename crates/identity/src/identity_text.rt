//! Identities and prefixes as text.

ghost use Rattle.std.specs.Prelude.{◌≡◌, ◌<◌, ◌≤◌, ◌^◌, ◌+◌, ◌++◌, OnOk, OnErr, IfOk, IfSome, IsTrue, length, vec_len, vec_capacity};
ghost use Rattle.std.specs.Result.{result_ok};
ghost use Rattle.identity.specs.NumberText.{IsPrefixOf};
ghost use Rattle.identity.specs.IdentityText.{identity_text, prefix_text, reading_identity, prefix_of, reading_prefix};

use crate::number_text::{
    cut, number_before_dash, parse_number, print_number, put_before, put_code_before, put_whole,
    short_number,
};
use crate::{Fault, Gtsi, Itsi, Prefix, fields};
use std::alloc::{AllocError, Allocator};

/// As [`reading_identity`], for a text of any length and form.
#[inline(never)]
#[tactic(auto, unfolding(crate::specs::IdentityText::reading_identity, crate::specs::IdentityText::three_numbers,
// and its numbers
crate::specs::IdentityText::identity_of, crate::specs::NumberText::reading_number))]
fn any_identity(text: &[u8]) -> Result<u64, Fault>
    ensures value { result ≡ reading_identity text.now }
    ensures below { IfOk result (λ n. n < 2 ^ 48) }
{
    let Some((mcc, rest)) = cut(text, b'-') else {
        return Err(Fault::BadText);
    };
    let Some((mnc, ssi)) = cut(rest, b'-') else {
        return Err(Fault::BadText);
    };
    let mcc = parse_number(mcc, u64::from(fields::MOST_MCC));
    let mnc = parse_number(mnc, u64::from(fields::MOST_MNC));
    let ssi = parse_number(ssi, u64::from(fields::MOST_SSI));
    match (mcc, mnc, ssi) {
        (Ok(mcc), Ok(mnc), Ok(ssi)) => { Ok(fields::number_of(mcc as u32, mnc as u32, ssi as u32)) }
        (Err(Fault::BadText), _, _) => Err(Fault::BadText),
        (_, Err(Fault::BadText), _) => Err(Fault::BadText),
        (_, _, Err(Fault::BadText)) => Err(Fault::BadText),
        _ => Err(Fault::OutOfRange),
    }
}

/// How many bytes the longest text of an identity has.
const MOST_BYTES: usize = 19;

/// The number of the identity that a short text names, in one pass over its bytes.
#[inline(always)]
#[tactic(auto, using(crate::proofs::ShortTexts::short_readings))]
fn short_identity(text: &[u8]) -> Option<u64>
    requires few { length text.now ≤ 19 }
    ensures value { result ≡ result_ok (reading_identity text.now) }
    ensures below { IfSome result (λ n. n < 2 ^ 48) }
{
    let Some((mcc, rest)) = number_before_dash(text) else {
        return None;
    };
    let Some((mnc, rest)) = number_before_dash(rest) else {
        return None;
    };
    let ssi = short_number(rest)?;
    if mcc > u64::from(fields::MOST_MCC)
        || mnc > u64::from(fields::MOST_MNC)
        || ssi > u64::from(fields::MOST_SSI)
    {
        return None;
    }
    Some(fields::number_of(mcc as u32, mnc as u32, ssi as u32))
}

/// The number of the identity that a text names.
#[inline(always)]
fn reading_identity(text: &[u8]) -> Result<u64, Fault>
    ensures value { result ≡ reading_identity text.now }
    ensures below { IfOk result (λ n. n < 2 ^ 48) }
{
    if text.len() <= MOST_BYTES {
        if let Some(number) = short_identity(text) {
            return Ok(number);
        }
    }
    any_identity(text)
}

/// The radio that a text `mcc-mnc-ssi` names. `Fault::BadText` where the text has not that form, else
/// `Fault::OutOfRange` where a number is too great.
pub fn parse_itsi(text: &[u8]) -> Result<Itsi, Fault>
    ensures { result ≡ reading_identity text.now }
{
    match reading_identity(text) {
        Ok(number) => Itsi::from_number(number).ok_or(Fault::OutOfRange),
        Err(fault) => Err(fault),
    }
}

/// The group that a text `mcc-mnc-ssi` names; the faults are those of [`parse_itsi`].
pub fn parse_gtsi(text: &[u8]) -> Result<Gtsi, Fault>
    ensures { result ≡ reading_identity text.now }
{
    match reading_identity(text) {
        Ok(number) => Gtsi::from_number(number).ok_or(Fault::OutOfRange),
        Err(fault) => Err(fault),
    }
}

/// The first `len` bits of an identity, where those past them are 0.
fn prefix_of(identity: u64, len: u64) -> Result<Prefix, Fault>
    requires identity { identity < 2 ^ 48 }
    requires len { len ≤ 48 }
    ensures { result ≡ prefix_of identity len }
{
    match Prefix::new(identity, len as u32) {
        Some(prefix) => Ok(prefix),
        None => Err(Fault::OutOfRange),
    }
}

/// The prefix that a text `mcc-mnc-ssi/len` names. `Fault::BadText` where the text has not that form, else
/// `Fault::OutOfRange` where a number is too great or a bit past `len` is 1.
#[tactic(auto, unfolding(crate::specs::IdentityText::reading_prefix, crate::specs::IdentityText::prefix_form,
// its identity
crate::specs::IdentityText::reading_identity, crate::specs::IdentityText::three_numbers, crate::specs::IdentityText::identity_of,
// and its numbers
crate::specs::IdentityText::prefix_of, crate::specs::NumberText::reading_number))]
pub fn parse_prefix(text: &[u8]) -> Result<Prefix, Fault>
    ensures { result ≡ reading_prefix text.now }
{
    let Some((identity, len)) = cut(text, b'/') else {
        return Err(Fault::BadText);
    };
    match (reading_identity(identity), parse_number(len, 48)) {
        (Ok(identity), Ok(len)) => prefix_of(identity, len),
        (Err(Fault::BadText), _) => Err(Fault::BadText),
        (_, Err(Fault::BadText)) => Err(Fault::BadText),
        _ => Err(Fault::OutOfRange),
    }
}

/// Appends the text of an identity's number: it is put together from its end.
#[tactic(auto, unfolding(crate::specs::IdentityText::identity_text), using(crate::proofs::Printed::printed))]
fn print_identity<A: Allocator>(out: &mut Vec<u8, A>, number: u64) -> Result<(), AllocError>
    requires { number < 2 ^ 48 }
    ensures ok { OnOk result (out.new.items ≡ out.old.items ++ identity_text number) }
    ensures err { OnErr result (out.new.items ≡ out.old.items) }
    ensures full { OnErr result (vec_capacity out.old < vec_len out.old + length (identity_text number)) }
    ensures capacity { vec_capacity out.old ≤ vec_capacity out.new }
{
    let mut text = [0; 24];
    let ssi = put_before(&mut text, 24, fields::ssi(number));
    let mnc = put_code_before(&mut text, ssi, fields::mnc(number));
    let mcc = put_code_before(&mut text, mnc, fields::mcc(number));
    out.extend_from_slice(&text[mcc..])
}

/// Appends the text `mcc-mnc-ssi` of a radio's identity.
pub fn print_itsi<A: Allocator>(out: &mut Vec<u8, A>, itsi: Itsi) -> Result<(), AllocError>
    ensures ok { OnOk result (out.new.items ≡ out.old.items ++ identity_text itsi) }
    ensures err { OnErr result (out.new.items ≡ out.old.items) }
    ensures full { OnErr result (vec_capacity out.old < vec_len out.old + length (identity_text itsi)) }
    ensures capacity { vec_capacity out.old ≤ vec_capacity out.new }
{
    print_identity(out, itsi.number())
}

/// Appends the text `mcc-mnc-ssi` of a group's identity.
pub fn print_gtsi<A: Allocator>(out: &mut Vec<u8, A>, gtsi: Gtsi) -> Result<(), AllocError>
    ensures ok { OnOk result (out.new.items ≡ out.old.items ++ identity_text gtsi) }
    ensures err { OnErr result (out.new.items ≡ out.old.items) }
    ensures full { OnErr result (vec_capacity out.old < vec_len out.old + length (identity_text gtsi)) }
    ensures capacity { vec_capacity out.old ≤ vec_capacity out.new }
{
    print_identity(out, gtsi.number())
}

#[tactic(auto, unfolding(crate::specs::IdentityText::prefix_text), using(crate::proofs::Printed::printed))]
fn put_prefix<A: Allocator>(out: &mut Vec<u8, A>, prefix: Prefix) -> Result<(), AllocError>
    ensures ok { OnOk result (out.new.items ≡ out.old.items ++ prefix_text prefix) }
    ensures err { OnErr result (IsPrefixOf out.old.items out.new.items) }
    ensures full { OnErr result (vec_capacity out.old < vec_len out.old + length (prefix_text prefix)) }
    ensures capacity { vec_capacity out.old ≤ vec_capacity out.new }
{
    print_identity(out, prefix.bits())?;
    out.push(b'/')?;
    print_number(out, u64::from(prefix.len()))
}

/// Appends the text `mcc-mnc-ssi/len` of a prefix.
pub fn print_prefix<A: Allocator>(out: &mut Vec<u8, A>, prefix: Prefix) -> Result<(), AllocError>
    ensures ok { OnOk result (out.new.items ≡ out.old.items ++ prefix_text prefix) }
    ensures err { OnErr result (out.new.items ≡ out.old.items) }
    ensures full { OnErr result (vec_capacity out.old < vec_len out.old + length (prefix_text prefix)) }
    ensures capacity { vec_capacity out.old ≤ vec_capacity out.new }
{
    let before = out.len();
    let put = put_prefix(out, prefix);
    put_whole(out, before, put)
}
