//! The words of a form: each is judged, and the values are put together.
ghost use Rattle.std.specs.Prelude.{◌≡◌, IfOk, OnErr, IsTrue};
ghost use Rattle.std.specs.Result.{result_ok};
ghost use Rattle.identity.specs.BitsText.{reading_bits};
ghost use Rattle.centre_core.specs.Memory.{is_long};
ghost use Rattle.console.specs.declared.form.BodyForm.TheVariants.{RuleSet, RuleClear, Mm, Sds, GroupSds};
ghost use Rattle.console.specs.Forms.{word};
ghost use Rattle.console.specs.Reading.{head_in, query_in, listing_in, body_in, GivesLongPdu};
ghost use Rattle.console.specs.Reading.{seconds_in, sequence_in, station_in, area_in, lifetime_in, rule_in, reference_in, kind_in, key_in};
ghost use Rattle.console.specs.Inside.Counts.{command_count, query_count, listing_count};
ghost use Rattle.console.specs.Inside.Left.{words_in};

use crate::form::{BodyForm, ListingForm, QueryForm, Words};
use centre_core::{Body, Query, Sequence};
use identity::{Bits, Fault, parse_bits, parse_gtsi, parse_itsi, parse_number, parse_prefix};
use listings::{Listing, Table};
use mailbox::{Key, Kind, Moment};
use mm_pdus::Lifetime;
use registration::{LocationArea, Rule, Station};
use sds_tl::MessageReference;
use std::alloc::{AllocError, Allocator};

/// The sequence and moment, which come before the body of a command.
#[derive(Clone, Copy, Debug)]
pub(crate) struct Head {
    pub(crate) sequence: Sequence,
    pub(crate) moment: Moment,
}

/// `SEQ MOMENT`
#[inline(always)]
pub(crate) fn head_in(sequence: &[u8], moment: &[u8]) -> Option<Head>
    ensures { result ≡ head_in sequence.now moment.now }
{
    let sequence = sequence_in(sequence)?;
    let moment = Moment::new(seconds_in(moment)?);
    Some(Head { sequence, moment })
}

/// The query that words of this form ask, if each is in range.
#[inline(always)]
pub(crate) fn query_in(form: QueryForm, words: &Words<'_>) -> Option<Query>
    requires { words.now.count ≡ query_count form }
    ensures { result ≡ query_in form (words_in words.now) }
{
    match form {
        QueryForm::Whereabouts => parse_itsi(words.at(1)).ok().map(Query::Whereabouts),
        QueryForm::Look => parse_itsi(words.at(1)).ok().map(Query::Look),
        QueryForm::GroupsOf => parse_itsi(words.at(1)).ok().map(Query::GroupsOf),
        QueryForm::MembersOf => parse_gtsi(words.at(1)).ok().map(Query::MembersOf),
        QueryForm::Waiting => parse_itsi(words.at(1)).ok().map(Query::Waiting),
        QueryForm::Total => Some(Query::Total),
    }
}

/// The listing that words of this form ask for, if each is in range.
#[inline(always)]
pub(crate) fn listing_in(form: ListingForm, words: &Words<'_>) -> Option<Listing>
    requires { words.now.count ≡ listing_count form }
    ensures { result ≡ listing_in form (words_in words.now) }
{
    match form {
        ListingForm::Rules => Some(Listing::Entries(Table::Rules)),
        ListingForm::Radios => Some(Listing::Entries(Table::Radios(None))),
        ListingForm::RadiosUnder => {
            let prefix = parse_prefix(words.at(1)).ok();
            prefix.map(|prefix| Listing::Entries(Table::Radios(Some(prefix))))
        }
        ListingForm::Items => Some(Listing::Entries(Table::Items)),
        ListingForm::Due => {
            let moment = seconds_in(words.at(1));
            moment.map(|moment| Listing::Entries(Table::Due(Moment::new(moment))))
        }
        ListingForm::WaitingAt => {
            let station = station_in(words.at(1));
            station.map(|station| Listing::Entries(Table::WaitingAt(station)))
        }
        ListingForm::Last => station_in(words.at(1)).map(Listing::Last),
        ListingForm::Room => Some(Listing::Room),
        ListingForm::Dump => Some(Listing::Dump),
    }
}

/// The body that words of this form say, if each is in range.
#[inline(always)]
pub(crate) fn body_in<A: Allocator>(
    alloc: A,
    form: BodyForm,
    words: &Words<'_>,
) -> Result<Option<Body<A>>, AllocError>
    requires { words.now.count ≡ command_count form }
    ensures ok { IfOk result (λ body. body ≡ body_in form (words_in words.now)) }
    ensures err { OnErr result (GivesLongPdu (body_in {A = A} form (words_in words.now))) }
{
    match form {
        BodyForm::RuleSet => Ok(rule_body(words)),
        BodyForm::RuleClear => Ok(unrule_body(words)),
        BodyForm::Mm => mm_body(alloc, words),
        BodyForm::Sds => sds_body(alloc, words),
        BodyForm::GroupSds => group_sds_body(alloc, words),
        BodyForm::Sent => Ok(key_in(words).map(|key| Body::Sent(key))),
        BodyForm::Expire => Ok(Some(Body::Expire)),
        BodyForm::Delete => Ok(key_in(words).map(|key| Body::Delete(key))),
    }
}

/// The bits of a PDU, if the word is one. Only more than 64 bits take memory.
#[inline(always)]
#[tactic(auto, using(crate::proofs::Forms::bits_are_judged, crate::proofs::Forms::long_read))]
fn bits_in<A: Allocator>(alloc: A, word: &[u8]) -> Result<Option<Bits<A>>, AllocError>
    ensures ok { IfOk result (λ bits. bits ≡ result_ok (reading_bits word.now)) }
    ensures err { OnErr result (IsTrue (is_long (result_ok (reading_bits word.now)))) }
{
    match parse_bits(alloc, word) {
        Ok(bits) => Ok(Some(bits)),
        Err(Fault::NoMemory) => Err(AllocError),
        Err(_) => Ok(None),
    }
}

/// `mm ITSI LA PDU`
#[inline(always)]
fn mm_body<A: Allocator>(alloc: A, words: &Words<'_>) -> Result<Option<Body<A>>, AllocError>
    requires { words.now.count ≡ 6 }
    ensures ok { IfOk result (λ body. body ≡ body_in Mm (words_in words.now)) }
    ensures err { OnErr result (GivesLongPdu (body_in {A = A} Mm (words_in words.now))) }
{
    let (Ok(itsi), Some(area)) = (parse_itsi(words.at(3)), area_in(words.at(4))) else {
        return Ok(None);
    };
    let Some(pdu) = bits_in(alloc, words.at(5))? else {
        return Ok(None);
    };
    Ok(Some(Body::Mm { itsi, area, pdu }))
}

/// `sds SOURCE DEST PDU`
#[inline(always)]
fn sds_body<A: Allocator>(alloc: A, words: &Words<'_>) -> Result<Option<Body<A>>, AllocError>
    requires { words.now.count ≡ 6 }
    ensures ok { IfOk result (λ body. body ≡ body_in Sds (words_in words.now)) }
    ensures err { OnErr result (GivesLongPdu (body_in {A = A} Sds (words_in words.now))) }
{
    let (Ok(source), Ok(destination)) = (parse_itsi(words.at(3)), parse_itsi(words.at(4))) else {
        return Ok(None);
    };
    let Some(pdu) = bits_in(alloc, words.at(5))? else {
        return Ok(None);
    };
    Ok(Some(Body::Sds {
        source,
        destination,
        pdu,
    }))
}

/// `gsds SOURCE GTSI PDU`
fn group_sds_body<A: Allocator>(alloc: A, words: &Words<'_>) -> Result<Option<Body<A>>, AllocError>
    requires { words.now.count ≡ 6 }
    ensures ok { IfOk result (λ body. body ≡ body_in GroupSds (words_in words.now)) }
    ensures err { OnErr result (GivesLongPdu (body_in {A = A} GroupSds (words_in words.now))) }
{
    let (Ok(source), Ok(group)) = (parse_itsi(words.at(3)), parse_gtsi(words.at(4))) else {
        return Ok(None);
    };
    let Some(pdu) = bits_in(alloc, words.at(5))? else {
        return Ok(None);
    };
    Ok(Some(Body::GroupSds { source, group, pdu }))
}

/// `rule PREFIX LOW HIGH LIFE KEEP`
fn rule_body<A: Allocator>(words: &Words<'_>) -> Option<Body<A>>
    requires { words.now.count ≡ 8 }
    ensures { result ≡ body_in RuleSet (words_in words.now) }
{
    let (Ok(prefix), Some(rule)) = (parse_prefix(words.at(3)), rule_in(words)) else {
        return None;
    };
    Some(Body::RuleSet { prefix, rule })
}

/// `unrule PREFIX`
fn unrule_body<A: Allocator>(words: &Words<'_>) -> Option<Body<A>>
    requires { words.now.count ≡ 4 }
    ensures { result ≡ body_in RuleClear (words_in words.now) }
{
    match parse_prefix(words.at(3)) {
        Ok(prefix) => Some(Body::RuleClear { prefix }),
        Err(_) => None,
    }
}

// A moment, or a keep time in seconds.
#[inline(always)]
#[tactic(auto, unfolding(identity::specs::NumberText::reading_number))]
fn seconds_in(word: &[u8]) -> Option<u32>
    ensures { result ≡ seconds_in word.now }
{
    match parse_number(word, 4_294_967_295) {
        Ok(seconds) => Some(seconds as u32),
        Err(_) => None,
    }
}

fn sequence_in(word: &[u8]) -> Option<Sequence>
    ensures { result ≡ sequence_in word.now }
{
    match seconds_in(word) {
        Some(sequence) => Sequence::new(sequence),
        None => None,
    }
}

#[tactic(auto, unfolding(identity::specs::NumberText::reading_number))]
fn station_in(word: &[u8]) -> Option<Station>
    ensures { result ≡ station_in word.now }
{
    match parse_number(word, 65_535) {
        Ok(station) => Some(Station::new(station as u16)),
        Err(_) => None,
    }
}

#[inline(always)]
#[tactic(auto, unfolding(identity::specs::NumberText::reading_number))]
fn area_in(word: &[u8]) -> Option<LocationArea>
    ensures { result ≡ area_in word.now }
{
    match parse_number(word, 16_383) {
        Ok(area) => LocationArea::new(area as u32),
        Err(_) => None,
    }
}

#[tactic(auto, unfolding(identity::specs::NumberText::reading_number))]
fn lifetime_in(word: &[u8]) -> Option<Lifetime>
    ensures { result ≡ lifetime_in word.now }
{
    match parse_number(word, 3) {
        Ok(lifetime) => Lifetime::from_number(lifetime as u8),
        Err(_) => None,
    }
}

/// `LOW HIGH LIFE KEEP`, after a prefix
fn rule_in(words: &Words<'_>) -> Option<Rule>
    requires { words.now.count ≡ 8 }
    ensures { result ≡ rule_in (word 4 (words_in words.now)) (word 5 (words_in words.now)) (word 6 (words_in words.now)) (word 7 (words_in words.now)) }
{
    let (Some(low), Some(high), Some(lifetime), Some(keep)) = (
        area_in(words.at(4)),
        area_in(words.at(5)),
        lifetime_in(words.at(6)),
        seconds_in(words.at(7)),
    ) else {
        return None;
    };
    Rule::new(low, high, lifetime, keep)
}

#[tactic(auto, unfolding(identity::specs::NumberText::reading_number))]
fn reference_in(word: &[u8]) -> Option<MessageReference>
    ensures { result ≡ reference_in word.now }
{
    match parse_number(word, 255) {
        Ok(reference) => Some(MessageReference::new(reference as u8)),
        Err(_) => None,
    }
}

fn kind_in(word: &[u8]) -> Option<Kind>
    ensures { result ≡ kind_in word.now }
{
    if word == b"m".as_slice() {
        Some(Kind::Message)
    } else if word == b"r".as_slice() {
        Some(Kind::Report)
    } else {
        None
    }
}

/// `DEST SOURCE REF KIND`
#[inline(always)]
fn key_in(words: &Words<'_>) -> Option<Key>
    requires { words.now.count ≡ 7 }
    ensures { result ≡ key_in (word 3 (words_in words.now)) (word 4 (words_in words.now)) (word 5 (words_in words.now)) (word 6 (words_in words.now)) }
{
    let (Ok(destination), Ok(source), Some(reference), Some(kind)) = (
        parse_itsi(words.at(3)),
        parse_itsi(words.at(4)),
        reference_in(words.at(5)),
        kind_in(words.at(6)),
    ) else {
        return None;
    };
    Some(Key {
        destination,
        source,
        reference,
        kind,
    })
}
