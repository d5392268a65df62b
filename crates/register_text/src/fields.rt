//! The words of a line, read as a row and written as its sector. The PDU of an item is checked when the sector is read.
ghost use Rattle.std.specs.Prelude.{◌≡◌, ◌≤◌, ◌*◌, IfOk, IfSome, length, map, option_map};
ghost use Rattle.centre_core.specs.Ranges.{IsShort};
ghost use Rattle.group_attach.specs.Applied.{most_of_radio};
ghost use Rattle.console.specs.Reading.{area_in, identity_in, key_in, kind_in, lifetime_in, pdu_in, rule_in, sequence_in};
ghost use Rattle.image_rows.specs.RowText.{group_in as group_of, sector_of};
ghost use Rattle.register_text.specs.Reading.{copied_in, fields_in, header_in, item_in, last_in, number_in, reply_in, rule_row_in, sector_in};
ghost use Rattle.register_text.specs.Reading.{groups_in, one_group_in, place_in, presence_in, radio_in, radio_of};

use centre_core::Sequence;
use group_attach::{Attachment, MOST_OF_RADIO};
use identity::{
    Bits, Fault, Gtsi, Itsi, parse_bits, parse_gtsi, parse_itsi, parse_number, parse_prefix,
};
use image_rows::{Header, header_row, mail_row, radio_row, rule_row, served_row};
use mailbox::{Item, Key, Kind};
use mm_pdus::{ClassOfUsage, Lifetime};
use registration::{LocationArea, Radio, Rule, Station};
use sds_tl::MessageReference;
use std::alloc::{AllocError, Allocator};

/// The latest moment at which an item expires, in seconds: the greatest moment plus the greatest keep.
const LATEST_DEADLINE: u64 = 8_589_934_590;

/// The number that a word spells, if it is at most `most`.
#[tactic(auto, using(crate::proofs::Short::number_most))]
pub(crate) fn number_in(word: &[u8], most: u64) -> Option<u64>
    ensures value { result ≡ number_in most word.now }
    ensures most { IfSome result (λ number. number ≤ most) }
{
    match parse_number(word, most) {
        Ok(number) => Some(number),
        Err(_) => None,
    }
}

/// The words `N rules N radios N items N stations N` as a header's row.
fn header_in(words: &[&[u8]]) -> Option<[u8; 512]>
    ensures { result ≡ option_map sector_of (header_in (map (λ w. w.now) words.now)) }
{
    let [count, _, rules, _, radios, _, mail, _, served] = words else {
        return None;
    };
    let most = u64::from(u32::MAX);
    let (Some(count), Some(rules), Some(radios), Some(mail), Some(served)) = (
        number_in(count, u64::MAX),
        number_in(rules, most),
        number_in(radios, most),
        number_in(mail, most),
        number_in(served, most),
    ) else {
        return None;
    };
    Some(header_row(&Header {
        epoch: 1,
        count,
        rules: rules as u32,
        radios: radios as u32,
        mail: mail as u32,
        served: served as u32,
    }))
}

fn area_in(word: &[u8]) -> Option<LocationArea>
    ensures { result ≡ area_in word.now }
{
    match number_in(word, 16_383) {
        Some(area) => LocationArea::new(area as u32),
        None => None,
    }
}

fn lifetime_in(word: &[u8]) -> Option<Lifetime>
    ensures { result ≡ lifetime_in word.now }
{
    match number_in(word, 3) {
        Some(lifetime) => Lifetime::from_number(lifetime as u8),
        None => None,
    }
}

/// The rule that the words `LOW HIGH LIFE KEEP` give.
fn rule_in(low: &[u8], high: &[u8], lifetime: &[u8], keep: &[u8]) -> Option<Rule>
    ensures { result ≡ rule_in low.now high.now lifetime.now keep.now }
{
    let (Some(low), Some(high), Some(lifetime), Some(keep)) = (
        area_in(low),
        area_in(high),
        lifetime_in(lifetime),
        number_in(keep, 4_294_967_295),
    ) else {
        return None;
    };
    Rule::new(low, high, lifetime, keep as u32)
}

/// The words `PREFIX LOW HIGH LIFE KEEP` as a rule's row.
fn rule_row_in(words: &[&[u8]]) -> Option<[u8; 512]>
    ensures { result ≡ option_map sector_of (rule_row_in (map (λ w. w.now) words.now)) }
{
    let [prefix, low, high, lifetime, keep] = words else {
        return None;
    };
    let (Ok(prefix), Some(rule)) = (parse_prefix(prefix), rule_in(low, high, lifetime, keep)) else {
        return None;
    };
    Some(rule_row(&prefix, &rule))
}

fn presence_in(word: &[u8]) -> Option<bool>
    ensures { result ≡ presence_in word.now }
{
    if word == b"present".as_slice() {
        Some(true)
    } else if word == b"absent".as_slice() {
        Some(false)
    } else {
        None
    }
}

/// Where a radio is, from the words of `station N la N present`.
fn place_in(station: &[u8], area: &[u8], present: &[u8]) -> Option<Radio>
    ensures { result ≡ place_in station.now area.now present.now }
{
    let (Some(station), Some(area), Some(present)) = (
        number_in(station, 65_535),
        area_in(area),
        presence_in(present),
    ) else {
        return None;
    };
    Some(Radio {
        station: Station::new(station as u16),
        area,
        present,
    })
}

/// A group of a radio, from the words `GTSI CLASS LIFE`.
fn group_in(itsi: Itsi, words: &[&[u8]]) -> Option<Attachment>
    ensures { option_map group_of result ≡ one_group_in (map (λ w. w.now) words.now) }
{
    let [gtsi, class, lifetime] = words else {
        return None;
    };
    let (Ok(gtsi), Some(class), Some(lifetime)) = (
        parse_gtsi(gtsi),
        number_in(class, 7),
        lifetime_in(lifetime),
    ) else {
        return None;
    };
    Some(Attachment {
        itsi,
        gtsi,
        class: ClassOfUsage::new(class as u8),
        lifetime,
    })
}

/// The groups of a radio, each of three words.
fn groups_in<A: Allocator>(
    alloc: A,
    itsi: Itsi,
    words: &[&[u8]],
) -> Result<Option<Vec<Attachment, A>>, AllocError>
    ensures { IfOk result (λ groups. option_map (λ list. map group_of list.items) groups ≡ groups_in (map (λ w. w.now) words.now)) }
{
    let mut groups = Vec::new(alloc);
    for at in 0..words.len() / 3 {
        let Some(group) = group_in(itsi, &words[3 * at..3 * at + 3]) else {
            return Ok(None);
        };
        groups.push(group)?;
    }
    Ok(Some(groups))
}

#[tactic(auto, using(crate::proofs::WordGroups::few_groups))]
fn placed_radio<A: Allocator>(
    alloc: A,
    itsi: &[u8],
    place: Option<Radio>,
    groups: &[&[u8]],
) -> Result<Option<[u8; 512]>, AllocError>
    requires { length groups.now ≤ 3 * most_of_radio }
    ensures { IfOk result (λ sector. sector ≡ option_map sector_of (radio_of (identity_in itsi.now) place (groups_in (map (λ w. w.now) groups.now)))) }
{
    let (Ok(itsi), Some(radio)) = (parse_itsi(itsi), place) else {
        return Ok(None);
    };
    let Some(groups) = groups_in(alloc, itsi, groups)? else {
        return Ok(None);
    };
    Ok(Some(radio_row(itsi, &radio, &groups)))
}

/// The words `ITSI station N la N present`, then those of the groups, as a radio's row.
fn radio_in<A: Allocator>(alloc: A, words: &[&[u8]]) -> Result<Option<[u8; 512]>, AllocError>
    ensures { IfOk result (λ sector. sector ≡ option_map sector_of (radio_in (map (λ w. w.now) words.now))) }
{
    let [itsi, _, station, _, area, present, groups @ ..] = words else {
        return Ok(None);
    };
    if groups.len() > 3 * MOST_OF_RADIO {
        return Ok(None);
    }
    placed_radio(alloc, itsi, place_in(station, area, present), groups)
}

fn kind_in(word: &[u8]) -> Option<Kind>
    ensures { result ≡ kind_in word.now }
{
    if word == b"m".as_slice() {
        Some(Kind::Message)
    } else if word == b"r".as_slice() {
        Some(Kind::Report)
    } else {
        None
    }
}

/// The key that the words `DEST KIND SOURCE REF` name.
fn key_in(destination: &[u8], kind: &[u8], source: &[u8], reference: &[u8]) -> Option<Key>
    ensures { result ≡ key_in destination.now source.now reference.now kind.now }
{
    let (Ok(destination), Ok(source), Some(reference), Some(kind)) = (
        parse_itsi(destination),
        parse_itsi(source),
        number_in(reference, 255),
        kind_in(kind),
    ) else {
        return None;
    };
    Some(Key {
        destination,
        source,
        reference: MessageReference::new(reference as u8),
        kind,
    })
}

/// The group of a copy: one word, or none for an item that is no copy.
fn copied_in(words: &[&[u8]]) -> Option<Option<Gtsi>>
    ensures { result ≡ copied_in (map (λ w. w.now) words.now) }
{
    match words {
        [] => Some(None),
        [gtsi] => match parse_gtsi(gtsi) {
            Ok(gtsi) => Some(Some(gtsi)),
            Err(_) => None,
        },
        _ => None,
    }
}

/// The bits of a PDU, at most 2,048.
#[tactic(auto, using(crate::proofs::Short::short_bits))]
fn bits_in<A: Allocator>(alloc: A, word: &[u8]) -> Result<Option<Bits<A>>, AllocError>
    ensures ok { IfOk result (λ bits. bits ≡ pdu_in word.now) }
    ensures short { IfOk result (λ bits. IsShort bits) }
{
    match parse_bits(alloc, word) {
        Ok(bits) => Ok(Some(bits)),
        Err(Fault::NoMemory) => Err(AllocError),
        Err(_) => Ok(None),
    }
}

/// The words `NUMBER DEST KIND SOURCE REF DEADLINE PDU`, then the group of a copy, as an item's row.
fn item_in<A: Allocator>(alloc: A, words: &[&[u8]]) -> Result<Option<[u8; 512]>, AllocError>
    ensures { IfOk result (λ sector. sector ≡ option_map sector_of (item_in (map (λ w. w.now) words.now))) }
{
    let [
        number,
        destination,
        kind,
        source,
        reference,
        deadline,
        pdu,
        group @ ..,
    ] = words
    else {
        return Ok(None);
    };
    let (Some(number), Some(key), Some(deadline), Some(group)) = (
        number_in(number, u64::MAX),
        key_in(destination, kind, source, reference),
        number_in(deadline, LATEST_DEADLINE),
        copied_in(group),
    ) else {
        return Ok(None);
    };
    let Some(pdu) = bits_in(alloc, pdu)? else {
        return Ok(None);
    };
    Ok(Some(mail_row(&Item::new(key, number, deadline, pdu, group))))
}

fn sequence_in(word: &[u8]) -> Option<Sequence>
    ensures { result ≡ sequence_in word.now }
{
    match number_in(word, 4_294_967_295) {
        Some(sequence) => Sequence::new(sequence as u32),
        None => None,
    }
}

/// The PDU of a reply: none for `-`.
fn reply_in<A: Allocator>(alloc: A, word: &[u8]) -> Result<Option<Option<Bits<A>>>, AllocError>
    ensures ok { IfOk result (λ pdu. pdu ≡ reply_in word.now) }
    ensures short { IfOk result (λ pdu. IfSome pdu (λ bits. IsShort bits)) }
{
    if word == b"-".as_slice() {
        return Ok(Some(None));
    }
    match bits_in(alloc, word)? {
        Some(bits) => Ok(Some(Some(bits))),
        None => Ok(None),
    }
}

/// The words `STATION SEQ NUMBER PDU` as a station's row.
fn last_in<A: Allocator>(alloc: A, words: &[&[u8]]) -> Result<Option<[u8; 512]>, AllocError>
    ensures { IfOk result (λ sector. sector ≡ option_map sector_of (last_in (map (λ w. w.now) words.now))) }
{
    let [station, sequence, number, pdu] = words else {
        return Ok(None);
    };
    let (Some(station), Some(sequence), Some(number)) = (
        number_in(station, 65_535),
        sequence_in(sequence),
        number_in(number, u64::MAX),
    ) else {
        return Ok(None);
    };
    let Some(pdu) = reply_in(alloc, pdu)? else {
        return Ok(None);
    };
    let station = Station::new(station as u16);
    Ok(Some(served_row(station, sequence, number, &pdu)))
}

/// The row of a keyword and the words after it.
fn fields_in<A: Allocator>(
    alloc: A,
    name: &[u8],
    words: &[&[u8]],
) -> Result<Option<[u8; 512]>, AllocError>
    ensures { IfOk result (λ sector. sector ≡ option_map sector_of (fields_in name.now (map (λ w. w.now) words.now))) }
{
    if name == b"count".as_slice() {
        Ok(header_in(words))
    } else if name == b"rule".as_slice() {
        Ok(rule_row_in(words))
    } else if name == b"radio".as_slice() {
        radio_in(alloc, words)
    } else if name == b"item".as_slice() {
        item_in(alloc, words)
    } else if name == b"last".as_slice() {
        last_in(alloc, words)
    } else {
        Ok(None)
    }
}

/// The sector of the row that the words give, not yet checked. Only a PDU and a list of groups need memory.
pub(crate) fn sector_in<A: Allocator>(
    alloc: A,
    words: &[&[u8]],
) -> Result<Option<[u8; 512]>, AllocError>
    ensures { IfOk result (λ sector. sector ≡ sector_in (map (λ w. w.now) words.now)) }
{
    match words {
        [] => Ok(None),
        [name, more @ ..] => fields_in(alloc, name, more),
    }
}
