//! Rows, read from bytes. No call allocates.
ghost use Rattle.std.specs.Prelude.{◌≡◌, option_map};
ghost use Rattle.image_rows.specs.RowText.{header_tag};
ghost use Rattle.image_rows.specs.RowReading.{fields_in, present_of, reply_of, row_in};
ghost use Rattle.image_rows.specs.RowViews.{row_view};

use crate::item::{ReadItem, checked};
use crate::row_groups::{PackedGroups, groups};
use crate::unchecked_item::item;
use crate::{HEADER_TAG, Header, PLAIN_HEADER_TAG};
use centre_core::Sequence;
use command_bytes::bits::{PackedBits, bits};
use command_bytes::fields::{area, area_of, itsi_of, number, prefix, rule};
use identity::{Itsi, Prefix};
use registration::{Radio, Rule, Station};

/// The last epoch, 2 to the 62nd.
pub const LAST_EPOCH: u64 = 1 << 62;

/// A row. Its bits and its groups are still in the bytes it was read from.
#[derive(Drop)]
pub enum ReadRow<'a> {
    /// The first row of an image.
    Header(Header),
    /// A rule under its prefix.
    Rule {
        prefix: Prefix,
        rule: Rule,
    },
    /// A radio and its groups, in the order of their bytes.
    Radio {
        itsi: Itsi,
        radio: Radio,
        groups: PackedGroups<'a>,
    },
    /// A waiting item.
    Mail(ReadItem<'a>),
    /// A station's last accepted command: its sequence, its number and the PDU of its reply.
    Served {
        station: Station,
        sequence: Sequence,
        number: u64,
        pdu: Option<PackedBits<'a>>,
    },
}

#[tactic(auto, unfolding(crate::specs::RowReading::header_at, crate::specs::RowReading::fields_in, crate::specs::RowReading::fields_at))]
fn header_row(bytes: &[u8]) -> Option<ReadRow<'_>>
    ensures { option_map row_view result ≡ fields_in header_tag bytes.now }
{
    let (epoch, rest) = number(bytes, 8)?;
    let (count, rest) = number(rest, 8)?;
    let (rules, rest) = number(rest, 4)?;
    let (radios, rest) = number(rest, 4)?;
    let (mail, rest) = number(rest, 4)?;
    let (served, _) = number(rest, 4)?;
    if epoch == 0 || epoch > LAST_EPOCH {
        return None;
    }
    Some(ReadRow::Header(Header {
        epoch,
        count,
        rules: rules as u32,
        radios: radios as u32,
        mail: mail as u32,
        served: served as u32,
    }))
}

#[tactic(auto, unfolding(crate::specs::RowReading::rule_row_at, crate::specs::RowReading::fields_in, crate::specs::RowReading::fields_at))]
fn rule_row(bytes: &[u8]) -> Option<ReadRow<'_>>
    ensures { option_map row_view result ≡ fields_in 17 bytes.now }
{
    let Some((prefix, rest)) = prefix(bytes) else {
        return None;
    };
    let Some((rule, _)) = rule(rest) else {
        return None;
    };
    Some(ReadRow::Rule { prefix, rule })
}

fn present(number: u64) -> Option<bool>
    ensures { result ≡ present_of number }
{
    match number {
        0 => Some(false),
        1 => Some(true),
        _ => None,
    }
}

#[tactic(auto, unfolding(crate::specs::RowReading::radio_row_at, crate::specs::RowReading::fields_in, crate::specs::RowReading::fields_at))]
fn radio_row(bytes: &[u8]) -> Option<ReadRow<'_>>
    ensures { option_map row_view result ≡ fields_in 18 bytes.now }
{
    let (itsi, rest) = number(bytes, 6)?;
    let (station, rest) = number(rest, 2)?;
    let (area, rest) = area(rest)?;
    let (present, rest) = number(rest, 1)?;
    let present = crate::reading::present(present)?;
    let (count, rest) = number(rest, 1)?;
    let itsi = itsi_of(itsi);
    let groups = groups(itsi, count, rest)?;
    let radio = Radio {
        station: Station::new(station as u16),
        area: area_of(area),
        present,
    };
    Some(ReadRow::Radio {
        itsi,
        radio,
        groups,
    })
}

#[tactic(auto, unfolding(crate::specs::RowReading::fields_in, crate::specs::RowReading::fields_at))]
fn item_row(bytes: &[u8]) -> Option<ReadRow<'_>>
    ensures { option_map row_view result ≡ fields_in 19 bytes.now }
{
    let (unchecked, _) = item(false, bytes)?;
    Some(ReadRow::Mail(checked(unchecked)?))
}

#[tactic(auto, unfolding(crate::specs::RowReading::fields_in, crate::specs::RowReading::fields_at))]
fn copy_row(bytes: &[u8]) -> Option<ReadRow<'_>>
    ensures { option_map row_view result ≡ fields_in 21 bytes.now }
{
    let (unchecked, _) = item(true, bytes)?;
    Some(ReadRow::Mail(checked(unchecked)?))
}

fn reply(bits: PackedBits<'_>) -> Option<PackedBits<'_>>
    ensures { result ≡ reply_of bits.entry }
{
    if bits.len() == 0 { None } else { Some(bits) }
}

#[tactic(auto, unfolding(crate::specs::RowReading::served_row_at, crate::specs::RowReading::fields_in, crate::specs::RowReading::fields_at))]
fn served_row(bytes: &[u8]) -> Option<ReadRow<'_>>
    ensures { option_map row_view result ≡ fields_in 20 bytes.now }
{
    let (station, rest) = number(bytes, 2)?;
    let (sequence, rest) = number(rest, 4)?;
    let (number, rest) = number(rest, 8)?;
    let (pdu, _) = bits(rest)?;
    let sequence = Sequence::new(sequence as u32)?;
    Some(ReadRow::Served {
        station: Station::new(station as u16),
        sequence,
        number,
        pdu: reply(pdu),
    })
}

#[tactic(auto, unfolding(crate::specs::RowReading::fields_in, crate::specs::RowReading::fields_at))]
fn fields(tag: u8, bytes: &[u8]) -> Option<ReadRow<'_>>
    ensures { option_map row_view result ≡ fields_in tag bytes.now }
{
    match tag {
        HEADER_TAG | PLAIN_HEADER_TAG => header_row(bytes),
        17 => rule_row(bytes),
        18 => radio_row(bytes),
        19 => item_row(bytes),
        20 => served_row(bytes),
        21 => copy_row(bytes),
        _ => None,
    }
}

/// The row that the bytes begin with. What follows it is ignored.
///
/// It is `None` where a value is out of its range, a padding bit is 1, the PDU of an item does not fit its key, the tag
/// is unknown, or bytes are missing.
#[tactic(auto, unfolding(crate::specs::RowReading::row_in))]
pub fn read_row(bytes: &[u8]) -> Option<ReadRow<'_>>
    ensures { option_map row_view result ≡ row_in bytes.now }
{
    let (tag, rest) = number(bytes, 1)?;
    fields(tag as u8, rest)
}
