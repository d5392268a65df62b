//! Rows, written as sectors. No call allocates.
ghost use Rattle.std.specs.Prelude.{◌≡◌, ◌≤◌, ◌+◌, ◌*◌, ◌++◌, IfSome, length, map};
ghost use Rattle.std.specs.List.{flat_map};
ghost use Rattle.identity.specs.BitsText.{most_bits};
ghost use Rattle.centre_core.specs.Ranges.{IsShort};
ghost use Rattle.centre_core.specs.declared.reply.Reply.{Reply};
ghost use Rattle.group_attach.specs.Applied.{most_of_radio};
ghost use Rattle.command_bytes.specs.Fields.{big, bytes_for};
ghost use Rattle.command_bytes.specs.Text.{bits_text};
ghost use Rattle.image_rows.specs.Rows.{HeaderRow, RuleRow, RadioRow, MailRow, ServedRow};
ghost use Rattle.image_rows.specs.RowText.{copied_text, group_text, header_text, item_text, radio_text, sector_of, served_text};
ghost use Rattle.image_rows.specs.RowText.{group_in, mail_tag, present_number, reply_bits, usage_number};

use crate::sector::SectorText;
use crate::{HEADER_TAG, Header};
use centre_core::Sequence;
use command_bytes::ByteSink;
use command_bytes::put::{put_bits, put_key, put_number, put_prefix, put_rule};
use group_attach::Attachment;
use identity::{Bits, Gtsi, Itsi, Prefix};
use mailbox::Item;
use registration::{Radio, Rule, Station};
use std::alloc::Allocator;

#[tactic(auto, using(std::proofs::Common::append_assoc))]
fn put_header<R: ByteSink>(out: &mut R, header: &Header)
    requires room { 32 ≤ R.room out.old }
    ensures held { R.held out.new ≡ R.held out.old ++ header_text header.now }
    ensures room { R.room out.old ≤ R.room out.new + 32 }
{
    put_number(out, 8, header.epoch);
    put_number(out, 8, header.count);
    put_number(out, 4, u64::from(header.rules));
    put_number(out, 4, u64::from(header.radios));
    put_number(out, 4, u64::from(header.mail));
    put_number(out, 4, u64::from(header.served));
}

/// The first row of an image.
#[tactic(auto, unfolding(crate::specs::RowText::sector_of, crate::specs::RowText::row_bytes), using(std::proofs::Common::append_assoc))]
pub fn header_row(header: &Header) -> [u8; 512]
    ensures { result ≡ sector_of (HeaderRow header.now) }
{
    let mut text = SectorText::new();
    put_number(&mut text, 1, u64::from(HEADER_TAG));
    put_header(&mut text, header);
    text.finish()
}

/// The row of a rule under its prefix.
#[tactic(auto, unfolding(crate::specs::RowText::sector_of, crate::specs::RowText::row_bytes), using(std::proofs::Common::append_assoc))]
pub fn rule_row(prefix: &Prefix, rule: &Rule) -> [u8; 512]
    ensures { result ≡ sector_of (RuleRow prefix.now rule.now) }
{
    let mut text = SectorText::new();
    put_number(&mut text, 1, 17);
    put_prefix(&mut text, prefix);
    put_rule(&mut text, rule);
    text.finish()
}

#[tactic(auto, using(std::proofs::Common::append_assoc))]
fn put_group<R: ByteSink>(out: &mut R, group: &Attachment)
    requires room { 7 ≤ R.room out.old }
    ensures held { R.held out.new ≡ R.held out.old ++ group_text (group_in group.now) }
    ensures room { R.room out.old ≤ R.room out.new + 7 }
{
    put_number(out, 6, group.gtsi.number());
    let usage = 4 * u64::from(group.class.number()) + u64::from(group.lifetime.number());
    put_number(out, 1, usage);
}

fn put_groups<R: ByteSink>(out: &mut R, groups: &[Attachment])
    requires room { 7 * length groups.now ≤ R.room out.old }
    ensures held { R.held out.new ≡ R.held out.old ++ flat_map group_text (map group_in groups.now) }
{
    for group in groups {
        put_group(out, group);
    }
}

#[tactic(auto, using(std::proofs::Common::append_assoc))]
fn put_radio<R: ByteSink>(out: &mut R, itsi: Itsi, radio: &Radio, groups: &[Attachment])
    requires few { length groups.now ≤ most_of_radio }
    requires room { 12 + 7 * length groups.now ≤ R.room out.old }
    ensures held { R.held out.new ≡ R.held out.old ++ radio_text itsi radio.now (map group_in groups.now) }
{
    put_number(out, 6, itsi.number());
    put_number(out, 2, u64::from(radio.station.number()));
    put_number(out, 2, u64::from(radio.area.number()));
    put_number(out, 1, u64::from(radio.present));
    put_number(out, 1, groups.len() as u64);
    put_groups(out, groups);
}

/// The row of a radio and of its groups, at most 32.
#[tactic(auto, unfolding(crate::specs::RowText::sector_of, crate::specs::RowText::row_bytes), using(std::proofs::Common::append_assoc))]
pub fn radio_row(itsi: Itsi, radio: &Radio, groups: &[Attachment]) -> [u8; 512]
    requires { length groups.now ≤ most_of_radio }
    ensures { result ≡ sector_of (RadioRow itsi radio.now (map group_in groups.now)) }
{
    let mut text = SectorText::new();
    put_number(&mut text, 1, 18);
    put_radio(&mut text, itsi, radio, groups);
    text.finish()
}

fn tag_of(group: Option<Gtsi>) -> u64
    ensures { result ≡ mail_tag group }
{
    match group {
        None => 19,
        Some(_) => 21,
    }
}

fn put_copied<R: ByteSink>(out: &mut R, group: Option<Gtsi>)
    requires room { 6 ≤ R.room out.old }
    ensures held { R.held out.new ≡ R.held out.old ++ copied_text group }
    ensures room { R.room out.old ≤ R.room out.new + 6 }
{
    if let Some(group) = group {
        put_number(out, 6, group.number());
    }
}

#[tactic(auto, using(std::proofs::Common::append_assoc))]
fn put_item<R: ByteSink, A: Allocator>(out: &mut R, item: &Item<A>)
    requires few { length item.now.pdu ≤ most_bits }
    requires room { 38 + bytes_for (length item.now.pdu) ≤ R.room out.old }
    ensures held { R.held out.new ≡ R.held out.old ++ item_text item.now }
{
    put_number(out, 8, item.number());
    put_number(out, 8, item.deadline());
    put_key(out, &item.key());
    put_copied(out, item.group());
    put_bits(out, item.pdu());
}

/// The row of a waiting item, with a PDU of at most 2,048 bits.
#[tactic(auto, unfolding(crate::specs::RowText::sector_of, crate::specs::RowText::row_bytes), using(std::proofs::Common::append_assoc))]
pub fn mail_row<A: Allocator>(item: &Item<A>) -> [u8; 512]
    requires { length item.now.pdu ≤ most_bits }
    ensures { result ≡ sector_of (MailRow item.now) }
{
    let mut text = SectorText::new();
    put_number(&mut text, 1, tag_of(item.group()));
    put_item(&mut text, item);
    text.finish()
}

#[tactic(auto, using(crate::proofs::Written::no_bits))]
fn put_reply<R: ByteSink, A: Allocator>(out: &mut R, pdu: &Option<Bits<A>>)
    requires few { IsShort pdu.now }
    requires room { 258 ≤ R.room out.old }
    ensures held { R.held out.new ≡ R.held out.old ++ bits_text (reply_bits pdu.now) }
{
    match pdu {
        Some(bits) => put_bits(out, bits),
        None => put_number(out, 2, 0),
    }
}

/// The row of a station: the sequence of its last accepted command, the command's number and the PDU of its reply, at
/// most 2,048 bits.
#[tactic(auto, unfolding(crate::specs::RowText::sector_of, crate::specs::RowText::row_bytes), using(std::proofs::Common::append_assoc))]
pub fn served_row<A: Allocator>(
    station: Station,
    sequence: Sequence,
    number: u64,
    pdu: &Option<Bits<A>>,
) -> [u8; 512]
    requires { IsShort pdu.now }
    ensures { result ≡ sector_of (ServedRow station (record { sequence = sequence; number = number; pdu = pdu.now })) }
{
    let mut text = SectorText::new();
    put_number(&mut text, 1, 20);
    put_number(&mut text, 2, u64::from(station.number()));
    put_number(&mut text, 4, u64::from(sequence.number()));
    put_number(&mut text, 8, number);
    put_reply(&mut text, pdu);
    text.finish()
}
