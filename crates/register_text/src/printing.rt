//! Rows, printed as lines.
ghost use Rattle.std.specs.Prelude.{◌≡◌, ◌++◌, [], IfOk, None, OnOk, OnErr};
ghost use Rattle.std.specs.List.{flat_map};
ghost use Rattle.identity.specs.NumberText.{IsPrefixOf};
ghost use Rattle.image_rows.specs.Rows.{HeaderRow, RuleRow, RadioRow, MailRow, ServedRow};
ghost use Rattle.image_rows.specs.RowText.{group_in};
ghost use Rattle.image_rows.specs.RowViews.{row_view};
ghost use Rattle.register_text.specs.Lines.{copied_words, group_words, row_line, spaced};

use centre_core::Sequence;
use command_bytes::bits::PackedBits;
use group_attach::Attachment;
use identity::{Bits, Gtsi, Itsi, Prefix, put_whole};
use image_rows::{Header, PackedGroups, ReadItem, ReadRow};
use listings::{Part, kind_word, pdu_part, presence_word, put_parts};
use mailbox::Item;
use registration::{Radio, Rule, Station};
use std::alloc::{AllocError, Allocator};

#[tactic(auto, using(std::proofs::Common::append_assoc))]
fn put_header<A: Allocator>(out: &mut Vec<u8, A>, header: &Header) -> Result<(), AllocError>
    ensures ok { OnOk result (out.new.items ≡ out.old.items ++ row_line (HeaderRow header.now)) }
    ensures err { OnErr result (IsPrefixOf out.old.items out.new.items) }
{
    let line: [Part; 10] = [
        Part::Text("count "),
        Part::Number(header.count),
        Part::Text(" rules "),
        Part::Number(u64::from(header.rules)),
        Part::Text(" radios "),
        Part::Number(u64::from(header.radios)),
        Part::Text(" items "),
        Part::Number(u64::from(header.mail)),
        Part::Text(" stations "),
        Part::Number(u64::from(header.served)),
    ];
    put_parts(out, &line)
}

#[tactic(auto, using(std::proofs::Common::append_assoc))]
fn put_rule<A: Allocator>(
    out: &mut Vec<u8, A>,
    prefix: Prefix,
    rule: &Rule,
) -> Result<(), AllocError>
    ensures ok { OnOk result (out.new.items ≡ out.old.items ++ row_line (RuleRow prefix rule.now)) }
    ensures err { OnErr result (IsPrefixOf out.old.items out.new.items) }
{
    let line: [Part; 10] = [
        Part::Text("rule "),
        Part::Prefix(prefix),
        Part::Text(" "),
        Part::Number(u64::from(rule.low().number())),
        Part::Text(" "),
        Part::Number(u64::from(rule.high().number())),
        Part::Text(" "),
        Part::Number(u64::from(rule.lifetime().number())),
        Part::Text(" "),
        Part::Number(u64::from(rule.keep())),
    ];
    put_parts(out, &line)
}

#[tactic(auto, using(std::proofs::Common::append_assoc))]
fn put_group<A: Allocator>(out: &mut Vec<u8, A>, group: &Attachment) -> Result<(), AllocError>
    ensures ok { OnOk result (out.new.items ≡ out.old.items ++ spaced (group_words (group_in group.now))) }
    ensures err { OnErr result (IsPrefixOf out.old.items out.new.items) }
{
    let line: [Part; 6] = [
        Part::Text(" "),
        Part::Group(group.gtsi),
        Part::Text(" "),
        Part::Number(u64::from(group.class.number())),
        Part::Text(" "),
        Part::Number(u64::from(group.lifetime.number())),
    ];
    put_parts(out, &line)
}

fn put_groups<A: Allocator>(
    out: &mut Vec<u8, A>,
    itsi: Itsi,
    groups: PackedGroups<'_>,
) -> Result<(), AllocError>
    ensures ok { OnOk result (out.new.items ≡ out.old.items ++ spaced (flat_map group_words groups.entry)) }
    ensures err { OnErr result (IsPrefixOf out.old.items out.new.items) }
{
    let mut left = groups;
    while let Some(group) = left.next(itsi) {
        put_group(out, &group)?;
    }
    Ok(())
}

#[tactic(auto, using(std::proofs::Common::append_assoc))]
fn put_place<A: Allocator>(
    out: &mut Vec<u8, A>,
    itsi: Itsi,
    radio: &Radio,
) -> Result<(), AllocError>
    ensures ok { OnOk result (out.new.items ≡ out.old.items ++ row_line (RadioRow itsi radio.now [])) }
    ensures err { OnErr result (IsPrefixOf out.old.items out.new.items) }
{
    let line: [Part; 7] = [
        Part::Text("radio "),
        Part::Radio(itsi),
        Part::Text(" station "),
        Part::Number(u64::from(radio.station.number())),
        Part::Text(" la "),
        Part::Number(u64::from(radio.area.number())),
        Part::Text(presence_word(radio.present)),
    ];
    put_parts(out, &line)
}

#[tactic(auto, using(std::proofs::Common::append_assoc))]
fn put_radio<A: Allocator>(
    out: &mut Vec<u8, A>,
    itsi: Itsi,
    radio: &Radio,
    groups: PackedGroups<'_>,
) -> Result<(), AllocError>
    ensures ok { OnOk result (out.new.items ≡ out.old.items ++ row_line (RadioRow itsi radio.now groups.entry)) }
    ensures err { OnErr result (IsPrefixOf out.old.items out.new.items) }
{
    put_place(out, itsi, radio)?;
    put_groups(out, itsi, groups)
}

fn put_copied<A: Allocator>(out: &mut Vec<u8, A>, group: Option<Gtsi>) -> Result<(), AllocError>
    ensures ok { OnOk result (out.new.items ≡ out.old.items ++ spaced (copied_words group)) }
    ensures err { OnErr result (IsPrefixOf out.old.items out.new.items) }
{
    match group {
        None => Ok(()),
        Some(gtsi) => {
            let word: [Part; 2] = [Part::Text(" "), Part::Group(gtsi)];
            put_parts(out, &word)
        }
    }
}

// Appends the line of an item without the group of a copy.
#[tactic(auto, using(std::proofs::Common::append_assoc))]
fn put_item_fields<A: Allocator, B: Allocator>(
    out: &mut Vec<u8, A>,
    item: &Item<B>,
) -> Result<(), AllocError>
    ensures ok { OnOk result (out.new.items ≡ out.old.items ++ row_line (MailRow (record item.now { group = None }))) }
    ensures err { OnErr result (IsPrefixOf out.old.items out.new.items) }
{
    let key = item.key();
    let line: [Part<B>; 14] = [
        Part::Text("item "),
        Part::Number(item.number()),
        Part::Text(" "),
        Part::Radio(key.destination),
        Part::Text(" "),
        Part::Text(kind_word(key.kind)),
        Part::Text(" "),
        Part::Radio(key.source),
        Part::Text(" "),
        Part::Number(u64::from(key.reference.number())),
        Part::Text(" "),
        Part::Number(item.deadline()),
        Part::Text(" "),
        Part::Pdu(item.pdu()),
    ];
    put_parts(out, &line)
}

#[tactic(auto, using(std::proofs::Common::append_assoc))]
fn put_item<A: Allocator, B: Allocator>(
    out: &mut Vec<u8, A>,
    item: &Item<B>,
) -> Result<(), AllocError>
    ensures ok { OnOk result (out.new.items ≡ out.old.items ++ row_line (MailRow item.now)) }
    ensures err { OnErr result (IsPrefixOf out.old.items out.new.items) }
{
    put_item_fields(out, item)?;
    put_copied(out, item.group())
}

fn put_mail<A: Allocator, B: Allocator + Clone>(
    out: &mut Vec<u8, A>,
    alloc: &B,
    item: &ReadItem<'_>,
) -> Result<(), AllocError>
    ensures ok { OnOk result (out.new.items ≡ out.old.items ++ row_line (MailRow item.now)) }
    ensures err { OnErr result (IsPrefixOf out.old.items out.new.items) }
{
    let Ok(item) = item.copy(alloc) else {
        return Err(AllocError);
    };
    put_item(out, &item)
}

fn copy_pdu<B: Allocator + Clone>(
    alloc: &B,
    pdu: &Option<PackedBits<'_>>,
) -> Result<Option<Bits<B>>, AllocError>
    ensures { IfOk result (λ copy. copy ≡ pdu.now) }
{
    match pdu {
        None => Ok(None),
        Some(bits) => Ok(Some(bits.copy(alloc.clone()?)?)),
    }
}

/// A station's last accepted command, without the PDU of its reply.
#[derive(Clone, Copy)]
struct Last {
    station: Station,
    sequence: Sequence,
    number: u64,
}

#[tactic(auto, using(std::proofs::Common::append_assoc))]
fn put_last<A: Allocator, B: Allocator>(
    out: &mut Vec<u8, A>,
    last: &Last,
    pdu: &Option<Bits<B>>,
) -> Result<(), AllocError>
    ensures ok { OnOk result (out.new.items ≡ out.old.items
        ++ row_line (ServedRow last.now.station (record { sequence = last.now.sequence; number = last.now.number; pdu = pdu.now }))) }
    ensures err { OnErr result (IsPrefixOf out.old.items out.new.items) }
{
    let line: [Part<B>; 8] = [
        Part::Text("last "),
        Part::Number(u64::from(last.station.number())),
        Part::Text(" "),
        Part::Number(u64::from(last.sequence.number())),
        Part::Text(" "),
        Part::Number(last.number),
        Part::Text(" "),
        pdu_part(pdu),
    ];
    put_parts(out, &line)
}

fn put_served<A: Allocator, B: Allocator + Clone>(
    out: &mut Vec<u8, A>,
    alloc: &B,
    last: &Last,
    pdu: &Option<PackedBits<'_>>,
) -> Result<(), AllocError>
    ensures ok { OnOk result (out.new.items ≡ out.old.items
        ++ row_line (ServedRow last.now.station (record { sequence = last.now.sequence; number = last.now.number; pdu = pdu.now }))) }
    ensures err { OnErr result (IsPrefixOf out.old.items out.new.items) }
{
    let Ok(pdu) = copy_pdu(alloc, pdu) else {
        return Err(AllocError);
    };
    put_last(out, last, &pdu)
}

// Appends the row's line, or a part of it.
fn put_row<A: Allocator, B: Allocator + Clone>(
    out: &mut Vec<u8, A>,
    alloc: &B,
    row: ReadRow<'_>,
) -> Result<(), AllocError>
    ensures ok { OnOk result (out.new.items ≡ out.old.items ++ row_line (row_view row.entry)) }
    ensures err { OnErr result (IsPrefixOf out.old.items out.new.items) }
{
    match row {
        ReadRow::Header(header) => put_header(out, &header),
        ReadRow::Rule { prefix, rule } => put_rule(out, prefix, &rule),
        ReadRow::Radio {
            itsi,
            radio,
            groups,
        } => put_radio(out, itsi, &radio, groups),
        ReadRow::Mail(item) => put_mail(out, alloc, &item),
        ReadRow::Served {
            station,
            sequence,
            number,
            pdu,
        } => {
            let last = Last {
                station,
                sequence,
                number,
            };
            put_served(out, alloc, &last, &pdu)
        }
    }
}

/// Appends the line of a row, without its line feed. A copy of a PDU is made in `alloc`. If memory runs out, `out` is
/// as before.
pub fn print_row<A: Allocator, B: Allocator + Clone>(
    out: &mut Vec<u8, A>,
    alloc: &B,
    row: ReadRow<'_>,
) -> Result<(), AllocError>
    ensures ok { OnOk result (out.new.items ≡ out.old.items ++ row_line (row_view row.entry)) }
    ensures err { OnErr result (out.new.items ≡ out.old.items) }
{
    let before = out.len();
    let put = put_row(out, alloc, row);
    put_whole(out, before, put)
}
