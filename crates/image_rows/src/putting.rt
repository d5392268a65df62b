// Puts rows into the parts of a register, one after another. Each row is first checked, without memory, and then put.
ghost use Rattle.std.specs.Prelude.{◌≡◌, ◌<◌, ◌≤◌, ◌-◌, IfOk, IsSome, IsTrue, None, OnErr, OnOk, Some, [], length, slice_set, vec_len};
ghost use Rattle.std.specs.List.{All};
ghost use Rattle.std.specs.Option.{is_some};
ghost use Rattle.group_attach.specs.Applied.{most_of_radio, restored};
ghost use Rattle.group_attach.specs.InOrder.{IsInOrder};
ghost use Rattle.registration.specs.Registered.{radio_of, with_radio};
ghost use Rattle.std.specs.FinMap as map;
ghost use Rattle.image_rows.specs.Rows.{RuleRow, RadioRow, MailRow, ServedRow};
ghost use Rattle.image_rows.specs.RowViews.{row_view};
ghost use Rattle.image_rows.specs.Loading.{begin, put, row_taken, taken_radio};
ghost use Rattle.image_rows.specs.Held.{IsOutcome, IsHeld, IsLoaded, IsPlace, loading, needs_memory, with_groups};

use crate::attached::own_groups;
use crate::item::ReadItem;
use crate::judging::{header_may, mail_may, place_may, rule_may, served_may};
use crate::{Header, PackedGroups, ReadRow};
use centre_core::{LastAccepted, Parts, Sequence};
use command_bytes::bits::PackedBits;
use command_bytes::fields::gtsi_of;
use group_attach::{Attachment, Groups, MOST_OF_RADIO};
use identity::{Bits, Itsi, Prefix};
use mm_pdus::{ClassOfUsage, Lifetime};
use registration::{Radio, Registry, Rule, Station};
use std::alloc::{AllocError, Allocator};

/// A station's last accepted command. The PDU of its reply is still in the bytes it was read from.
#[derive(Drop)]
struct ReadLast<'a> {
    sequence: Sequence,
    number: u64,
    pdu: Option<PackedBits<'a>>,
}

// Takes the first row, if it is a header that may come.
fn begin<A: Allocator + Clone>(
    first: &mut Option<Header>,
    parts: &mut Parts<A>,
    row: &ReadRow<'_>,
) -> bool
    ensures { IsOutcome (begin parts.old (row_view row.now)) (loading first.old parts.old) result (loading first.new parts.new) }
{
    let ReadRow::Header(header) = row else {
        return false;
    };
    if !header_may(&parts.registry.limits(), header) {
        return false;
    }
    *first = Some(*header);
    parts.count = header.count;
    true
}

fn put_rule<A: Allocator + Clone>(
    parts: &mut Parts<A>,
    header: &Header,
    prefix: Prefix,
    rule: Rule,
) -> Result<bool, AllocError>
    requires { IsHeld header.now parts.old }
    ensures ok { IfOk result (λ taken. IsOutcome (put header.now parts.old (RuleRow prefix rule)) parts.old taken parts.new) }
    ensures err { OnErr result (parts.new ≡ parts.old) }
    ensures memory { OnErr result (IsSome (put header.now parts.old (RuleRow prefix rule))) }
{
    if !rule_may(header, parts, &prefix) {
        return Ok(false);
    }
    match parts.registry.set_rule(prefix, rule) {
        Ok(()) => Ok(true),
        Err(_) => Err(AllocError),
    }
}

// Adds the radio and its attachments; out of memory it adds neither.
fn add_radio<A: Allocator + Clone>(
    registry: &mut Registry<A>,
    groups: &mut Groups<A>,
    itsi: Itsi,
    radio: Radio,
    attachments: &[Attachment],
) -> Result<(), AllocError>
    requires new { radio_of registry.old itsi ≡ None }
    requires room { map.len registry.old.radios < registry.old.limits.radios }
    requires own { All (λ a. a.itsi ≡ itsi) attachments.now }
    requires in_order { IsInOrder attachments.now }
    requires few { length attachments.now ≤ most_of_radio }
    ensures ok { OnOk result ((registry.new ≡ with_radio registry.old itsi radio) × (groups.new ≡ restored groups.old itsi attachments.now)) }
    ensures err { OnErr result ((registry.new ≡ registry.old) × (groups.new ≡ groups.old)) }
{
    let Ok(()) = registry.restore(itsi, radio) else {
        return Err(AllocError);
    };
    match groups.restore(itsi, attachments) {
        Ok(()) => Ok(()),
        Err(_) => {
            registry.forget(itsi);
            Err(AllocError)
        }
    }
}

// Adds a radio without groups.
fn put_alone<A: Allocator + Clone>(
    parts: &mut Parts<A>,
    itsi: Itsi,
    radio: Radio,
) -> Result<(), AllocError>
    ensures ok { OnOk result (parts.new ≡ taken_radio parts.old itsi radio []) }
    ensures err { OnErr result (parts.new ≡ parts.old) }
{
    parts.registry.restore(itsi, radio).or(Err(AllocError))
}

// An attachment that others overwrite.
fn placeholder(itsi: Itsi) -> Attachment {
    Attachment {
        itsi,
        gtsi: gtsi_of(0),
        class: ClassOfUsage::new(0),
        lifetime: Lifetime::NotNeeded,
    }
}

fn put_groups<A: Allocator + Clone>(
    parts: &mut Parts<A>,
    itsi: Itsi,
    radio: Radio,
    groups: PackedGroups<'_>,
) -> Result<bool, AllocError>
    requires { IsPlace parts.old itsi }
    ensures ok { IfOk result (λ taken. IsOutcome (with_groups parts.old itsi radio groups.entry) parts.old taken parts.new) }
    ensures err { OnErr result (parts.new ≡ parts.old) }
    ensures memory { OnErr result (IsSome (with_groups parts.old itsi radio groups.entry)) }
{
    if groups.is_empty() {
        put_alone(parts, itsi, radio)?;
        return Ok(true);
    }
    let mut list = [placeholder(itsi); MOST_OF_RADIO];
    let Some(count) = own_groups(&mut list, itsi, groups) else {
        return Ok(false);
    };
    add_radio(
        &mut parts.registry,
        &mut parts.groups,
        itsi,
        radio,
        &list[..count],
    )?;
    Ok(true)
}

fn put_radio<A: Allocator + Clone>(
    parts: &mut Parts<A>,
    header: &Header,
    itsi: Itsi,
    radio: Radio,
    groups: PackedGroups<'_>,
) -> Result<bool, AllocError>
    requires { IsHeld header.now parts.old }
    ensures ok { IfOk result (λ taken. IsOutcome (put header.now parts.old (RadioRow itsi radio groups.entry)) parts.old taken parts.new) }
    ensures err { OnErr result (parts.new ≡ parts.old) }
    ensures memory { OnErr result (IsSome (put header.now parts.old (RadioRow itsi radio groups.entry))) }
{
    if !place_may(header, parts, itsi, &radio) {
        return Ok(false);
    }
    put_groups(parts, itsi, radio, groups)
}

fn put_mail<A: Allocator + Clone>(
    parts: &mut Parts<A>,
    header: &Header,
    item: &ReadItem<'_>,
) -> Result<bool, AllocError>
    requires { IsHeld header.now parts.old }
    ensures ok { IfOk result (λ taken. IsOutcome (put header.now parts.old (MailRow item.now)) parts.old taken parts.new) }
    ensures err { OnErr result (parts.new ≡ parts.old) }
    ensures memory { OnErr result (IsSome (put header.now parts.old (MailRow item.now))) }
{
    if !mail_may(header, parts, item) {
        return Ok(false);
    }
    match parts.mail.restore(item.copy(&parts.alloc)?) {
        Ok(()) => Ok(true),
        Err(_) => Err(AllocError),
    }
}

fn copy_pdu<A: Allocator + Clone>(
    alloc: &A,
    pdu: &Option<PackedBits<'_>>,
) -> Result<Option<Bits<A>>, AllocError>
    ensures ok { IfOk result (λ copy. copy ≡ pdu.now) }
    ensures needed { OnErr result (IsTrue (is_some pdu.now)) }
{
    match pdu {
        None => Ok(None),
        Some(bits) => Ok(Some(bits.copy(alloc.clone()?)?)),
    }
}

fn put_last<A: Allocator>(
    served: &mut Vec<Option<LastAccepted<A>>, A>,
    station: Station,
    last: LastAccepted<A>,
)
    requires some { 0 < station }
    requires place { station ≤ vec_len served.old }
    ensures { served.new.items ≡ slice_set served.old.items (station - 1) (Some last) }
{
    served[usize::from(station.number()) - 1] = Some(last);
}

fn put_served<A: Allocator + Clone>(
    parts: &mut Parts<A>,
    header: &Header,
    station: Station,
    last: &ReadLast<'_>,
) -> Result<bool, AllocError>
    requires { IsHeld header.now parts.old }
    ensures ok { IfOk result (λ taken. IsOutcome
        (put header.now parts.old (ServedRow station (record { sequence = last.now.sequence; number = last.now.number; pdu = last.now.pdu })))
        parts.old taken parts.new) }
    ensures err { OnErr result (parts.new ≡ parts.old) }
    ensures memory { OnErr result (IsSome
        (put header.now parts.old (ServedRow station (record { sequence = last.now.sequence; number = last.now.number; pdu = last.now.pdu })))) }
    ensures needed { OnErr result (IsTrue (is_some last.now.pdu)) }
{
    if !served_may(header, parts, station, last.number) {
        return Ok(false);
    }
    let pdu = copy_pdu(&parts.alloc, &last.pdu)?;
    let last = LastAccepted {
        sequence: last.sequence,
        number: last.number,
        pdu,
    };
    put_last(&mut parts.served, station, last);
    Ok(true)
}

// Takes a row after the header, if it may come.
fn put<A: Allocator + Clone>(
    parts: &mut Parts<A>,
    header: &Header,
    row: ReadRow<'_>,
) -> Result<bool, AllocError>
    requires { IsHeld header.now parts.old }
    ensures ok { IfOk result (λ taken. IsOutcome (put header.now parts.old (row_view row.entry)) parts.old taken parts.new) }
    ensures err { OnErr result (parts.new ≡ parts.old) }
    ensures memory { OnErr result (IsSome (put header.now parts.old (row_view row.entry))) }
    ensures needed { OnErr result (IsTrue (needs_memory (row_view row.entry))) }
{
    match row {
        ReadRow::Header(_) => Ok(false),
        ReadRow::Rule { prefix, rule } => put_rule(parts, header, prefix, rule),
        ReadRow::Radio {
            itsi,
            radio,
            groups,
        } => put_radio(parts, header, itsi, radio, groups),
        ReadRow::Mail(item) => put_mail(parts, header, &item),
        ReadRow::Served {
            station,
            sequence,
            number,
            pdu,
        } => {
            let last = ReadLast {
                sequence,
                number,
                pdu,
            };
            put_served(parts, header, station, &last)
        }
    }
}

/// Takes the row if it may come next, and returns whether it did.
pub fn take<A: Allocator + Clone>(
    first: &mut Option<Header>,
    parts: &mut Parts<A>,
    row: ReadRow<'_>,
) -> Result<bool, AllocError>
    requires { IsLoaded (loading first.old parts.old) }
    ensures ok { IfOk result (λ taken. IsOutcome (row_taken (loading first.old parts.old) (row_view row.entry))
        (loading first.old parts.old) taken (loading first.new parts.new)) }
    ensures err { OnErr result ((first.new ≡ first.old) × (parts.new ≡ parts.old)) }
    ensures memory { OnErr result (IsSome (row_taken (loading first.old parts.old) (row_view row.entry))) }
    ensures needed { OnErr result (IsTrue (needs_memory (row_view row.entry))) }
{
    match *first {
        None => Ok(begin(first, parts, &row)),
        Some(header) => put(parts, &header, row),
    }
}
