//! The texts of lists. Each `put_` adds its text; when memory runs out, a prefix of it.
ghost use Rattle.std.specs.Prelude.{◌≡◌, ◌≤◌, ◌<◌, ◌+◌, ◌++◌, OnOk, OnErr, length, vec_len, vec_capacity, codes, decimal};
ghost use Rattle.std.specs.List.{flat_map};
ghost use Rattle.identity.specs.NumberText.{IsPrefixOf};
ghost use Rattle.identity.specs.IdentityText.{identity_text};
ghost use Rattle.listings.specs.Parts.{part_text, part_room, pdu_room};
ghost use Rattle.console.specs.Answer.{group_text, member_text, item_text};
ghost use Rattle.identity.specs.BitsText.{bits_text};
ghost use Rattle.listings.specs.Lines.{item_end, key_text};
ghost use Rattle.listings.specs.Words.{kind_word};

use group_attach::Attachment;
use identity::{Bits, Gtsi, print_bits, print_itsi, print_number};
use listings::{Part, put_item_end, put_parts};
use mailbox::{Item, Key, Kind};
use std::alloc::{AllocError, Allocator};

/// The end of a list's first line: how many lines follow.
#[tactic(auto, using(std::proofs::Common::append_assoc))]
pub(crate) fn put_count<A: Allocator>(out: &mut Vec<u8, A>, count: usize) -> Result<(), AllocError>
    ensures ok { OnOk result (out.new.items ≡ out.old.items ++ (codes " " ++ decimal count ++ codes "\n")) }
    ensures err { OnErr result (IsPrefixOf out.old.items out.new.items) }
    ensures full { OnErr result (vec_capacity out.old < vec_len out.old + length (codes " " ++ decimal count ++ codes "\n")) }
    ensures capacity { vec_capacity out.old ≤ vec_capacity out.new }
{
    let end: [Part; 3] = [
        Part::Text(" "),
        Part::Number(count as u64),
        Part::Text("\n"),
    ];
    put_parts(out, &end)
}

pub(crate) fn put_groups<A: Allocator>(
    out: &mut Vec<u8, A>,
    groups: &[Attachment],
) -> Result<(), AllocError>
    ensures ok { OnOk result (out.new.items ≡ out.old.items ++ flat_map group_text groups.now) }
    ensures err { OnErr result (IsPrefixOf out.old.items out.new.items) }
    ensures full { OnErr result (vec_capacity out.old < vec_len out.old + length (flat_map group_text groups.now)) }
    ensures capacity { vec_capacity out.old ≤ vec_capacity out.new }
{
    for group in groups {
        put_group(out, group)?;
    }
    Ok(())
}

#[tactic(auto, using(std::proofs::Common::append_assoc))]
fn put_group<A: Allocator>(out: &mut Vec<u8, A>, group: &Attachment) -> Result<(), AllocError>
    ensures ok { OnOk result (out.new.items ≡ out.old.items ++ group_text group.now) }
    ensures err { OnErr result (IsPrefixOf out.old.items out.new.items) }
    ensures full { OnErr result (vec_capacity out.old < vec_len out.old + length (group_text group.now)) }
    ensures capacity { vec_capacity out.old ≤ vec_capacity out.new }
{
    let line: [Part; 7] = [
        Part::Text("group "),
        Part::Group(group.gtsi),
        Part::Text(" "),
        Part::Number(u64::from(group.class.number())),
        Part::Text(" "),
        Part::Number(u64::from(group.lifetime.number())),
        Part::Text("\n"),
    ];
    put_parts(out, &line)
}

pub(crate) fn put_members<A: Allocator>(
    out: &mut Vec<u8, A>,
    members: &[Attachment],
) -> Result<(), AllocError>
    ensures ok { OnOk result (out.new.items ≡ out.old.items ++ flat_map member_text members.now) }
    ensures err { OnErr result (IsPrefixOf out.old.items out.new.items) }
    ensures full { OnErr result (vec_capacity out.old < vec_len out.old + length (flat_map member_text members.now)) }
    ensures capacity { vec_capacity out.old ≤ vec_capacity out.new }
{
    for member in members {
        put_member(out, member)?;
    }
    Ok(())
}

#[tactic(auto, using(std::proofs::Common::append_assoc))]
fn put_member<A: Allocator>(out: &mut Vec<u8, A>, member: &Attachment) -> Result<(), AllocError>
    ensures ok { OnOk result (out.new.items ≡ out.old.items ++ member_text member.now) }
    ensures err { OnErr result (IsPrefixOf out.old.items out.new.items) }
    ensures full { OnErr result (vec_capacity out.old < vec_len out.old + length (member_text member.now)) }
    ensures capacity { vec_capacity out.old ≤ vec_capacity out.new }
{
    let line: [Part; 5] = [
        Part::Text("member "),
        Part::Radio(member.itsi),
        Part::Text(" "),
        Part::Number(u64::from(member.class.number())),
        Part::Text("\n"),
    ];
    put_parts(out, &line)
}

pub(crate) fn put_items<A: Allocator, B: Allocator>(
    out: &mut Vec<u8, A>,
    items: &[Item<B>],
) -> Result<(), AllocError>
    ensures ok { OnOk result (out.new.items ≡ out.old.items ++ flat_map item_text items.now) }
    ensures err { OnErr result (IsPrefixOf out.old.items out.new.items) }
    ensures full { OnErr result (vec_capacity out.old < vec_len out.old + length (flat_map item_text items.now)) }
    ensures capacity { vec_capacity out.old ≤ vec_capacity out.new }
{
    for item in items {
        put_item(out, item)?;
    }
    Ok(())
}

/// `item NUMBER KIND SOURCE REFERENCE DEADLINE PDU`, and the group of a copy.
#[tactic(auto, using(identity::proofs::Printed::printed))]
fn put_item<A: Allocator, B: Allocator>(
    out: &mut Vec<u8, A>,
    item: &Item<B>,
) -> Result<(), AllocError>
    ensures ok { OnOk result (out.new.items ≡ out.old.items ++ item_text item.now) }
    ensures err { OnErr result (IsPrefixOf out.old.items out.new.items) }
    ensures full { OnErr result (vec_capacity out.old < vec_len out.old + length (item_text item.now)) }
    ensures capacity { vec_capacity out.old ≤ vec_capacity out.new }
{
    put_named_item(out, item.number(), item.key())?;
    put_content(out, item.deadline(), item.pdu())?;
    put_end(out, item.group())
}

/// `item NUMBER KIND SOURCE REFERENCE`
#[inline(always)]
#[tactic(auto, using(identity::proofs::Printed::printed))]
fn put_named_item<A: Allocator>(
    out: &mut Vec<u8, A>,
    number: u64,
    key: Key,
) -> Result<(), AllocError>
    ensures ok { OnOk result (out.new.items ≡ out.old.items ++ codes "item " ++ decimal number ++ codes " " ++ key_text key) }
    ensures err { OnErr result (IsPrefixOf out.old.items out.new.items) }
    ensures full { OnErr result (vec_capacity out.old < vec_len out.old + length (codes "item " ++ decimal number ++ codes " " ++ key_text key)) }
    ensures capacity { vec_capacity out.old ≤ vec_capacity out.new }
{
    out.extend_from_slice(b"item ")?;
    print_number(out, number)?;
    out.extend_from_slice(kind_between(key.kind))?;
    print_itsi(out, key.source)?;
    out.push(b' ')?;
    print_number(out, u64::from(key.reference.number()))
}

/// The deadline and the PDU of an item, with a space before each.
#[inline(always)]
#[tactic(auto, using(identity::proofs::Printed::printed))]
fn put_content<A: Allocator, B: Allocator>(
    out: &mut Vec<u8, A>,
    deadline: u64,
    pdu: &Bits<B>,
) -> Result<(), AllocError>
    ensures ok { OnOk result (out.new.items ≡ out.old.items ++ codes " " ++ decimal deadline ++ codes " " ++ bits_text pdu.now) }
    ensures err { OnErr result (IsPrefixOf out.old.items out.new.items) }
    ensures full { OnErr result (vec_capacity out.old < vec_len out.old + length (codes " " ++ decimal deadline ++ codes " " ++ bits_text pdu.now)) }
    ensures capacity { vec_capacity out.old ≤ vec_capacity out.new }
{
    out.push(b' ')?;
    print_number(out, deadline)?;
    out.push(b' ')?;
    print_bits(out, pdu)
}

/// The end of an item's line. Few items are copies for a group.
#[inline(always)]
fn put_end<A: Allocator>(out: &mut Vec<u8, A>, group: Option<Gtsi>) -> Result<(), AllocError>
    ensures ok { OnOk result (out.new.items ≡ out.old.items ++ item_end group) }
    ensures err { OnErr result (IsPrefixOf out.old.items out.new.items) }
    ensures full { OnErr result (vec_capacity out.old < vec_len out.old + length (item_end group)) }
    ensures capacity { vec_capacity out.old ≤ vec_capacity out.new }
{
    if group.is_some() {
        return put_item_end(out, group);
    }
    out.push(b'\n')?;
    Ok(())
}

/// The word for a message or a report, between two spaces.
#[inline(always)]
fn kind_between(kind: Kind) -> &'static [u8]
    ensures { result.now ≡ codes " " ++ kind_word kind ++ codes " " }
{
    match kind {
        Kind::Message => b" m ",
        Kind::Report => b" r ",
    }
}
