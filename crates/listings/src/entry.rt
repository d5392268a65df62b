//! The lines of entries. Each `put_` adds its text; when memory runs out, a prefix of it.
ghost use Rattle.std.specs.Prelude.{◌≡◌, ◌≤◌, ◌<◌, ◌+◌, ◌++◌, OnOk, OnErr, length, vec_len, vec_capacity};
ghost use Rattle.identity.specs.NumberText.{IsPrefixOf};
ghost use Rattle.listings.specs.Entries.{RuleEntry, RadioEntry, ItemEntry};
ghost use Rattle.listings.specs.Inside.Walking.{entry_of};
ghost use Rattle.listings.specs.Lines.{entry_line, place_words};

use crate::item_parts::{put_item_end, put_key};
use crate::part::{Part, put_parts};
use crate::walk::Entry;
use crate::words::presence_word;
use identity::{Itsi, Prefix};
use mailbox::Item;
use registration::{Radio, Rule};
use std::alloc::{AllocError, Allocator};

/// Adds the line of an entry.
pub(crate) fn put_entry<A: Allocator, B: Allocator>(
    out: &mut Vec<u8, A>,
    entry: &Entry<B>,
) -> Result<(), AllocError>
    ensures ok { OnOk result (out.new.items ≡ out.old.items ++ entry_line (entry_of entry.now)) }
    ensures err { OnErr result (IsPrefixOf out.old.items out.new.items) }
    ensures full { OnErr result (vec_capacity out.old < vec_len out.old + length (entry_line (entry_of entry.now))) }
    ensures capacity { vec_capacity out.old ≤ vec_capacity out.new }
{
    match entry {
        Entry::Rule(prefix, rule) => put_rule(out, *prefix, rule),
        Entry::Radio(itsi, radio) => put_radio(out, *itsi, radio),
        Entry::Item(item) => put_item(out, item),
    }
}

#[tactic(auto, using(std::proofs::Common::append_assoc))]
fn put_rule<A: Allocator>(
    out: &mut Vec<u8, A>,
    prefix: Prefix,
    rule: &Rule,
) -> Result<(), AllocError>
    ensures ok { OnOk result (out.new.items ≡ out.old.items ++ entry_line (RuleEntry prefix rule.now)) }
    ensures err { OnErr result (IsPrefixOf out.old.items out.new.items) }
    ensures full { OnErr result (vec_capacity out.old < vec_len out.old + length (entry_line (RuleEntry prefix rule.now))) }
    ensures capacity { vec_capacity out.old ≤ vec_capacity out.new }
{
    let line: [Part; 11] = [
        Part::Text("rule "),
        Part::Prefix(prefix),
        Part::Text(" "),
        Part::Number(u64::from(rule.low().number())),
        Part::Text(" "),
        Part::Number(u64::from(rule.high().number())),
        Part::Text(" "),
        Part::Number(u64::from(rule.lifetime().number())),
        Part::Text(" "),
        Part::Number(u64::from(rule.keep())),
        Part::Text("\n"),
    ];
    put_parts(out, &line)
}

/// Adds where a radio is, without the end of its line.
#[tactic(auto, using(std::proofs::Common::append_assoc))]
pub(crate) fn put_place<A: Allocator>(
    out: &mut Vec<u8, A>,
    itsi: Itsi,
    radio: &Radio,
) -> Result<(), AllocError>
    ensures ok { OnOk result (out.new.items ≡ out.old.items ++ place_words itsi radio.now) }
    ensures err { OnErr result (IsPrefixOf out.old.items out.new.items) }
    ensures full { OnErr result (vec_capacity out.old < vec_len out.old + length (place_words itsi radio.now)) }
    ensures capacity { vec_capacity out.old ≤ vec_capacity out.new }
{
    let line: [Part; 7] = [
        Part::Text("radio "),
        Part::Radio(itsi),
        Part::Text(" station "),
        Part::Number(u64::from(radio.station.number())),
        Part::Text(" la "),
        Part::Number(u64::from(radio.area.number())),
        Part::Text(presence_word(radio.present)),
    ];
    put_parts(out, &line)
}

#[tactic(auto, using(identity::proofs::Printed::printed))]
fn put_radio<A: Allocator>(
    out: &mut Vec<u8, A>,
    itsi: Itsi,
    radio: &Radio,
) -> Result<(), AllocError>
    ensures ok { OnOk result (out.new.items ≡ out.old.items ++ entry_line (RadioEntry itsi radio.now)) }
    ensures err { OnErr result (IsPrefixOf out.old.items out.new.items) }
    ensures full { OnErr result (vec_capacity out.old < vec_len out.old + length (entry_line (RadioEntry itsi radio.now))) }
    ensures capacity { vec_capacity out.old ≤ vec_capacity out.new }
{
    put_place(out, itsi, radio)?;
    let end: [Part; 1] = [Part::Text("\n")];
    put_parts(out, &end)
}

#[tactic(auto, using(identity::proofs::Printed::printed))]
fn put_item<A: Allocator, B: Allocator>(
    out: &mut Vec<u8, A>,
    item: &Item<B>,
) -> Result<(), AllocError>
    ensures ok { OnOk result (out.new.items ≡ out.old.items ++ entry_line (ItemEntry item.now)) }
    ensures err { OnErr result (IsPrefixOf out.old.items out.new.items) }
    ensures full { OnErr result (vec_capacity out.old < vec_len out.old + length (entry_line (ItemEntry item.now))) }
    ensures capacity { vec_capacity out.old ≤ vec_capacity out.new }
{
    let key = item.key();
    let whose: [Part; 5] = [
        Part::Text("item "),
        Part::Number(item.number()),
        Part::Text(" "),
        Part::Radio(key.destination),
        Part::Text(" "),
    ];
    put_parts(out, &whose)?;
    put_key(out, key)?;
    put_parts(
        out,
        &[
            Part::Text(" "),
            Part::Number(item.deadline()),
            Part::Text(" "),
            Part::Pdu(item.pdu()),
        ],
    )?;
    put_item_end(out, item.group())
}
