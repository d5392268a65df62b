//! A whole register as text. Each `put_` adds its text; when memory runs out, a prefix of it. Nothing but the text takes memory.
ghost use Rattle.std.specs.Prelude.{◌≡◌, ◌≤◌, ◌<◌, ◌+◌, ◌++◌, OnOk, OnErr, length, vec_len, vec_capacity};
ghost use Rattle.std.specs.List.{flat_map};
ghost use Rattle.identity.specs.NumberText.{IsPrefixOf};
ghost use Rattle.listings.specs.Dump.{count_line, dump_lines, dumped_line, first_line, group_words, radio_line};
ghost use Rattle.listings.specs.Inside.Dumping.{head_text, last_text, lasts_text, number_text, rows_text, tables_text};
ghost use Rattle.listings.specs.Inside.Walking.{entry_of};
ghost use Rattle.listings.specs.Texts.{dump_text};

use crate::entry::{put_entry, put_place};
use crate::listing::Table;
use crate::part::{Part, pdu_part, put_parts};
use crate::room::used_stations;
use crate::walk::{Entry, entry_after};
use centre_core::laws::registers;
use centre_core::{LastAccepted, Register};
use group_attach::Attachment;
use identity::Itsi;
use registration::{Limits, Radio};
use std::alloc::{AllocError, Allocator};

/// How many lines the text has.
fn line_count<B: Allocator + Clone>(register: &Register<B>) -> u64
    ensures { result ≡ length (dump_lines register.now) }
{
    registers(register);
    let registry = register.registry();
    let rules = u64::from(registry.rule_count());
    let radios = u64::from(registry.radio_count());
    let items = register.mail().len() as u64;
    let stations = used_stations(register.served()) as u64;
    2 + rules + radios + items + stations
}

#[tactic(auto, using(std::proofs::Common::append_assoc))]
fn put_number<A: Allocator, B: Allocator + Clone>(
    out: &mut Vec<u8, A>,
    register: &Register<B>,
) -> Result<(), AllocError>
    ensures ok { OnOk result (out.new.items ≡ out.old.items ++ number_text register.now) }
    ensures err { OnErr result (IsPrefixOf out.old.items out.new.items) }
    ensures full { OnErr result (vec_capacity out.old < vec_len out.old + length (number_text register.now)) }
    ensures capacity { vec_capacity out.old ≤ vec_capacity out.new }
{
    let line: [Part; 3] = [
        Part::Text("dump "),
        Part::Number(line_count(register)),
        Part::Text("\n"),
    ];
    put_parts(out, &line)
}

#[tactic(auto, using(std::proofs::Common::append_assoc))]
fn put_first_line<A: Allocator>(out: &mut Vec<u8, A>, limits: &Limits) -> Result<(), AllocError>
    ensures ok { OnOk result (out.new.items ≡ out.old.items ++ first_line limits.now) }
    ensures err { OnErr result (IsPrefixOf out.old.items out.new.items) }
    ensures full { OnErr result (vec_capacity out.old < vec_len out.old + length (first_line limits.now)) }
    ensures capacity { vec_capacity out.old ≤ vec_capacity out.new }
{
    let line: [Part; 9] = [
        Part::Text("tetra-switch register 1 rules "),
        Part::Number(u64::from(limits.rules)),
        Part::Text(" radios "),
        Part::Number(u64::from(limits.radios)),
        Part::Text(" items "),
        Part::Number(u64::from(limits.mail)),
        Part::Text(" stations "),
        Part::Number(u64::from(limits.stations)),
        Part::Text("\n"),
    ];
    put_parts(out, &line)
}

#[tactic(auto, using(std::proofs::Common::append_assoc))]
fn put_count_line<A: Allocator, B: Allocator + Clone>(
    out: &mut Vec<u8, A>,
    register: &Register<B>,
) -> Result<(), AllocError>
    ensures ok { OnOk result (out.new.items ≡ out.old.items ++ count_line register.now) }
    ensures err { OnErr result (IsPrefixOf out.old.items out.new.items) }
    ensures full { OnErr result (vec_capacity out.old < vec_len out.old + length (count_line register.now)) }
    ensures capacity { vec_capacity out.old ≤ vec_capacity out.new }
{
    let registry = register.registry();
    let line: [Part; 11] = [
        Part::Text("count "),
        Part::Number(register.count()),
        Part::Text(" rules "),
        Part::Number(u64::from(registry.rule_count())),
        Part::Text(" radios "),
        Part::Number(u64::from(registry.radio_count())),
        Part::Text(" items "),
        Part::Number(register.mail().len() as u64),
        Part::Text(" stations "),
        Part::Number(used_stations(register.served()) as u64),
        Part::Text("\n"),
    ];
    put_parts(out, &line)
}

/// Adds the number of the lines, and the two lines before those of rows.
#[tactic(auto, unfolding(crate::specs::Inside::Dumping::head_text), using(identity::proofs::Printed::printed))]
fn put_head<A: Allocator, B: Allocator + Clone>(
    out: &mut Vec<u8, A>,
    register: &Register<B>,
) -> Result<(), AllocError>
    ensures ok { OnOk result (out.new.items ≡ out.old.items ++ head_text register.now) }
    ensures err { OnErr result (IsPrefixOf out.old.items out.new.items) }
    ensures full { OnErr result (vec_capacity out.old < vec_len out.old + length (head_text register.now)) }
    ensures capacity { vec_capacity out.old ≤ vec_capacity out.new }
{
    put_number(out, register)?;
    put_first_line(out, &register.limits())?;
    put_count_line(out, register)
}

#[tactic(auto, using(std::proofs::Common::append_assoc))]
fn put_group<A: Allocator>(out: &mut Vec<u8, A>, group: &Attachment) -> Result<(), AllocError>
    ensures ok { OnOk result (out.new.items ≡ out.old.items ++ group_words group.now) }
    ensures err { OnErr result (IsPrefixOf out.old.items out.new.items) }
    ensures full { OnErr result (vec_capacity out.old < vec_len out.old + length (group_words group.now)) }
    ensures capacity { vec_capacity out.old ≤ vec_capacity out.new }
{
    let words: [Part; 6] = [
        Part::Text(" "),
        Part::Group(group.gtsi),
        Part::Text(" "),
        Part::Number(u64::from(group.class.number())),
        Part::Text(" "),
        Part::Number(u64::from(group.lifetime.number())),
    ];
    put_parts(out, &words)
}

fn put_groups<A: Allocator>(out: &mut Vec<u8, A>, groups: &[Attachment]) -> Result<(), AllocError>
    ensures ok { OnOk result (out.new.items ≡ out.old.items ++ flat_map group_words groups.now) }
    ensures err { OnErr result (IsPrefixOf out.old.items out.new.items) }
    ensures full { OnErr result (vec_capacity out.old < vec_len out.old + length (flat_map group_words groups.now)) }
    ensures capacity { vec_capacity out.old ≤ vec_capacity out.new }
{
    for group in groups {
        put_group(out, group)?;
    }
    Ok(())
}

/// Adds the line of a radio with its groups.
#[tactic(auto, using(identity::proofs::Printed::printed))]
fn put_radio<A: Allocator>(
    out: &mut Vec<u8, A>,
    itsi: Itsi,
    radio: &Radio,
    groups: &[Attachment],
) -> Result<(), AllocError>
    ensures ok { OnOk result (out.new.items ≡ out.old.items ++ radio_line itsi radio.now groups.now) }
    ensures err { OnErr result (IsPrefixOf out.old.items out.new.items) }
    ensures full { OnErr result (vec_capacity out.old < vec_len out.old + length (radio_line itsi radio.now groups.now)) }
    ensures capacity { vec_capacity out.old ≤ vec_capacity out.new }
{
    put_place(out, itsi, radio)?;
    put_groups(out, groups)?;
    let end: [Part; 1] = [Part::Text("\n")];
    put_parts(out, &end)
}

/// Adds the line of an entry, a radio's with its groups.
fn put_row<A: Allocator, B: Allocator + Clone>(
    out: &mut Vec<u8, A>,
    register: &Register<B>,
    entry: &Entry<B>,
) -> Result<(), AllocError>
    ensures ok { OnOk result (out.new.items ≡ out.old.items ++ dumped_line register.now.groups (entry_of entry.now)) }
    ensures err { OnErr result (IsPrefixOf out.old.items out.new.items) }
    ensures full { OnErr result (vec_capacity out.old < vec_len out.old + length (dumped_line register.now.groups (entry_of entry.now))) }
    ensures capacity { vec_capacity out.old ≤ vec_capacity out.new }
{
    match entry {
        Entry::Radio(itsi, radio) => {
            let groups = register.groups().attachments(*itsi);
            put_radio(out, *itsi, radio, groups)
        }
        Entry::Rule(_, _) | Entry::Item(_) => put_entry(out, entry),
    }
}

/// Adds the line of each entry of a table, a radio's with its groups.
fn put_rows<A: Allocator, B: Allocator + Clone>(
    out: &mut Vec<u8, A>,
    register: &Register<B>,
    table: &Table,
) -> Result<(), AllocError>
    ensures ok { OnOk result (out.new.items ≡ out.old.items ++ rows_text register.now table.now) }
    ensures err { OnErr result (IsPrefixOf out.old.items out.new.items) }
    ensures full { OnErr result (vec_capacity out.old < vec_len out.old + length (rows_text register.now table.now)) }
    ensures capacity { vec_capacity out.old ≤ vec_capacity out.new }
{
    registers(register);
    let mut after = None;
    for _ in 0..u64::MAX {
        let Some(entry) = entry_after(register, table, after) else {
            return Ok(());
        };
        put_row(out, register, &entry)?;
        after = Some(entry.place());
    }
    Ok(())
}

/// Adds the lines of the rules, the radios and the items.
#[tactic(auto, unfolding(crate::specs::Inside::Dumping::tables_text), using(identity::proofs::Printed::printed))]
fn put_tables<A: Allocator, B: Allocator + Clone>(
    out: &mut Vec<u8, A>,
    register: &Register<B>,
) -> Result<(), AllocError>
    ensures ok { OnOk result (out.new.items ≡ out.old.items ++ tables_text register.now) }
    ensures err { OnErr result (IsPrefixOf out.old.items out.new.items) }
    ensures full { OnErr result (vec_capacity out.old < vec_len out.old + length (tables_text register.now)) }
    ensures capacity { vec_capacity out.old ≤ vec_capacity out.new }
{
    put_rows(out, register, &Table::Rules)?;
    put_rows(out, register, &Table::Radios(None))?;
    put_rows(out, register, &Table::Items)
}

/// Adds the line of a station's last accepted command, if it has one.
#[tactic(auto, using(std::proofs::Common::append_assoc))]
fn put_last<A: Allocator, B: Allocator>(
    out: &mut Vec<u8, A>,
    station: u64,
    last: &Option<LastAccepted<B>>,
) -> Result<(), AllocError>
    ensures ok { OnOk result (out.new.items ≡ out.old.items ++ last_text station last.now) }
    ensures err { OnErr result (IsPrefixOf out.old.items out.new.items) }
    ensures full { OnErr result (vec_capacity out.old < vec_len out.old + length (last_text station last.now)) }
    ensures capacity { vec_capacity out.old ≤ vec_capacity out.new }
{
    let Some(last) = last else {
        return Ok(());
    };
    put_parts(
        out,
        &[
            Part::Text("last "),
            Part::Number(station),
            Part::Text(" "),
            Part::Number(u64::from(last.sequence.number())),
            Part::Text(" "),
            Part::Number(last.number),
            Part::Text(" "),
            pdu_part(&last.pdu),
            Part::Text("\n"),
        ],
    )
}

/// Adds the lines of the stations that have an accepted command.
fn put_lasts<A: Allocator, B: Allocator>(
    out: &mut Vec<u8, A>,
    served: &[Option<LastAccepted<B>>],
) -> Result<(), AllocError>
    ensures ok { OnOk result (out.new.items ≡ out.old.items ++ lasts_text 1 served.now) }
    ensures err { OnErr result (IsPrefixOf out.old.items out.new.items) }
    ensures full { OnErr result (vec_capacity out.old < vec_len out.old + length (lasts_text 1 served.now)) }
    ensures capacity { vec_capacity out.old ≤ vec_capacity out.new }
{
    for at in 0..served.len() {
        put_last(out, at as u64 + 1, &served[at])?;
    }
    Ok(())
}

/// Adds the whole text, a part after the other.
#[tactic(auto, using(identity::proofs::Printed::printed))]
fn put_parts_of_dump<A: Allocator, B: Allocator + Clone>(
    out: &mut Vec<u8, A>,
    register: &Register<B>,
) -> Result<(), AllocError>
    ensures ok { OnOk result (out.new.items ≡ out.old.items ++ (head_text register.now ++ tables_text register.now ++ lasts_text 1 register.now.served)) }
    ensures err { OnErr result (IsPrefixOf out.old.items out.new.items) }
    ensures full { OnErr result (vec_capacity out.old < vec_len out.old
        + length (head_text register.now ++ tables_text register.now ++ lasts_text 1 register.now.served)) }
    ensures capacity { vec_capacity out.old ≤ vec_capacity out.new }
{
    put_head(out, register)?;
    put_tables(out, register)?;
    put_lasts(out, register.served())
}

/// Adds the text of the register, after the number of its lines.
pub(crate) fn put_dump<A: Allocator, B: Allocator + Clone>(
    out: &mut Vec<u8, A>,
    register: &Register<B>,
) -> Result<(), AllocError>
    ensures ok { OnOk result (out.new.items ≡ out.old.items ++ dump_text register.now) }
    ensures err { OnErr result (IsPrefixOf out.old.items out.new.items) }
    ensures full { OnErr result (vec_capacity out.old < vec_len out.old + length (dump_text register.now)) }
    ensures capacity { vec_capacity out.old ≤ vec_capacity out.new }
{
    put_parts_of_dump(out, register)
}
