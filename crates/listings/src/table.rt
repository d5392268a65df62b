//! A table as lines: the number of its entries, then each entry.
ghost use Rattle.std.specs.Prelude.{◌≡◌, ◌≤◌, ◌<◌, ◌+◌, ◌++◌, OnOk, OnErr, length, vec_len, vec_capacity};
ghost use Rattle.std.specs.List.{flat_map};
ghost use Rattle.identity.specs.NumberText.{IsPrefixOf};
ghost use Rattle.listings.specs.Entries.{entries_of};
ghost use Rattle.listings.specs.Lines.{count_text, entry_line, list_text};
ghost use Rattle.listings.specs.Texts.{table_words};

use crate::entry::put_entry;
use crate::listing::Table;
use crate::part::{Part, put_parts};
use crate::walk::entry_after;
use centre_core::Register;
use centre_core::laws::registers;
use std::alloc::{AllocError, Allocator, Global};

/// How many entries there are, counted one after another.
fn count_in_turn<B: Allocator + Clone>(register: &Register<B>, table: &Table) -> u64
    ensures { result ≡ length (entries_of register.now table.now) }
{
    registers(register);
    let mut after = None;
    for passed in 0..u64::MAX {
        let Some(entry) = entry_after(register, table, after) else {
            return passed;
        };
        after = Some(entry.place());
    }
    u64::MAX
}

/// How many entries a table has. Of a whole table the register knows it.
fn count<B: Allocator + Clone>(register: &Register<B>, table: &Table) -> u64
    ensures { result ≡ length (entries_of register.now table.now) }
{
    match table {
        Table::Rules => u64::from(register.registry().rule_count()),
        Table::Radios(None) => u64::from(register.registry().radio_count()),
        Table::Items => register.mail().len() as u64,
        Table::Radios(Some(_)) | Table::Due(_) | Table::WaitingAt(_) => {
            count_in_turn(register, table)
        }
    }
}

/// Adds the line of each entry of a table.
fn put_entries<A: Allocator, B: Allocator + Clone>(
    out: &mut Vec<u8, A>,
    register: &Register<B>,
    table: &Table,
) -> Result<(), AllocError>
    ensures ok { OnOk result (out.new.items ≡ out.old.items ++ flat_map entry_line (entries_of register.now table.now)) }
    ensures err { OnErr result (IsPrefixOf out.old.items out.new.items) }
    ensures full { OnErr result (vec_capacity out.old < vec_len out.old + length (flat_map entry_line (entries_of register.now table.now))) }
    ensures capacity { vec_capacity out.old ≤ vec_capacity out.new }
{
    registers(register);
    let mut after = None;
    for _ in 0..u64::MAX {
        let Some(entry) = entry_after(register, table, after) else {
            return Ok(());
        };
        put_entry(out, &entry)?;
        after = Some(entry.place());
    }
    Ok(())
}

/// Adds what is listed, and how many lines follow.
fn put_head<A: Allocator>(out: &mut Vec<u8, A>, table: &Table, count: u64) -> Result<(), AllocError>
    ensures ok { OnOk result (out.new.items ≡ out.old.items ++ (table_words table.now ++ count_text count)) }
    ensures err { OnErr result (IsPrefixOf out.old.items out.new.items) }
    ensures full { OnErr result (vec_capacity out.old < vec_len out.old + length (table_words table.now ++ count_text count)) }
    ensures capacity { vec_capacity out.old ≤ vec_capacity out.new }
{
    let lines = Part::Number(count);
    let end = Part::Text("\n");
    match table {
        Table::Rules => put_parts::<A, Global>(out, &[Part::Text("rules "), lines, end]),
        Table::Radios(None) => put_parts::<A, Global>(out, &[Part::Text("radios "), lines, end]),
        Table::Radios(Some(prefix)) => {
            let under = Part::Prefix(*prefix);
            put_parts::<A, Global>(
                out,
                &[Part::Text("radios "), under, Part::Text(" "), lines, end],
            )
        }
        Table::Items => put_parts::<A, Global>(out, &[Part::Text("items "), lines, end]),
        Table::Due(moment) => {
            let by = Part::Number(u64::from(moment.number()));
            put_parts::<A, Global>(out, &[Part::Text("due "), by, Part::Text(" "), lines, end])
        }
        Table::WaitingAt(station) => {
            let at = Part::Number(u64::from(station.number()));
            put_parts::<A, Global>(
                out,
                &[Part::Text("waiting "), at, Part::Text(" "), lines, end],
            )
        }
    }
}

/// Adds the lines of a table.
pub(crate) fn put_table<A: Allocator, B: Allocator + Clone>(
    out: &mut Vec<u8, A>,
    register: &Register<B>,
    table: &Table,
) -> Result<(), AllocError>
    ensures ok { OnOk result (out.new.items ≡ out.old.items ++ (table_words table.now ++ list_text entry_line (entries_of register.now table.now))) }
    ensures err { OnErr result (IsPrefixOf out.old.items out.new.items) }
    ensures full { OnErr result (vec_capacity out.old < vec_len out.old
        + length (table_words table.now ++ list_text entry_line (entries_of register.now table.now))) }
    ensures capacity { vec_capacity out.old ≤ vec_capacity out.new }
{
    put_head(out, table, count(register, table))?;
    put_entries(out, register, table)
}
