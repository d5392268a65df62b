//! What a damaged side loses, as a line.
ghost use Rattle.std.specs.Prelude.{◌≡◌, OnOk};
ghost use Rattle.std.specs.Io.KnownBytes.{Appends};
ghost use Rattle.served_disk.specs.Losses.{is_header, is_of_records, is_row_of, loses_all, loss_by, loss_line, records_from, records_text, rows_in, rows_text};

use crate::printing::{LinePart, print};
use crate::showing_figures::side_text;
use checkpoint::Side;
use recovery::{Damage, DamageKind};
use std::io;
use std::io::Write;

/// Whether both are rows of the same kind.
fn is_row_of(kind: DamageKind, other: DamageKind) -> bool
    ensures { result ≡ is_row_of kind other }
{
    match (kind, other) {
        (DamageKind::Rule, DamageKind::Rule) => true,
        (DamageKind::Radio, DamageKind::Radio) => true,
        (DamageKind::Item, DamageKind::Item) => true,
        (DamageKind::Station, DamageKind::Station) => true,
        _ => false,
    }
}

fn is_header(kind: DamageKind) -> bool
    ensures { result ≡ is_header kind }
{
    matches!(kind, DamageKind::Header)
}

/// Whether a sector of this kind is to hold a record, or a gate that no record follows.
fn is_of_records(kind: DamageKind) -> bool
    ensures { result ≡ is_of_records kind }
{
    matches!(kind, DamageKind::Record(_) | DamageKind::Gate)
}

/// How many rows of a kind are damaged.
fn rows_in(kind: DamageKind, damaged: &[Damage]) -> u64
    ensures { result ≡ rows_in kind damaged.now }
{
    damaged.iter().filter(|it| is_row_of(kind, it.kind)).count() as u64
}

/// The first damaged sector of the records.
fn records_from(damaged: &[Damage]) -> Option<u64>
    ensures { result ≡ records_from damaged.now }
{
    let first = damaged.iter().find(|it| is_of_records(it.kind))?;
    Some(first.sector)
}

/// Whether the header is damaged.
fn loses_all(damaged: &[Damage]) -> bool
    ensures { result ≡ loses_all damaged.now }
{
    damaged.iter().any(|it| is_header(it.kind))
}

/// Writes how many entries are lost with the damaged rows.
#[tactic(auto, unfolding(crate::specs::Losses::rows_text))]
fn print_rows<W: Write>(out: &mut W, damaged: &[Damage]) -> io::Result<()>
    ensures { OnOk result (Appends (W.contents out.old) (W.contents out.new) (rows_text damaged.now)) }
{
    let parts = [
        LinePart::Text(" loses rules "),
        LinePart::Number(rows_in(DamageKind::Rule, damaged)),
        LinePart::Text(" radios "),
        LinePart::Number(rows_in(DamageKind::Radio, damaged)),
        LinePart::Text(" items "),
        LinePart::Number(rows_in(DamageKind::Item, damaged)),
        LinePart::Text(" stations "),
        LinePart::Number(rows_in(DamageKind::Station, damaged)),
    ];
    print(out, &parts)
}

/// Writes from which sector on records are lost.
fn print_records<W: Write>(out: &mut W, from: Option<u64>) -> io::Result<()>
    ensures { OnOk result (Appends (W.contents out.old) (W.contents out.new) (records_text from)) }
{
    match from {
        None => out.write_all(b" records none\n"),
        Some(sector) => {
            let parts = [
                LinePart::Text(" records from "),
                LinePart::Number(sector),
                LinePart::Text("\n"),
            ];
            print(out, &parts)
        }
    }
}

/// Writes what is lost: all, or the entries of damaged rows and the records.
#[tactic(auto, using(std::proofs::Common::append_assoc))]
fn print_lost<W: Write>(out: &mut W, all: bool, damaged: &[Damage]) -> io::Result<()>
    ensures { OnOk result (Appends (W.contents out.old) (W.contents out.new) (loss_by all damaged.now)) }
{
    if all {
        return out.write_all(b" loses all\n");
    }
    print_rows(out, damaged)?;
    print_records(out, records_from(damaged))
}

/// Writes the line of what a side loses with these damaged sectors.
#[tactic(auto, using(std::proofs::Common::append_assoc))]
pub(crate) fn print_losses<W: Write>(out: &mut W, side: Side, damaged: &[Damage]) -> io::Result<()>
    ensures { OnOk result (Appends (W.contents out.old) (W.contents out.new) (loss_line side damaged.now)) }
{
    print(
        out,
        &[LinePart::Text("side "), LinePart::Text(side_text(side))],
    )?;
    print_lost(out, loses_all(damaged), damaged)
}
