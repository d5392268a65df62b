//! The rows of a register one after another, each found by the place of the one before. Only a list of them
//! allocates.
ghost use Rattle.std.specs.Prelude.{◌≡◌, ◌<◌, ◌≤◌, ◌^◌, IfOk, IfSome, length, map, option_map};
ghost use Rattle.centre_core.specs.Ranges.{IsShort};
ghost use Rattle.group_attach.specs.Applied.{most_of_radio};
ghost use Rattle.image_rows.specs.Rows.{RadioRow, ServedRow, header_of, how_many};
ghost use Rattle.image_rows.specs.RowText.{group_in};
ghost use Rattle.image_rows.specs.Walking.{row_after};
ghost use Rattle.image_rows.specs.Parts.{after_item, after_radio, after_rule, after_station};
ghost use Rattle.image_rows.specs.InTurn.{placed_row};
ghost use Rattle.image_rows.specs.Image.{sectors_of};

use crate::{Header, RowPlace, header_row, mail_row, radio_row, rule_row, served_row};
use centre_core::laws::registers;
use centre_core::{LastAccepted, Register};
use group_attach::Attachment;
use identity::{Itsi, Prefix};
use mailbox::Key;
use registration::{Radio, Station};
use std::alloc::{AllocError, Allocator};

fn served_count<A: Allocator>(served: &[Option<LastAccepted<A>>]) -> usize
    ensures { result ≡ how_many served.now }
{
    served.iter().filter(|last| last.is_some()).count()
}

fn header<A: Allocator + Clone>(register: &Register<A>, epoch: u64) -> Header
    ensures { result ≡ header_of epoch register.now }
{
    registers(register);
    let registry = register.registry();
    Header {
        epoch,
        count: register.count(),
        rules: registry.rule_count(),
        radios: registry.radio_count(),
        mail: register.mail().len() as u32,
        served: served_count(register.served()) as u32,
    }
}

// The row of a station that has an accepted command.
fn station_row<A: Allocator>(
    station: Station,
    last: &Option<LastAccepted<A>>,
) -> Option<(RowPlace, [u8; 512])>
    requires { IfSome last.now (λ k. IsShort k.pdu) }
    ensures { result ≡ option_map (λ k. placed_row (ServedRow station k)) last.now }
{
    match last {
        Some(kept) => {
            let row = served_row(station, kept.sequence, kept.number, &kept.pdu);
            Some((RowPlace::Served(station), row))
        }
        None => None,
    }
}

fn station_after<A: Allocator + Clone>(
    register: &Register<A>,
    after: u16,
) -> Option<(RowPlace, [u8; 512])>
    ensures { result ≡ option_map placed_row (after_station register.now after) }
{
    registers(register);
    let served = register.served();
    for station in after..served.len() as u16 {
        let next = Station::new(station + 1);
        if let Some(coming) = station_row(next, &served[usize::from(station)]) {
            return Some(coming);
        }
    }
    None
}

fn item_after<A: Allocator + Clone>(
    register: &Register<A>,
    after: Option<(u64, Key)>,
) -> Option<(RowPlace, [u8; 512])>
    ensures { result ≡ option_map placed_row (after_item register.now after) }
{
    registers(register);
    match register.mail().next(after) {
        Some(item) => Some((RowPlace::Mail(item.number(), item.key()), mail_row(item))),
        None => station_after(register, 0),
    }
}

// The row of a radio, with its place.
fn placed_radio(itsi: Itsi, radio: Radio, groups: &[Attachment]) -> (RowPlace, [u8; 512])
    requires { length groups.now ≤ most_of_radio }
    ensures row { result ≡ placed_row (RadioRow itsi radio (map group_in groups.now)) }
    ensures below { itsi < 2 ^ 48 }
{
    let row = radio_row(itsi, &radio, groups);
    let _number = itsi.number();
    (RowPlace::Radio(itsi), row)
}

fn radio_after<A: Allocator + Clone>(
    register: &Register<A>,
    after: Option<Itsi>,
) -> Option<(RowPlace, [u8; 512])>
    ensures { result ≡ option_map placed_row (after_radio register.now after) }
{
    registers(register);
    match register.registry().next_radio(after) {
        Some((itsi, radio)) => {
            let groups = register.groups().attachments(itsi);
            Some(placed_radio(itsi, radio, groups))
        }
        None => item_after(register, None),
    }
}

fn rule_after<A: Allocator + Clone>(
    register: &Register<A>,
    after: Option<Prefix>,
) -> Option<(RowPlace, [u8; 512])>
    ensures { result ≡ option_map placed_row (after_rule register.now after) }
{
    match register.registry().next_rule(after) {
        Some((prefix, rule)) => Some((RowPlace::Rule(prefix), rule_row(&prefix, &rule))),
        None => radio_after(register, None),
    }
}

/// The first row after a place in the register's image of this epoch, or the first of all, with its own place. It is
/// `None` after the last. The place itself may have no row. It never allocates, and never fails.
///
/// An epoch is from 1 to 2 to the 62nd. With any other the header can't be read back.
pub fn row_after<A: Allocator + Clone>(
    register: &Register<A>,
    epoch: u64,
    after: Option<RowPlace>,
) -> Option<(RowPlace, [u8; 512])>
    ensures { result ≡ option_map placed_row (row_after epoch register.now after) }
{
    registers(register);
    match &after {
        None => {
            let row = header_row(&header(register, epoch));
            Some((RowPlace::Header, row))
        }
        Some(RowPlace::Header) => rule_after(register, None),
        Some(RowPlace::Rule(prefix)) => rule_after(register, Some(*prefix)),
        Some(RowPlace::Radio(itsi)) => {
            let _number = itsi.number();
            radio_after(register, Some(*itsi))
        }
        Some(RowPlace::Mail(number, key)) => item_after(register, Some((*number, *key))),
        Some(RowPlace::Served(station)) => station_after(register, station.number()),
    }
}

/// All rows of the register's image of this epoch, in order. It fails only when the list is out of memory.
pub fn rows<A: Allocator + Clone, C: Allocator>(
    register: &Register<A>,
    epoch: u64,
    alloc: C,
) -> Result<Vec<[u8; 512], C>, AllocError>
    ensures { IfOk result (λ list. list.items ≡ sectors_of epoch register.now) }
{
    registers(register);
    let mut list = Vec::new(alloc);
    let mut coming = row_after(register, epoch, None);
    while let Some(next) = &coming {
        let row = next.1;
        list.push(row)?;
        coming = row_after(register, epoch, Some(next.0));
    }
    Ok(list)
}
