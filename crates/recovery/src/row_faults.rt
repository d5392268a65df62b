//! What is wrong with a row by itself.
ghost use Rattle.std.specs.Prelude.{◌≡◌};
ghost use Rattle.image_rows.specs.RowReading.{row_in};
ghost use Rattle.image_rows.specs.RowViews.{row_view};
ghost use Rattle.recovery.specs.Damage.{fault_at, fault_of_first, header_of, is_due, kind_at};

use crate::damaged::{DamageKind, Reason};
use image_rows::{Header, ReadRow, read_row};

// The header that these bytes are.
pub(crate) fn header_of(bytes: &[u8]) -> Option<Header>
    ensures { result ≡ header_of (row_in bytes.now) }
{
    match &read_row(bytes)? {
        ReadRow::Header(header) => Some(*header),
        _ => None,
    }
}

// What the row at a place after the header is to hold.
pub(crate) fn kind_at(header: &Header, place: u64) -> DamageKind
    ensures { result ≡ kind_at header.now place }
{
    let rules = u64::from(header.rules);
    let radios = rules + u64::from(header.radios);
    if place <= rules {
        DamageKind::Rule
    } else if place <= radios {
        DamageKind::Radio
    } else if place <= radios + u64::from(header.mail) {
        DamageKind::Item
    } else {
        DamageKind::Station
    }
}

// Whether the row is of the kind that this place is to hold.
fn is_due(header: &Header, place: u64, row: &ReadRow<'_>) -> bool
    ensures { result ≡ is_due header.now place (row_view row.now) }
{
    let rules = u64::from(header.rules);
    let radios = rules + u64::from(header.radios);
    let mail = radios + u64::from(header.mail);
    match row {
        ReadRow::Header(_) => false,
        ReadRow::Rule { .. } => place <= rules,
        ReadRow::Radio { .. } => rules < place && place <= radios,
        ReadRow::Mail(_) => radios < place && place <= mail,
        ReadRow::Served { .. } => mail < place,
    }
}

// What is wrong with the row at a place by itself.
pub(crate) fn fault_at(header: &Header, place: u64, bytes: &[u8]) -> Option<Reason>
    ensures { result ≡ fault_at header.now place (row_in bytes.now) }
{
    let Some(row) = read_row(bytes) else {
        return Some(Reason::Unreadable);
    };
    if is_due(header, place, &row) {
        None
    } else {
        Some(Reason::OutOfPlace)
    }
}

// What is wrong with the row at which opening stops.
pub(crate) fn fault_of_first(bytes: &[u8]) -> Reason
    ensures { result ≡ fault_of_first (row_in bytes.now) }
{
    match &read_row(bytes) {
        None => Reason::Unreadable,
        Some(_) => Reason::OutOfPlace,
    }
}
