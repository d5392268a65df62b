//! A listing of the register that a session reads.
ghost use Rattle.std.specs.Prelude.{◌≡◌, ◌≤◌, ◌<◌, IfNone, false, min, take, vec_capacity, vec_len};
ghost use Rattle.listings.specs.Texts.{is_line};
ghost use Rattle.stations.specs.Listings.{takes_turn};
ghost use Rattle.stations.specs.Inside.Listing.{AddsListing};

use crate::listing_bound::Turn;
use crate::session_desk::Began;
use crate::station_text::StationText;
use desk::Outage;
use flusher::Session;
use listings::Listing;
use snapshots::{Centre, ReadFault};
use std::alloc::Global;
use std::rt::Clock;
use std::sync::Wait;

// Whether the listing is one line.
fn is_line(listing: &Listing) -> bool
    ensures { result ≡ is_line listing.now }
{
    match listing {
        Listing::Last(_) => true,
        Listing::Room => true,
        _ => false,
    }
}

// Whether the listing takes a turn.
fn takes_turn(listing: &Listing) -> bool
    ensures { result ≡ takes_turn listing.now }
{
    !matches!(listing, Listing::Last(_))
}

// Adds the text of a listing of the register that the session reads. If the listing takes a turn, the station has it.
fn read<K: Began, J: Centre>(
    turn: Option<&Turn<'_>>,
    session: &mut Session<J>,
    listing: &Listing,
    out: &mut Vec<u8, Global>,
) -> Result<(), Outage>
    requires turn { IfNone turn (takes_turn listing.now ≡ false) }
    ensures { AddsListing J.base K.may_order listing.now session.old session.new out.old out.new result }
{
    match session.list(listing, out) {
        Ok(()) => Ok(()),
        Err(ReadFault::NoMemory) => Err(Outage::Memory),
        Err(ReadFault::Closed) => Err(Outage::Closed),
    }
}

// Whether a text may be kept until it is written. A text that fits into the room that `out` had before may, and is not counted.
fn may_keep<R: Wait>(text: &StationText<'_, '_, R>, room: usize, out: &Vec<u8, Global>) -> bool
    ensures { result ≡ false → room < vec_len out.now }
{
    out.len() <= room || text.reserve(out.len())
}

// Drops what was added to a text, and the memory that this took.
fn drop_added(out: &mut Vec<u8, Global>, size: usize, room: usize)
    ensures items { out.new.items ≡ take size out.old.items }
    ensures capacity { min room (vec_capacity out.old) ≤ vec_capacity out.new }
{
    out.truncate(size);
    out.shrink_to(room);
}

// Adds the text of a listing of the register that the session reads, in this turn of its station. If the text of a table may
// not be kept, it is dropped, and the result is `Memory` (tested).
fn list_in_turn<K: Began, J: Centre, R: Wait>(
    turn: &Turn<'_>,
    text: &StationText<'_, '_, R>,
    session: &mut Session<J>,
    listing: &Listing,
    out: &mut Vec<u8, Global>,
) -> Result<(), Outage>
    ensures { AddsListing J.base K.may_order listing.now session.old session.new out.old out.new result }
{
    let (size, room) = (out.len(), out.capacity());
    if let Err(word) = read::<K, J>(Some(turn), session, listing, out) {
        return Err(word);
    }
    if is_line(listing) || may_keep(text, room, out) {
        return Ok(());
    }
    drop_added(out, size, room);
    Err(Outage::Memory)
}

/// Adds the text of a listing of the register that the session reads, at once or when it is the station's turn.
pub(crate) fn list<K: Began, J: Centre, R: Wait + Clock>(
    text: &StationText<'_, '_, R>,
    session: &mut Session<J>,
    listing: &Listing,
    out: &mut Vec<u8, Global>,
) -> Result<(), Outage>
    ensures { AddsListing J.base K.may_order listing.now session.old session.new out.old out.new result }
{
    if !takes_turn(listing) {
        return read::<K, J>(None, session, listing, out);
    }
    let turn = text.enter();
    let listed = list_in_turn::<K, J, R>(&turn, text, session, listing, out);
    text.leave(turn);
    listed
}
