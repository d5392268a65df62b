//! What can be listed, and its text.
ghost use Rattle.std.specs.Prelude.{◌≡◌, ◌≤◌, ◌<◌, ◌+◌, ◌++◌, OnOk, OnErr, length, true, vec_len, vec_capacity};
ghost use Rattle.identity.specs.NumberText.{IsPrefixOf};
ghost use Rattle.listings.specs.Parts.{answer_room};
ghost use Rattle.listings.specs.Texts.{is_line, listing_text};

use crate::dump::put_dump;
use crate::last::put_last;
use crate::room::put_room;
use crate::table::put_table;
use centre_core::Register;
use identity::{Prefix, put_whole};
use mailbox::Moment;
use registration::Station;
use std::alloc::{AllocError, Allocator};

/// A table of a register, or a part of one.
#[derive(Clone, Copy, Debug, PartialEq, Eq)]
pub enum Table {
    /// All rules, by prefix.
    Rules,
    /// The radios under a prefix, by ITSI; all radios for `None`.
    Radios(Option<Prefix>),
    /// All waiting items, by number, then by key: the oldest first.
    Items,
    /// The waiting items whose deadline is at most the moment, in the same order.
    Due(Moment),
    /// The waiting items whose destination is a radio that is present at the station, in the same order.
    WaitingAt(Station),
}

/// What can be listed.
#[derive(Clone, Copy, Debug, PartialEq, Eq)]
pub enum Listing {
    /// The entries of a table, a line each, after a line with their number.
    Entries(Table),
    /// A station's last accepted command: one line.
    Last(Station),
    /// How full the register is: one line.
    Room,
    /// The whole register: the lines of its text, after a line with their number.
    Dump,
}

fn put_listing<A: Allocator, B: Allocator + Clone>(
    out: &mut Vec<u8, A>,
    register: &Register<B>,
    listing: &Listing,
) -> Result<(), AllocError>
    ensures ok { OnOk result (out.new.items ≡ out.old.items ++ listing_text register.now listing.now) }
    ensures err { OnErr result (IsPrefixOf out.old.items out.new.items) }
    ensures full { OnErr result (vec_capacity out.old < vec_len out.old + length (listing_text register.now listing.now)) }
    ensures capacity { vec_capacity out.old ≤ vec_capacity out.new }
    ensures line { is_line listing.now ≡ true → OnErr result (vec_capacity out.old < vec_len out.old + answer_room) }
{
    match listing {
        Listing::Entries(table) => put_table(out, register, table),
        Listing::Last(station) => put_last(out, register, *station),
        Listing::Room => put_room(out, register),
        Listing::Dump => put_dump(out, register),
    }
}

/// Adds the text of a listing of the register: its lines with their ends. When memory runs out, `out` is unchanged. Room for
/// 1,024 bytes is enough for a listing of one line. Nothing but the text takes memory.
pub fn print_listing<A: Allocator, B: Allocator + Clone>(
    out: &mut Vec<u8, A>,
    register: &Register<B>,
    listing: &Listing,
) -> Result<(), AllocError>
    ensures ok { OnOk result (out.new.items ≡ out.old.items ++ listing_text register.now listing.now) }
    ensures err { OnErr result (out.new.items ≡ out.old.items) }
    ensures full { OnErr result (vec_capacity out.old < vec_len out.old + length (listing_text register.now listing.now)) }
    ensures capacity { vec_capacity out.old ≤ vec_capacity out.new }
    ensures line { is_line listing.now ≡ true → OnErr result (vec_capacity out.old < vec_len out.old + answer_room) }
{
    let before = out.len();
    let put = put_listing(out, register, listing);
    put_whole(out, before, put)
}
