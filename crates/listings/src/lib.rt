//! Listings: what a register holds, as lines, one entry after another. It reads a register and adds text. It knows nothing of
//! desks, lines of stations and disks.
//!
//! `specs/Entries.antt` says which entries a table has, `specs/Lines.antt` how an entry is written, and `specs/Texts.antt`
//! what a listing is; `specs/Dump.antt` has the text of a whole register. [`Part`] is a part of such a line, and of an answer's.
#![tactic(auto)]

mod dump;
mod entry;
mod item_parts;
mod last;
mod listing;
mod part;
mod room;
mod table;
mod waiting;
mod walk;
mod words;

pub use item_parts::{put_item_end, put_key};
pub use listing::{Listing, Table, print_listing};
pub use part::{Part, pdu_part, put_parts};
pub use words::{kind_word, presence_word};
