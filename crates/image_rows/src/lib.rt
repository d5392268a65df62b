//! A register as the rows of its image, one sector for each row, and a register from such rows. It calls no disk, and
//! knows nothing of files, journals and lines.
#![tactic(auto)]

mod attached;
mod header;
mod in_turn;
mod item;
mod judging;
pub mod laws;
mod loader;
mod pdu;
mod place;
mod putting;
mod reading;
mod row_groups;
pub mod row_laws;
mod sector;
mod unchecked_item;
mod writing;

pub use header::{HEADER_TAG, Header, PLAIN_HEADER_TAG};
pub use in_turn::{row_after, rows};
pub use item::ReadItem;
pub use loader::Loader;
pub use place::RowPlace;
pub use reading::{LAST_EPOCH, ReadRow, read_row};
pub use row_groups::PackedGroups;
pub use sector::SectorText;
pub use writing::{header_row, mail_row, radio_row, rule_row, served_row};
