//! Where a row is in an image.

use identity::{Itsi, Prefix};
use mailbox::Key;
use registration::Station;

/// The place of a row. Places rise from the header to the last station.
#[derive(Clone, Copy, Debug)]
pub enum RowPlace {
    /// The first row.
    Header,
    /// The rule under this prefix.
    Rule(Prefix),
    /// The radio with its groups.
    Radio(Itsi),
    /// The item of this number and key.
    Mail(u64, Key),
    /// The last accepted command of this station.
    Served(Station),
}
