//! What judging found, so that the change need not look it up again.

use crate::Key;
use crate::place::ItemPlace;

/// What judging found for a new item.
#[derive(Clone, Copy, Debug, PartialEq, Eq)]
pub struct Opening {
    /// The key of the item.
    pub(crate) key: Key,
    /// For how many seconds it is kept.
    pub(crate) keep: u32,
    /// Whether nothing waits for its destination.
    pub(crate) is_first: bool,
}

/// What judging found for a report.
#[derive(Clone, Copy, Debug, PartialEq, Eq)]
pub struct ReportOpening {
    /// What it found for the report as a new item.
    pub(crate) opening: Opening,
    /// The place of the earlier report that it replaces.
    pub(crate) earlier: Option<ItemPlace>,
    /// Whether it ends the message.
    pub(crate) ends: bool,
    /// Whether only the message waits for the message's destination, once the report is put.
    pub(crate) is_alone: bool,
}
