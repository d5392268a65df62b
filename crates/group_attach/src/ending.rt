//! What ends attachments.

use identity::Gtsi;
use mm_pdus::LocationUpdateType;

/// What ends attachments of a radio.
#[derive(Clone, Copy)]
pub(crate) enum Ending {
    /// It leaves this group.
    Leave(Gtsi),
    /// Its location update of this type is accepted.
    Update(LocationUpdateType),
}
