//! One attachment.

use identity::{Gtsi, Itsi};
use mm_pdus::{ClassOfUsage, Lifetime};

/// That a radio is attached to a group.
#[derive(Clone, Copy, Debug, PartialEq, Eq)]
pub struct Attachment {
    /// The radio.
    pub itsi: Itsi,
    /// The group.
    pub gtsi: Gtsi,
    /// How the radio takes part.
    pub class: ClassOfUsage,
    /// How long it stays attached.
    pub lifetime: Lifetime,
}
