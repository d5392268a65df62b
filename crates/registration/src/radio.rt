//! What is known of a radio.

ghost use Rattle.std.specs.Prelude.{◌≡◌, IfOk, true};

use crate::{LocationArea, Station};
use base::TryCopy;
use std::alloc::AllocError;

/// Where a radio is, or was when it left.
#[derive(Clone, Copy, Debug, PartialEq, Eq)]
pub struct Radio {
    /// The station that its last location update came by.
    pub station: Station,
    /// The location area of that update.
    pub area: LocationArea,
    /// Whether it has not left since.
    pub present: bool,
}

impl Radio {
    // A radio that is present at this station and location area.
    pub(crate) fn at(station: Station, area: LocationArea) -> Radio
        ensures { result ≡ record { station = station; area = area; present = true } }
    {
        Radio {
            station,
            area,
            present: true,
        }
    }
}

impl TryCopy for Radio {
    fn try_copy(&self) -> Result<Radio, AllocError> {
        Ok(*self)
    }
}
