//! The first row of an image.
use std::marker::Model;

/// The tag of a header of layout 2. The records after its image state the number of their first command.
pub const HEADER_TAG: u8 = 22;

/// The tag of a header of layout 1. It is read, and no longer written.
pub const PLAIN_HEADER_TAG: u8 = 16;

/// What the first row of an image states.
#[derive(Clone, Copy, Debug)]
pub struct Header {
    /// The image's epoch, 1 to 2 to the 62nd.
    pub epoch: u64,
    /// How many commands were accepted.
    pub count: u64,
    /// How many rows of rules follow.
    pub rules: u32,
    /// How many rows of radios follow.
    pub radios: u32,
    /// How many rows of items follow.
    pub mail: u32,
    /// How many rows of stations follow.
    pub served: u32,
}

impl Model for Header {
    ghost use Rattle.image_rows.specs.Rows.{Header as HeaderValue};
    ghost use Rattle.image_rows.specs.Inside.Codes.{coded_header};

    ghost Value = { HeaderValue };

    ghost coded = { coded_header };

    ghost view = { λ h. record { epoch = h.epoch; count = h.count; rules = h.rules; radios = h.radios; mail = h.mail; served = h.served } };

    ghost inverse = { λ h. record { epoch = h.epoch; count = h.count; rules = h.rules; radios = h.radios; mail = h.mail; served = h.served } };
}
