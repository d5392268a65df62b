//! How a group is named in a PDU.

ghost use Rattle.std.specs.Prelude.{◌≡◌};
ghost use Rattle.mm_pdus.specs.Address.{gtsi_of};

use crate::Gssi;
use identity::{Gtsi, Itsi};

/// How a group is named (clause 16.10, group identity address type).
#[derive(Clone, Copy, Debug, PartialEq, Eq)]
pub enum GroupAddress {
    /// 0: a group of the radio's own network.
    Short(Gssi),
    /// 1: a group with its country code and its network code.
    Full(Gtsi),
}

impl GroupAddress {
    /// The group that the address names for the radio `itsi`. A short address is completed by the radio's country code
    /// and network code.
    pub fn gtsi(self, itsi: Itsi) -> Gtsi
        ensures { result ≡ gtsi_of self itsi }
    {
        match self {
            GroupAddress::Short(gssi) => {
                Gtsi::new(itsi.mcc(), itsi.mnc(), gssi.number()).unwrap()
            }
            GroupAddress::Full(gtsi) => gtsi,
        }
    }
}
