ghost use Rattle.std.specs.Prelude.{◌≡◌};
ghost use Rattle.sds_tl.specs.declared.fault.SdsFault.TheVariants.{NoMemory};

use std::alloc::{AllocError, AllocFailed};
use thiserror::Error;

/// Why bits are no PDU of the short data transport layer, or why a PDU can't be written.
#[derive(Clone, Copy, Debug, PartialEq, Eq, Drop, Error)]
pub enum SdsFault {
    #[error("bits of a field are missing")]
    Short,
    #[error("bits follow the end")]
    Trailing,
    #[error("the protocol identifier is not one of this layer")]
    NotSdsTl,
    #[error("the message type is unknown")]
    UnknownType,
    #[error("storage and forward control is not supported")]
    StorageControl,
    #[error("there are too many bits")]
    TooLong,
    #[error("out of memory")]
    NoMemory,
    #[error("the PDU is no message")]
    NotATransfer,
}

impl From<AllocError> for SdsFault {
    ghost from_gives = { λ _ e. e ≡ NoMemory };

    fn from(_error: AllocError) -> SdsFault {
        SdsFault::NoMemory
    }
}

impl<T: Drop> From<AllocFailed<T>> for SdsFault {
    ghost from_gives = { λ _ e. e ≡ NoMemory };

    fn from(_error: AllocFailed<T>) -> SdsFault {
        SdsFault::NoMemory
    }
}
