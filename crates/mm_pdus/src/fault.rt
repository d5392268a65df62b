//! The faults of the bits of a PDU.

use thiserror::Error;

/// Why bits are no PDU, or a PDU was not written.
#[derive(Clone, Copy, Debug, PartialEq, Eq, Drop, Error)]
pub enum MmFault {
    /// Bits of a field are missing.
    #[error("bits of a field are missing")]
    Short,
    /// Bits follow the end of the PDU.
    #[error("bits follow the end of the PDU")]
    Trailing,
    /// The first four bits are no PDU type that is read.
    #[error("the PDU type is unknown")]
    UnknownType,
    /// A field or an element has a value that it may not have.
    #[error("an element has a value that it may not have")]
    BadElement,
    /// A group has a type of address that is not supported.
    #[error("the address type is not supported")]
    UnsupportedAddress,
    /// More groups are named than one PDU may name.
    #[error("there are too many groups")]
    TooMany,
    /// Memory ran out.
    #[error("out of memory")]
    NoMemory,
}
