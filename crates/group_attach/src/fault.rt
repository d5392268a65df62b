//! Why groups are not changed.

use thiserror::Error;

/// Why a radio's groups are not changed.
#[derive(Clone, Copy, Debug, PartialEq, Eq, Drop, Error)]
pub enum GroupFault {
    /// The radio is not present.
    #[error("the radio is not attached")]
    NotAttached,
    /// The radio would be attached to more than 32 groups.
    #[error("the radio would have too many groups")]
    TooManyGroups,
    /// Memory ran out.
    #[error("out of memory")]
    NoMemory,
}
