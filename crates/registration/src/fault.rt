//! What the register may answer in place of a change.

use thiserror::Error;

/// Why the register refuses a change.
#[derive(Clone, Copy, Debug, PartialEq, Eq, Drop, Error)]
pub enum RegFault {
    /// No rule serves the identity.
    #[error("no rule serves the identity")]
    UnknownIdentity,
    /// The identity's rule does not allow the location area.
    #[error("the location area is not allowed")]
    LaNotAllowed,
    /// The radio is new, and the register holds as many as it may.
    #[error("there is no room for another radio")]
    Congestion,
    /// The radio asks to migrate from another network.
    #[error("migration is not supported")]
    Migration,
    /// The type of the location update is not served.
    #[error("the type of location update is not supported")]
    UnsupportedType,
    /// The radio is not present.
    #[error("the radio is not attached")]
    NotAttached,
    /// The prefix is new, and the register holds as many rules as it may.
    #[error("there is no room for another rule")]
    RulesFull,
    /// Memory ran out.
    #[error("out of memory")]
    NoMemory,
}
