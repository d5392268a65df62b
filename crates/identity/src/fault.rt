//! The faults of bits and texts.

ghost use Rattle.std.specs.Prelude.{◌≡◌};
ghost use Rattle.identity.specs.declared.fault.Fault.TheVariants.{NoMemory};

use std::alloc::{AllocError, AllocFailed};
use thiserror::Error;

/// Why bits or a text are refused.
#[derive(Clone, Copy, Debug, PartialEq, Eq, Drop, Error)]
pub enum Fault {
    /// Fewer bits are left than were asked for.
    #[error("bits are missing")]
    Short,
    /// The text has not the form, whatever its numbers are.
    #[error("the text has not the form")]
    BadText,
    /// The text has the form, but a number in it is too great, a bit past a prefix is 1, or the bits are too many.
    #[error("a number is out of range")]
    OutOfRange,
    /// The allocator is out of memory.
    #[error("out of memory")]
    NoMemory,
}

impl From<AllocError> for Fault {
    ghost from_gives = { λ _ e. e ≡ NoMemory };

    fn from(_error: AllocError) -> Fault {
        Fault::NoMemory
    }
}

impl<T: Drop> From<AllocFailed<T>> for Fault {
    ghost from_gives = { λ _ e. e ≡ NoMemory };

    fn from(_error: AllocFailed<T>) -> Fault {
        Fault::NoMemory
    }
}
