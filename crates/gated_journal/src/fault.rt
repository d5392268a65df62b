// Why a call of a journal is refused.
ghost use Rattle.std.specs.Prelude.{◌≡◌};
ghost use Rattle.gated_journal.specs.declared.fault.JournalError.TheVariants.{DiskFault, NoMemory};

use sector_disk::DiskError;
use std::alloc::{AllocError, AllocFailed};
use thiserror::Error;

/// Why a call of a journal is refused.
#[derive(Clone, Copy, Debug, PartialEq, Eq, Drop, Error)]
pub enum JournalError {
    /// The record has more data sectors than there is room for. Nothing was done.
    #[error("the journal is full")]
    JournalFull,
    /// The device failed. Read the half again before more is added.
    #[error("the disk has failed")]
    DiskFault,
    /// That sector holds no gate and no start of a record that an append could have left.
    #[error("sector {0} of the journal is damaged")]
    Damaged(u64),
    /// Memory ran out.
    #[error("no memory for the journal")]
    NoMemory,
}

impl From<AllocError> for JournalError {
    ghost from_gives = { λ _ e. e ≡ NoMemory };

    fn from(_: AllocError) -> Self {
        JournalError::NoMemory
    }
}

impl<T: Drop> From<AllocFailed<T>> for JournalError {
    ghost from_gives = { λ _ e. e ≡ NoMemory };

    fn from(_: AllocFailed<T>) -> Self {
        JournalError::NoMemory
    }
}

impl From<DiskError> for JournalError {
    ghost from_gives = { λ _ e. e ≡ DiskFault };

    fn from(_: DiskError) -> Self {
        JournalError::DiskFault
    }
}
