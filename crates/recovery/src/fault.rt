//! Why a call on a register that is kept on a disk is refused.
ghost use Rattle.std.specs.Prelude.{◌≡◌};
ghost use Rattle.recovery.specs.declared.fault.StoreFault.TheVariants.{DiskFault, NoMemory};
ghost use Rattle.recovery.specs.Checking.{unless_damaged};
ghost use Rattle.recovery.specs.Opening.{fault_of};

use gated_journal::JournalError;
use sector_disk::DiskError;
use std::alloc::AllocError;
use thiserror::Error;

/// Why a call on a register that is kept on a disk is refused.
#[derive(Clone, Copy, Debug, PartialEq, Eq, Drop, Error)]
pub enum StoreFault {
    /// The disk has no label.
    #[error("the disk is unformatted")]
    Unformatted,
    /// The label states another layout or a number out of its range, or the disk has too few sectors.
    #[error("the disk has a bad geometry")]
    BadGeometry,
    /// The sector of this number is damaged.
    #[error("sector {0} is damaged")]
    Damaged(u64),
    /// The device failed.
    #[error("the disk has failed")]
    DiskFault,
    /// The device failed in an earlier call: the disk must be opened again.
    #[error("the disk has failed before")]
    Broken,
    /// Out of memory.
    #[error("there is no memory")]
    NoMemory,
    /// The register's image has the last epoch.
    #[error("the epochs are used up")]
    EpochsUsedUp,
    /// A record of all commands would not fit the journal: a checkpoint must be made first.
    #[error("the journal has no room: a checkpoint is to be made")]
    Unready,
}

impl StoreFault {
    /// The fault to be reported of a disk with this damaged sector, if it has one: the damage, where memory ran out. So out of memory masks
    /// no damage that was found.
    pub fn unless_damaged(self, sector: Option<u64>) -> StoreFault
        ensures { result ≡ unless_damaged sector self }
    {
        match (self, sector) {
            (StoreFault::NoMemory, Some(sector)) => StoreFault::Damaged(sector),
            _ => self,
        }
    }
}

impl From<DiskError> for StoreFault {
    ghost from_gives = { λ _ e. e ≡ DiskFault };

    fn from(_: DiskError) -> Self {
        StoreFault::DiskFault
    }
}

impl From<AllocError> for StoreFault {
    ghost from_gives = { λ _ e. e ≡ NoMemory };

    fn from(_: AllocError) -> Self {
        StoreFault::NoMemory
    }
}

impl From<JournalError> for StoreFault {
    ghost from_gives = { λ error e. e ≡ fault_of error };

    fn from(error: JournalError) -> Self {
        match error {
            JournalError::Damaged(at) => StoreFault::Damaged(at),
            JournalError::NoMemory => StoreFault::NoMemory,
            JournalError::DiskFault | JournalError::JournalFull => StoreFault::DiskFault,
        }
    }
}
