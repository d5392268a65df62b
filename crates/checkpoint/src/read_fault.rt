// Why an image is not read.
ghost use Rattle.std.specs.Prelude.{◌≡◌};
ghost use Rattle.checkpoint.specs.declared.read_fault.ReadFault.TheVariants.{DiskFault, NoMemory};

use sector_disk::DiskError;
use std::alloc::AllocError;
use thiserror::Error;

/// Why an image is not read.
#[derive(Clone, Copy, Debug, PartialEq, Eq, Drop, Error)]
pub enum ReadFault {
    /// The device failed.
    #[error("the disk has failed")]
    DiskFault,
    /// That sector is the slot's first bad one: it holds no row, or a row that can't come there.
    #[error("sector {0} of the disk is no row of its image")]
    Damaged(u64),
    /// Memory ran out.
    #[error("no memory for the register")]
    NoMemory,
}

impl From<AllocError> for ReadFault {
    ghost from_gives = { λ _ e. e ≡ NoMemory };

    fn from(_: AllocError) -> Self {
        ReadFault::NoMemory
    }
}

impl From<DiskError> for ReadFault {
    ghost from_gives = { λ _ e. e ≡ DiskFault };

    fn from(_: DiskError) -> Self {
        ReadFault::DiskFault
    }
}
