//! Why a call on a side of a disk is refused.
ghost use Rattle.std.specs.Prelude.{◌≡◌};
ghost use Rattle.checkpoint.specs.declared.fault.CheckpointError.TheVariants.{DiskFault};

use sector_disk::DiskError;
use thiserror::Error;

/// Why a call on a side of a disk is refused.
#[derive(Clone, Copy, Debug, PartialEq, Eq, Drop, Error)]
pub enum CheckpointError {
    /// The device failed.
    #[error("the disk has failed")]
    DiskFault,
    /// The current image has the last epoch. Nothing was done.
    #[error("the epochs are used up")]
    EpochsUsedUp,
}

impl From<DiskError> for CheckpointError {
    ghost from_gives = { λ _ e. e ≡ DiskFault };

    fn from(_: DiskError) -> Self {
        CheckpointError::DiskFault
    }
}
