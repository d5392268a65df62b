use base::TryCopy;
use std::alloc::AllocError;

/// A value that is copied without memory.
#[derive(Clone, Copy, Debug, PartialEq, Eq)]
pub struct Number(pub u64);

impl TryCopy for Number {
    fn try_copy(&self) -> Result<Number, AllocError> {
        Ok(*self)
    }
}
