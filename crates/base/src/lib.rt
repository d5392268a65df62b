//! What every crate may need and none owns: copies that may fail, a count of steps, and lemmas on the types of the standard library.
#![tactic(auto)]

ghost use Rattle.std.specs.Prelude.{◌≡◌, IfOk};

use std::alloc::AllocError;

mod steps;

pub use steps::Steps;

/// What can be copied, memory allowing.
pub trait TryCopy {
    /// The same value again, in memory of its own.
    fn try_copy(&self) -> Result<Self, AllocError>
        ensures { IfOk result (λ copy. copy ≡ self.now) };
}
