use crate::log::LogPrefix;
use centre_core::{Command, Register};
use left_right::Absorb;
use std::alloc::{AllocError, Global};
use std::sync::Arc;

/// A copy of the register, and the list of commands that made it.
#[derive(Drop)]
pub struct Snapshot {
    pub register: Register<Global>,
    pub list: LogPrefix,
    pub alloc: Global,
}

/// A command, and the list that ends with it.
#[derive(Drop)]
pub struct Change {
    pub command: Arc<Command<Global>, Global>,
    pub list: LogPrefix,
}

impl Absorb<Change> for Snapshot {
    ghost use Rattle.std.specs.Arc.{arc_value};
    ghost use Rattle.centre_core.specs.History.{next};

    type State = (Register<Global>, LogPrefix);

    ghost state = { λ s. (s.register, s.list) };

    ghost applied = { λ s c. (next s.0 (arc_value c.command), c.list) };

    fn absorb_first(&mut self, operation: &Change, _other: &Snapshot) -> Result<(), AllocError> {
        let _reply = self.register.apply(self.alloc, &operation.command)?;
        self.list = operation.list.again();
        Ok(())
    }
}
