ghost use Rattle.std.specs.Prelude.{◌≡◌};
ghost use Rattle.std.specs.Arc.{arc_value};

use centre_core::Command;
use registration::Station;
use std::alloc::Global;
use std::sync::Arc;

/// A command that threads share. It is freed with its last owner.
pub type SharedCommand = Arc<Command<Global>, Global>;

/// A command with two owners, both made before it is sent. One goes into the list of accepted commands, the other comes
/// back with the answer. So its taker needs no memory for either.
#[derive(Drop)]
pub struct Request {
    pub command: Arc<Command<Global>, Global>,
    pub copy: Arc<Command<Global>, Global>,
    /// Whether its sender is about to send another command.
    pub more: bool,
    pub ghost same: { arc_value copy ≡ arc_value command },
}

/// What a station puts into the queue.
#[derive(Drop)]
pub enum Entry {
    /// A command of its own.
    Submitted(Request),
    /// The station of a session that has ended.
    Ended(Station),
}
