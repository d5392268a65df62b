use centre_core::Refusal;
use identity::Bits;
use recovery::StoreFault;
use snapshots::{Centre, Published};
use std::alloc::Global;

/// How a submitted command was answered.
#[derive(Drop)]
pub enum Answer<J: Centre> {
    /// It was accepted under this number, with this PDU of its reply. It is in the published list, which the session has
    /// now seen.
    Accepted {
        number: u64,
        pdu: Option<Bits<Global>>,
        published: Published<J>,
    },
    /// A command of its station and sequence was accepted under this number, with this PDU, and is durable. It was submitted
    /// earlier, or it is this one. If it is this one, it is not published yet, since memory ran out.
    Kept {
        number: u64,
        pdu: Option<Bits<Global>>,
    },
    /// It was refused.
    Refused(Refusal<Global>),
    /// Memory ran out before it was accepted.
    NoMemory,
    /// The device failed, now or earlier, or the last epoch is used up.
    Fault(StoreFault),
    /// No answer was received, as once the flusher is gone, or what was received does not fit the command.
    Closed,
}
