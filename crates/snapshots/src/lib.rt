//! Snapshots of the register for readers that never wait: two copies of it, of which viewers read one without a lock.
//! The publisher changes the other and then swaps the two. It waits for viewers that still read the older one, starts no
//! thread, and knows nothing of disks and sessions.
//!
//! The commands that the published copy was made by are a list that exists in proofs alone. A viewer reads the register
//! after a list that begins with all that the viewer saw before, and with every list that it learnt.
#![tactic(auto)]

mod appending;
mod counting;
mod log;
mod making;
mod published;
mod publisher;
mod publishing;
mod rule;
mod snapshot;
mod viewer;
mod visit;

pub use counting::next_count;
pub use log::{Centre, NewLog};
pub use making::{MakeFault, PENDING, PLACES, make};
pub use published::Published;
pub use publisher::Publisher;
pub use viewer::{ReadFault, Viewer};
pub use visit::Visit;
