//! One flusher and many sessions over one store: sessions submit commands and wait for their answers, and the flusher
//! commits what has gathered, publishes it and answers. It calls the disk through the store alone. It starts no thread, and
//! knows nothing of lines and files.
#![tactic(auto)]

mod answer;
mod answering;
mod batch;
mod closing;
mod committing;
mod decision;
mod flusher;
mod hearing;
mod listening;
pub mod lives;
mod moment;
mod opening;
mod publishing;
mod putting;
mod response;
mod running;
mod serving;
mod session;

pub use answer::Answer;
pub use closing::close;
pub use committing::register_of;
pub use decision::Decision;
pub use flusher::{Flusher, Gate};
pub use opening::{CentreFault, has_place, open_centre};
pub use response::Response;
pub use session::{Ended, Session};
