//! What is called as a run goes on.

use console::{Ran, RunFault};
use flusher::Gate;
use registration::Station;

/// What is called as a run goes on. It is also the gate of the flusher's rounds.
///
/// Each call below is made in the station's thread. If no thread could be made for the station, `after_run` and the calls for the end of its
/// session are made in the thread of the run, before its first round. No contract says which thread makes a call, nor which call comes
/// before which; tests see the order.
pub trait Watch: Gate {
    /// Entries of this station are about to be put into the queue: commands that came together, or the end of its session. A command
    /// is not put if memory runs out for it, or if the station may not submit it.
    fn before_entry(&self, station: Station);

    /// The entries were put into the queue, and all commands among them are answered.
    fn after_entry(&self, station: Station);

    /// A command, query or listing of this station was answered. `is_accepted`: the answer accepted a command.
    fn after_answer(&self, station: Station, is_accepted: bool);

    /// A command of this station is about to be answered `device` or `broken`, since the device has failed.
    fn before_failure(&self, station: Station);

    /// The run of this station has ended with this result. Its session ends next.
    fn after_run(&self, station: Station, ran: &Result<Ran, RunFault>);
}
