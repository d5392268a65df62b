//! What came of the run of a station.
use console::{Passed, Ran, RunFault};

/// What came of the run of a station.
#[derive(Drop)]
pub struct StationRun<I, O: Drop> {
    /// The writer of its port, as the run left it.
    pub writer: O,
    /// How the run ended.
    pub ran: Result<Ran, RunFault>,
    /// What passed in the run. It takes no bytes, and only contracts read it.
    pub passed: Passed<I, O>,
}
