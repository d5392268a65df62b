//! What the thread of a station is given, and what it gives back.
use crate::port::Port;
use crate::station_run::StationRun;
use flusher::{Ended, Session};
use snapshots::Centre;

/// The session of a station, its port, whether it may give orders, and the most calls of its reader.
#[derive(Drop)]
pub(crate) struct Job<J: Centre, I: Drop, O: Drop> {
    pub(crate) session: Session<J>,
    pub(crate) orders: bool,
    pub(crate) turns: u32,
    pub(crate) port: Port<I, O>,
}

/// The session of a station at its end, and what came of its run.
#[derive(Drop)]
pub(crate) struct Done<J: Centre, I, O: Drop> {
    pub(crate) ended: Ended<J>,
    pub(crate) run: StationRun<I, O>,
}
