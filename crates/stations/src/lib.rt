//! Many stations over one store. A thread for each station answers its lines by its session, beside one flusher.
//! This crate starts and joins these threads. It reads and writes through the ports that it is given, and knows nothing of files.
#![tactic(auto)]

mod job;
mod listing;
mod listing_bound;
pub mod lives;
mod many_stations;
mod one_station;
mod orders;
mod port;
mod round_gate;
mod session_desk;
mod station_job;
mod station_run;
mod station_text;
mod station_threads;
mod watch;

pub use many_stations::{Many, ManyTerms, Unserved, run_many};
pub use one_station::{Serving, run_session};
pub use orders::Orders;
pub use port::Port;
pub use station_run::StationRun;
pub use station_text::StationText;
pub use watch::Watch;
