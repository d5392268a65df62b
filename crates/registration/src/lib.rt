//! The location register of a TETRA switch: which rule serves an identity, and where each radio is
//! (ETSI EN 300 392-2, clause 16, the network's side of location updating and detach).
//!
//! It changes its own tables alone, in memory of the allocator that it is given. It keeps neither groups nor messages,
//! only the rules for them, and knows nothing of lines and disks.
#![tactic(auto)]

mod area;
mod fault;
pub mod laws;
mod limits;
mod radio;
mod radios;
mod registry;
mod rule;
mod station;

pub use area::LocationArea;
pub use fault::RegFault;
pub use limits::{Limits, MAIL_CAPACITY, RADIO_CAPACITY, RULE_CAPACITY, STATION_CAPACITY};
pub use radio::Radio;
pub use registry::Registry;
pub use rule::Rule;
pub use station::Station;
