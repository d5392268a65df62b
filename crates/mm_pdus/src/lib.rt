//! The mobility management PDUs of the TETRA air interface (ETSI EN 300 392-2, clause 16), as bits.
//! It takes memory only from the allocator that it is given, and knows nothing of registers, of commands and of what a PDU does.
//!
//! From a radio: U-ITSI DETACH, U-LOCATION UPDATE DEMAND and U-ATTACH/DETACH GROUP IDENTITY. To a
//! radio: D-LOCATION UPDATE ACCEPT, D-LOCATION UPDATE REJECT and D-ATTACH/DETACH GROUP IDENTITY
//! ACKNOWLEDGEMENT. A PDU is read from left to right, to its last bit, and the first fault is
//! reported. It is always written as its one canonical text.
#![tactic(auto)]

mod address;
mod cause;
mod class;
mod detachment;
mod downlink;
mod elements;
mod fault;
mod fields;
mod group;
mod group_fields;
mod group_text;
mod gssi;
mod items;
pub mod laws;
mod lifetime;
mod update;
mod uplink;
mod writing;

pub use address::GroupAddress;
pub use cause::RejectCause;
pub use class::ClassOfUsage;
pub use detachment::{DetachReason, LeaveReason};
pub use downlink::{MmDown, read_down, write_down};
pub use fault::MmFault;
pub use group::{GroupDown, GroupMode, GroupUp};
pub use gssi::Gssi;
pub use items::{GroupItems, MOST_GROUPS};
pub use lifetime::Lifetime;
pub use update::{AcceptType, LocationUpdateType};
pub use uplink::{MmUp, read_up, write_up};
