//! The PDUs of the short data transport layer (ETSI EN 300 392-2, clause 29), as bits.
//! It takes memory only from the allocator that it is given, and knows nothing of mailboxes, of commands and of who sends a PDU.
#![tactic(auto)]

mod fault;
pub mod laws;
mod pdu;
mod pieces;
mod reading;
mod reference;
mod reserved;
mod transfer;
mod writing;

pub use fault::SdsFault;
pub use pdu::{
    DeliveryReportRequest, DeliveryStatus, FIRST_IDENTIFIER, Head, MOST_BITS, ProtocolIdentifier,
    Sds,
};
pub use reading::{head, read};
pub use reference::MessageReference;
pub use reserved::canonical;
pub use transfer::{read_transfer, transfer_reference};
pub use writing::write;
