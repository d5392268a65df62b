//! A register as text, one line for each row, and back. It writes to any writer and reads from any reader, and knows nothing
//! of disks, files and stations.
#![tactic(auto)]

mod cause;
mod dumping;
mod fields;
mod head;
pub mod laws;
mod load_fault;
mod loader;
mod loading;
mod parsing;
mod printing;
mod sink;
mod source;
mod writer;

pub use cause::Cause;
pub use dumping::{DumpFault, write_register};
pub use head::print_head;
pub use load_fault::LoadFault;
pub use loader::{TakeFault, TextLoader};
pub use loading::read_register;
pub use parsing::parse_row;
pub use printing::print_row;
pub use sink::TextSink;
pub use source::TextSource;
pub use writer::line_after;
