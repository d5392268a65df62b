//! Identities of radios and groups, prefixes of identities, and strings of bits; each as a value and as text.
//! It takes memory only from the allocator that it is given, and knows nothing of PDUs, commands, registers and disks.
#![tactic(auto)]

mod bits;
mod bits_text;
mod display;
mod fault;
mod fields;
mod gtsi;
mod hex_digits;
mod identity_text;
mod itsi;
pub mod laws;
mod number_text;
mod packed;
mod prefix;
mod reader;
mod writer;

pub use bits::Bits;
pub use bits_text::{MOST_BITS, parse_bits, print_bits};
pub use fault::Fault;
pub use gtsi::Gtsi;
pub use identity_text::{
    parse_gtsi, parse_itsi, parse_prefix, print_gtsi, print_itsi, print_prefix,
};
pub use itsi::Itsi;
pub use number_text::{parse_number, print_number, put_whole};
pub use prefix::Prefix;
pub use reader::BitReader;
pub use writer::BitWriter;
