//! Finite maps under prefixes.
//!
//! It takes memory from the allocator that it is given and touches nothing else; it knows nothing of what the values are.
#![tactic(auto)]

mod borrow;
mod copy;
mod edit;
mod key;
pub mod laws;
mod lazy;
mod next;
mod node;
mod ordered;
mod path;
mod tree;
mod walk;

pub use lazy::LazyMap;
pub use path::prefix_order;
pub use tree::PrefixTree;
