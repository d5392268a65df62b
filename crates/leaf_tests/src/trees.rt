//! Runs of the tree: in a heap of fixed size, and beside the plain list.

mod changed;
mod counted;
mod lazy;
mod nodes;
pub mod number;
mod side_by_side;
mod small_heap;
