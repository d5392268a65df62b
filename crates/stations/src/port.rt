//! Where a station's lines come from, and where its answers go.

/// A station's port: what its lines are read from, and what its answers are written to.
#[derive(Drop)]
pub struct Port<I: Drop, O: Drop> {
    /// What its lines are read from.
    pub reader: I,
    /// What its answers are written to. The answers to the lines of one read are flushed before the next read (tested).
    pub writer: O,
}
