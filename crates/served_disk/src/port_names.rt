//! The names of a station's files.

/// The names of a station's files, as its faults have them.
#[derive(Clone, Copy, Debug)]
pub struct PortNames<'a> {
    /// The file that a fault of reading names.
    pub input: &'a str,
    /// The file that a fault of writing names. `None` if the answers wait in memory.
    pub output: Option<&'a str>,
}
