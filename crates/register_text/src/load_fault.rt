//! Why a register's text is not read.
use crate::cause::Cause;

/// Why a register's text is not read. Lines are numbered from 1.
#[derive(Clone, Copy, Debug, PartialEq, Eq)]
pub enum LoadFault {
    /// Out of memory.
    Memory,
    /// The reader failed, or gave no end in 4,294,967,295 calls.
    Read,
    /// The line of this number can't be taken.
    Line(u64, Cause),
    /// The text is cut: it ends before the line feed of this line, or lines are missing from this one on. All lines before it were taken. No text
    /// of a whole register is refused as cut, whatever the limits ([`cut_texts`](crate::laws::cut_texts)).
    Cut(u64),
}
