//! Why a line can't be taken.

/// Why a line can't be taken as the next of a register's text.
#[derive(Clone, Copy, Debug, PartialEq, Eq)]
pub enum Cause {
    /// It is not the first line of a register's text of version 1.
    Head,
    /// It is not the line of a row. Each row has one spelling.
    Spelling,
    /// Its row can't come there: it is out of order, comes twice, is above a limit, or comes after the last row. Or it is the line `count`,
    /// and the line `dump N` before the first line states another number of lines.
    Place,
}
