//! The two sides of a disk.

/// One of the two sides of a disk: a root, a slot for the image of a register, and a half of the journal.
#[derive(Clone, Copy, Debug, PartialEq, Eq, Drop)]
pub enum Side {
    A,
    B,
}

impl Side {
    ghost use Rattle.std.specs.Prelude.{◌≡◌};
    ghost use Rattle.checkpoint.specs.Layout.{other_of};

    /// The other side.
    pub fn other(self) -> Side
        ensures { result ≡ other_of self }
    {
        match self {
            Side::A => Side::B,
            Side::B => Side::A,
        }
    }
}
