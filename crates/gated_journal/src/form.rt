// The form of a journal's records.
ghost use Rattle.std.specs.Prelude.{◌≡◌, ◌<◌};
ghost use Rattle.centre_core.specs.State.{last_number};
ghost use Rattle.gated_journal.specs.Record.{first_of, head_len};

/// The form of the records in a half of a disk. The first sector of the side's image states it.
#[derive(Clone, Copy, Debug, PartialEq, Eq, Drop)]
pub enum Form {
    /// Records of layout 1: how many commands there are, how many bytes they take, and the commands.
    Plain,
    /// Records of layout 2: the number of the first command comes after how many there are.
    Numbered,
}

impl Form {
    // How many bytes of a record are before its commands.
    pub(crate) fn head_len(self) -> u64
        ensures { result ≡ head_len self }
    {
        match self {
            Form::Plain => 6,
            Form::Numbered => 14,
        }
    }

    // The number that a record states, after so many accepted commands.
    pub(crate) fn first_of(self, before: u64) -> Option<u64>
        requires { before < last_number }
        ensures { result ≡ first_of self before }
    {
        match self {
            Form::Plain => None,
            Form::Numbered => Some(before + 1),
        }
    }
}
