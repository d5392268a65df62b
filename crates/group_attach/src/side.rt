//! The two sides of an attachment: its radio and its group.

ghost use Rattle.std.specs.Prelude.{◌≡◌, ◌<◌, ◌^◌, ℕ};
ghost use Rattle.identity.specs.Path.{id_path};
ghost use Rattle.group_attach.specs.Attached.{Pair};

use identity::{Gtsi, Itsi, Prefix};

/// Which of the two numbers of an attachment is the key of an index.
pub(crate) trait Side {
    ghost key: { Pair → ℕ };

    /// The path of that number.
    fn path(itsi: Itsi, gtsi: Gtsi) -> Prefix
        ensures path { result ≡ id_path (key (itsi, gtsi)) }
        ensures fits { key (itsi, gtsi) < 2 ^ 48 };
}

/// By the radio.
#[derive(Drop)]
pub(crate) struct ByRadio;

impl Side for ByRadio {
    ghost key = { λ pair. pair.0 };

    fn path(itsi: Itsi, _gtsi: Gtsi) -> Prefix {
        Prefix::whole(itsi.number())
    }
}

/// By the group.
#[derive(Drop)]
pub(crate) struct ByGroup;

impl Side for ByGroup {
    ghost key = { λ pair. pair.1 };

    fn path(_itsi: Itsi, gtsi: Gtsi) -> Prefix {
        Prefix::whole(gtsi.number())
    }
}
