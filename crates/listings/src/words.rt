//! Words of lines that answers share.
ghost use Rattle.std.specs.Prelude.{◌≡◌};
ghost use Rattle.listings.specs.Words.{kind_word, presence_text};

use mailbox::Kind;

/// The word for a message or a report.
pub fn kind_word(kind: Kind) -> &'static str
    ensures { result.now ≡ kind_word kind }
{
    match kind {
        Kind::Message => "m",
        Kind::Report => "r",
    }
}

/// Whether a radio is present, after a space.
pub fn presence_word(present: bool) -> &'static str
    ensures { result.now ≡ presence_text present }
{
    if present { " present" } else { " absent" }
}
