// A text with zeros after it.
ghost use Rattle.gated_journal.specs.Inside.Padded.{IsPadded};

// A text to be written, and the same text with zeros after it. What comes after either in a sector is zero, so both have the same
// sectors.
#[derive(Drop)]
pub(crate) struct Padded<'a> {
    pub(crate) text: &'a [u8],
    pub(crate) bytes: &'a [u8],
    ghost same: { IsPadded text.now bytes.now },
}
