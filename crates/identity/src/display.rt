//! What `{}` writes of identities and bits: the texts that the print calls append. This takes no memory.

ghost use Rattle.std.specs.Prelude.{◌≡◌, ◌<◌, ◌^◌, Some};
ghost use Rattle.std.specs.Fmt.{DisplaysOnOk};
ghost use Rattle.identity.specs.IdentityText.{identity_text};
ghost use Rattle.identity.specs.BitsText.{hex_of};

use crate::bits_text::next_digit;
use crate::{BitReader, fields};
use std::fmt;
use std::fmt::{Display, InlineText};

/// How many bytes the longest text of a prefix has.
const MOST_BYTES: usize = 22;

/// Writes a text. Where a width or a precision is given, it goes through a buffer, since they hold for the whole text.
pub(crate) fn pad<W: fmt::Write, D: Display + Drop>(
    f: &mut fmt::Formatter<W>,
    text: D,
) -> fmt::Result
    ensures { DisplaysOnOk W.Write.write_str_gives f.old result (D.Display.output text) f.new }
{
    if f.width().is_none() && f.precision().is_none() {
        f.write(text)
    } else {
        f.pad(InlineText::<MOST_BYTES>::of(text).as_str())
    }
}

/// Writes the text of an identity's number.
pub(crate) fn write_identity<W: fmt::Write>(f: &mut fmt::Formatter<W>, number: u64) -> fmt::Result
    requires { number < 2 ^ 48 }
    ensures { DisplaysOnOk W.Write.write_str_gives f.old result (Some (identity_text number)) f.new }
{
    let (mcc, mnc, ssi) = (
        fields::mcc(number),
        fields::mnc(number),
        fields::ssi(number),
    );
    pad(f, format_args!("{mcc}-{mnc}-{ssi}"))
}

/// Writes the digits of the bits that are left.
pub(crate) fn write_hex<W: fmt::Write>(
    f: &mut fmt::Formatter<W>,
    reader: &mut BitReader<'_>,
) -> fmt::Result
    ensures { DisplaysOnOk W.Write.write_str_gives f.old result (Some (hex_of reader.old)) f.new }
{
    while reader.left() > 0 {
        f.write_char(char::from(next_digit(reader)))?;
    }
    Ok(())
}
