// The form of the records after an image.
ghost use Rattle.std.specs.Prelude.{◌≡◌};
ghost use Rattle.checkpoint.specs.OnSide.{stated_form};

use gated_journal::Form;
use image_rows::HEADER_TAG;

/// The form of the records after an image, as the image's first sector states it: numbered if that is a header of layout 2, else plain.
pub fn stated_form(header: &[u8; 512]) -> Form
    ensures { result ≡ stated_form header.now }
{
    if header[0] == HEADER_TAG {
        Form::Numbered
    } else {
        Form::Plain
    }
}
