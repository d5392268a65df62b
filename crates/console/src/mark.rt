//! Marks: the words by which a station finds its place in the answers.
ghost use Rattle.std.specs.Prelude.{◌≡◌, ◌≤◌, length};
ghost use Rattle.std.specs.Char.{is_ascii_graphic};
ghost use Rattle.std.specs.List.{list_all};
ghost use Rattle.console.specs.Mark.{mark_in, longest_mark};

use std::marker::Model;

/// The most characters of a mark.
const LONGEST: usize = 32;

/// The word of a mark: 1 to 32 printable characters, and no space. Contracts model it as its bytes.
#[derive(Clone, Copy)]
pub struct Mark {
    // The word, and zeros after it.
    bytes: [u8; LONGEST],
    len: usize,
}

impl Model for Mark {
    ghost use Rattle.std.specs.Prelude.{List, ℕ, ◌≤◌, length, take};

    ghost Value = { List ℕ };

    ghost use Rattle.console.specs.Inside.MarkFields.{HoldsWord, fields_of_word, padded};

    ghost view = { λ m. take m.len m.bytes };

    ghost invariant = { λ m. HoldsWord m (take m.len m.bytes) × (m.len ≤ 32) };

    ghost inverse = { λ word. record { bytes = padded word; len = length word } };

    ghost inverse_ok = { λ m h. fields_of_word m (take m.len m.bytes) h.0 };
}

impl Mark {
    /// The mark of this word; `None` unless that has 1 to 32 characters, each of them printable and no space.
    pub fn new(word: &[u8]) -> Option<Mark>
        ensures { result ≡ mark_in word.now }
    {
        if word.is_empty() || word.len() > LONGEST || !is_printable(word) {
            return None;
        }
        Some(Mark::of(word))
    }

    /// The mark of a word that can be one.
    fn of(word: &[u8]) -> Mark
        requires { length word.now ≤ 32 }
        ensures { result ≡ word.now }
    {
        let mut bytes = [0; LONGEST];
        bytes[..word.len()].copy_from_slice(word);
        Mark {
            bytes,
            len: word.len(),
        }
    }

    /// Its word.
    pub fn as_slice(&self) -> &[u8]
        ensures word { result.now ≡ self.now }
        ensures short { length result.now ≤ longest_mark }
    {
        &self.bytes[..self.len]
    }
}

/// Whether each byte is a printable character, and no space.
fn is_printable(word: &[u8]) -> bool
    ensures { result ≡ list_all is_ascii_graphic word.now }
{
    word.iter().all(|byte| byte.is_ascii_graphic())
}
