//! The words of a line.
ghost use Rattle.std.specs.Prelude.{◌≡◌, ◌∷◌, ◌<◌, Some, MatchOption, option_map, length, take, slice_get};
ghost use Rattle.console.specs.Forms.{word, keyword};
ghost use Rattle.console.specs.Reading.{Lacks, words, words_after};
ghost use Rattle.console.specs.Inside.Left.{bytes_left, words_left, words_in};

use crate::form::Words;
use crate::spaces::{Rest, take_first};
use memchr::memchr;

impl<'a> Words<'a> {
    /// Word `n`, from 0.
    #[inline(always)]
    pub(crate) fn at(&self, n: usize) -> &'a [u8]
        requires { n < self.now.count }
        ensures { result.now ≡ word n (words_in self.now) }
    {
        self.places[n]
    }

    /// The keyword.
    #[inline(always)]
    pub(crate) fn keyword(&self) -> &'a [u8]
        ensures { result.now ≡ keyword (words_in self.now) }
    {
        if 2 < self.count {
            self.at(2)
        } else {
            self.at(0)
        }
    }
}

fn first_space(line: &[u8]) -> Option<usize>
    ensures { MatchOption result (Lacks 32 line.now) (λ at. (at < length line.now) × Lacks 32 (take at line.now) × (slice_get line.now at ≡ Some 32)) }
{
    memchr(b' ', line)
}

/// The first word, and the text after the space that follows it.
#[inline(always)]
pub(crate) fn cut(line: &[u8]) -> (&[u8], Option<&[u8]>)
    ensures { words line.now ≡ result.0.now ∷ words_after (option_map (λ r. r.now) result.1) }
{
    match first_space(line) {
        None => (line, None),
        Some(at) => (&line[..at], Some(&line[at + 1..])),
    }
}

/// The first word, and what is left after it and its space.
#[inline(always)]
pub(crate) fn next_word(rest: Rest<'_>) -> (&[u8], Option<Rest<'_>>)
    ensures { words (bytes_left rest.entry) ≡ result.0.now ∷ words_left result.1 }
{
    if rest.marks == 0 {
        return (&rest.line[rest.start..], None);
    }
    let (at, marks) = take_first(rest.marks);
    let word = &rest.line[rest.start..at];
    let left = Rest {
        line: rest.line,
        start: at + 1,
        marks,
    };
    (word, Some(left))
}
