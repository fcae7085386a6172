// A word, which is a part of the line itself.
ghost use Rattle.std.specs.Prelude.{◌≡◌, ◌<◌, ◌≤◌, [], length, IfSome, IfNone};
ghost use Rattle.std.specs.List.{prefix_len};
ghost use Rattle.words.specs.Grammar.{kind_of_text};
ghost use Rattle.words.specs.Seen.{text_of, kind_of};
ghost use Rattle.words.specs.Lengths.{word_length};

use crate::classes::joined_in;
use crate::numerals::value_of;

// A word, by what its bytes are.
#[derive(Clone, Copy)]
pub enum Word<'a> {
    Bracket(&'a [u8]),
    Name(&'a [u8]),
    // with the number that it says
    Numeral { text: &'a [u8], value: i64 },
}

// A word with the place of its first byte, counted from 1.
#[derive(Clone, Copy)]
pub struct PlacedWord<'a> {
    pub word: Word<'a>,
    pub place: usize,
}

impl<'a> Word<'a> {
    // The word that these bytes are, if there are any.
    pub(crate) fn of(text: &'a [u8]) -> Option<Word<'a>>
        ensures none { IfNone result (text.now ≡ []) }
        ensures some { IfSome result (λ word. 0 < length text.now) }
        ensures text { IfSome result (λ word. text_of word ≡ text.now) }
        ensures kind { IfSome result (λ word. kind_of word ≡ kind_of_text text.now) }
    {
        match text {
            [] => None,
            [b'(' | b')', ..] => Some(Word::Bracket(text)),
            _ => match value_of(text) {
                Some(value) => Some(Word::Numeral { text, value }),
                None => Some(Word::Name(text)),
            },
        }
    }

    // Its bytes.
    pub fn text(self) -> &'a [u8]
        ensures { result.now ≡ text_of self.entry }
    {
        match self {
            Word::Bracket(text) | Word::Name(text) | Word::Numeral { text, .. } => text,
        }
    }
}

// How many bytes the word has that stands in front.
pub(crate) fn word_length(bytes: &[u8]) -> usize
    ensures value { result ≡ word_length bytes.now }
    ensures within { result ≤ length bytes.now }
{
    match bytes {
        [] => 0,
        [b'(' | b')', ..] => 1,
        _ => joined_in(bytes),
    }
}
