// The words of a line, one after the other.
ghost use Rattle.std.specs.Prelude.{◌≡◌, ◌+◌, length, IfSome};
ghost use Rattle.words.specs.Grammar.{first, past, kind_of_text};
ghost use Rattle.words.specs.Lines.{words_from};
ghost use Rattle.words.specs.Seen.{state_of, seen, kind_of, text_of};

use crate::classes::blanks_in;
use crate::line::Words;
use crate::word::{PlacedWord, Word, word_length};

impl<'a> Words<'a> {
    // The words of a whole line.
    pub fn new(line: &'a [u8]) -> Words<'a>
        ensures { state_of result ≡ record { left = words_from 1 line.now; end = 1 + length line.now } }
    {
        Words {
            rest: line,
            place: 1,
        }
    }

    // The next word, which is then passed; at the end there is none.
    pub fn next(&mut self) -> Option<PlacedWord<'a>>
        ensures word { seen result ≡ first (state_of self.old) }
        ensures kind { IfSome result (λ found. kind_of found.word ≡ kind_of_text (text_of found.word)) }
        ensures left { state_of self.new ≡ past (state_of self.old) }
    {
        let blanks = blanks_in(self.rest);
        let place = self.place + blanks;
        let begun = &self.rest[blanks..];
        let length = word_length(begun);
        self.rest = &begun[length..];
        self.place = place + length;
        let word = Word::of(&begun[..length])?;
        Some(PlacedWord { word, place })
    }
    // The place after the last byte.
    pub fn place_after(&self) -> usize
        ensures { result ≡ (state_of self.now).end }
    {
        self.place + self.rest.len()
    }
}
