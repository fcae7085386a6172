// The small readers that every form is made of. Each either finds what it wants and passes it, or declines: with 5 at
// another word or after the last byte, 6 at a word that may be a numeral there and is none, 7 at a numeral out of range.
// What is left of a line after a decline is not said, since nothing reads on.
ghost use Rattle.std.specs.Prelude.{◌≡◌, if◌then◌else◌};
ghost use Rattle.words.specs.Answers.{answer_of};
ghost use Rattle.words.specs.Grammar.{word as word_read, end as end_read, stands, ends, within};
ghost use Rattle.words.specs.Shapes.{read, natural, whole, both, group};
ghost use Rattle.words.specs.Seen.{state_of};

use crate::line::Words;
use crate::word::Word;
use terms::{Cause, Decline};

// The whole numbers from `lo` to `hi`.
#[derive(Clone, Copy, PartialEq, Eq, Debug)]
pub struct Bounds {
    pub lo: i32,
    pub hi: i32,
}

impl Bounds {
    // The number, if it lies in the range.
    fn only(&self, number: i64) -> Option<i32>
        ensures { result ≡ (if within self.now.lo self.now.hi number then Some number else None) }
    {
        if i64::from(self.lo) <= number && number <= i64::from(self.hi) {
            Some(number as i32)
        } else {
            None
        }
    }
}

impl<'a> Words<'a> {
    // The word `want`.
    #[tactic(auto, unfolding(crate::specs::Grammar::word))]
    pub fn expect(&mut self, want: &[u8]) -> Result<(), Decline>
        ensures { answer_of result self.new ≡ word_read want.now (state_of self.old) }
    {
        match self.next() {
            Some(found) if found.word.text() == want => Ok(()),
            Some(found) => Err(Cause::UnexpectedWord.at(found.place)),
            None => Err(Cause::UnexpectedWord.at(self.place_after())),
        }
    }

    // The end of the line.
    #[tactic(auto, unfolding(crate::specs::Grammar::end))]
    pub fn end(&mut self) -> Result<(), Decline>
        ensures { answer_of result self.new ≡ end_read (state_of self.old) }
    {
        match self.next() {
            Some(found) => Err(Cause::UnexpectedWord.at(found.place)),
            None => Ok(()),
        }
    }

    // A numeral in a range.
    #[tactic(auto, unfolding(crate::specs::Grammar::number))]
    pub fn number(&mut self, range: Bounds) -> Result<i32, Decline>
        ensures { answer_of result self.new ≡ read (whole range.lo range.hi) (state_of self.old) }
    {
        let Some(found) = self.next() else {
            return Err(Cause::UnexpectedWord.at(self.place_after()));
        };
        match found.word {
            Word::Bracket(_) => Err(Cause::UnexpectedWord.at(found.place)),
            Word::Name(_) => Err(Cause::NotANumeral.at(found.place)),
            Word::Numeral { value, .. } => range
                .only(value)
                .ok_or(Cause::NumeralOutOfRange.at(found.place)),
        }
    }

    // A numeral in a range of numbers that are not negative.
    pub fn count(&mut self, range: Bounds) -> Result<u32, Decline>
        ensures { answer_of result self.new ≡ read (natural range.lo range.hi) (state_of self.old) }
    {
        let number = self.number(range)?;
        Ok(number.unsigned_abs())
    }

    // Whether the word `want` stands next. Passes nothing.
    pub fn stands(&self, want: &[u8]) -> bool
        ensures { result ≡ stands want.now (state_of self.now) }
    {
        let mut ahead = *self;
        ahead.expect(want).is_ok()
    }

    // Whether no word is left. Passes nothing.
    pub fn is_empty(&self) -> bool
        ensures { result ≡ ends (state_of self.now) }
    {
        let mut ahead = *self;
        ahead.end().is_ok()
    }

    // A group of one number, (KEY N).
    pub fn one(&mut self, key: &[u8], range: Bounds) -> Result<u32, Decline>
        ensures { answer_of result self.new ≡ read (group key.now (natural range.lo range.hi)) (state_of self.old) }
    {
        self.expect(b"(")?;
        self.expect(key)?;
        let number = self.count(range)?;
        self.expect(b")")?;
        Ok(number)
    }

    // A group of two numbers in one range, (KEY N N).
    pub fn two(&mut self, key: &[u8], range: Bounds) -> Result<(u32, u32), Decline>
        ensures { answer_of result self.new ≡ read (group key.now (both (natural range.lo range.hi) (natural range.lo range.hi))) (state_of self.old) }
    {
        self.expect(b"(")?;
        self.expect(key)?;
        let first = self.count(range)?;
        let second = self.count(range)?;
        self.expect(b")")?;
        Ok((first, second))
    }
}
