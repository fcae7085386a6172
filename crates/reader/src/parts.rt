// What a form repeats: numbers, and pairs of them in brackets.
ghost use Rattle.std.specs.Prelude.{◌≡◌, ◌≤◌, ◌&&◌, ℤ, length, take, IfOk, nat_lt};
ghost use Rattle.words.specs.Answers.{answer_of, answer_by};
ghost use Rattle.words.specs.Grammar.{stands, close_text};
ghost use Rattle.words.specs.Shapes.{Shape, read, many};
ghost use Rattle.words.specs.Seen.{state_of};
ghost use Rattle.reader.specs.Lists.{items_of, amounts_shape, schedule_shape, steps_shape};

use crate::ranges::{AMOUNT, COUNT, LOTS};
use crate::steps::Step;
use arrayvec::ArrayVec;
use terms::{Decline, Entry};
use words::{Bounds, Words};

// One of what a form repeats; its last number lies in a range.
pub(crate) trait Part: Copy {
    ghost shape: { ℤ → ℤ → Shape Self };

    fn read(words: &mut Words, range: Bounds) -> Result<Self, Decline>
        ensures { answer_of result words.new ≡ read (shape range.lo range.hi) (state_of words.old) };
}

impl Part for i32 {
    ghost use Rattle.words.specs.Shapes.{whole};

    ghost shape = { λ lo hi. whole lo hi };

    fn read(words: &mut Words, range: Bounds) -> Result<i32, Decline> {
        words.number(range)
    }
}

impl Part for Entry {
    ghost use Rattle.reader.specs.Lists.{entry_shape};

    ghost shape = { λ lo hi. entry_shape lo hi };

    fn read(words: &mut Words, range: Bounds) -> Result<Entry, Decline> {
        words.expect(b"(")?;
        let state = words.count(COUNT)?;
        let output = words.number(range)?;
        words.expect(b")")?;
        Ok(Entry {
            state: state as usize,
            output,
        })
    }
}

impl Part for Step {
    ghost use Rattle.reader.specs.Lists.{step_shape};

    ghost shape = { λ lo hi. step_shape lo hi };

    fn read(words: &mut Words, range: Bounds) -> Result<Step, Decline> {
        words.expect(b"(")?;
        let lots = words.count(LOTS)?;
        let price = words.number(range)?;
        words.expect(b")")?;
        Ok(Step { lots, price })
    }
}

// Reads one part into each place, as long as no closing bracket stands next, and then that bracket. Answers how many
// places are filled.
fn fill<T: Part>(words: &mut Words, range: Bounds, places: &mut [T]) -> Result<usize, Decline>
    ensures within { IfOk result (λ count. count ≤ length places.old) }
    ensures filled { answer_by (λ count. take count places.new) result words.new ≡ read (many (length places.old) (T.Part.shape range.lo range.hi)) (state_of words.old) }
{
    let mut count = 0;
    while count < places.len() && !has_ended(words, count) {
        places[count] = T::read(words, range)?;
        count += 1;
    }
    words.expect(b")")?;
    Ok(count)
}

// Whether a repeat goes no further after so many parts. It has one at least.
fn has_ended(words: &Words, count: usize) -> bool
    ensures { result ≡ (nat_lt 0 count && stands close_text (state_of words.now)) }
{
    count > 0 && words.stands(b")")
}

// One to 48 numbers.
pub(crate) fn read_amounts(words: &mut Words) -> Result<ArrayVec<i32, 48>, Decline>
    ensures { answer_by items_of result words.new ≡ read amounts_shape (state_of words.old) }
{
    let mut places = [0; 48];
    let count = fill(words, AMOUNT, &mut places)?;
    let mut list = ArrayVec::new();
    list.try_extend_from_slice(&places[..count]).unwrap();
    Ok(list)
}

// One to 48 entries of a schedule.
pub(crate) fn read_schedule(words: &mut Words) -> Result<ArrayVec<Entry, 48>, Decline>
    ensures { answer_by items_of result words.new ≡ read schedule_shape (state_of words.old) }
{
    let mut places = [Entry::default(); 48];
    let count = fill(words, AMOUNT, &mut places)?;
    let mut list = ArrayVec::new();
    list.try_extend_from_slice(&places[..count]).unwrap();
    Ok(list)
}

// (steps (Q P) ..), one to four steps.
pub(crate) fn read_steps(words: &mut Words, prices: Bounds) -> Result<ArrayVec<Step, 4>, Decline>
    ensures { answer_by items_of result words.new ≡ read (steps_shape prices.lo prices.hi) (state_of words.old) }
{
    words.expect(b"(")?;
    words.expect(b"steps")?;
    let mut places = [Step::default(); 4];
    let count = fill(words, prices, &mut places)?;
    let mut list = ArrayVec::new();
    list.try_extend_from_slice(&places[..count]).unwrap();
    Ok(list)
}
