// The names of the forms.
ghost use Rattle.std.specs.Prelude.{◌≡◌};
ghost use Rattle.words.specs.Answers.{answer_of};
ghost use Rattle.words.specs.Seen.{state_of};
ghost use Rattle.reader.specs.Names.{named, read_name, same};

use terms::{Cause, Decline};
use words::Words;

#[derive(Clone, Copy, PartialEq, Eq, Debug)]
pub(crate) enum FormName {
    Day,
    Steam,
    Ramp,
    Lake,
    Buyer,
    Out,
    Need,
    Price,
    Run,
    Mix,
    Supply,
    Show,
    Judge,
}

fn is(text: &[u8], name: &[u8]) -> bool
    ensures { result ≡ same text.now name.now }
{
    text == name
}

// The form that a word names.
#[tactic(auto, unfolding(crate::specs::Names::named))]
fn find_name(text: &[u8]) -> Option<FormName>
    ensures { result ≡ named text.now }
{
    if is(text, b"day") {
        Some(FormName::Day)
    } else if is(text, b"steam") {
        Some(FormName::Steam)
    } else if is(text, b"ramp") {
        Some(FormName::Ramp)
    } else if is(text, b"lake") {
        Some(FormName::Lake)
    } else if is(text, b"buyer") {
        Some(FormName::Buyer)
    } else if is(text, b"out") {
        Some(FormName::Out)
    } else if is(text, b"need") {
        Some(FormName::Need)
    } else if is(text, b"price") {
        Some(FormName::Price)
    } else if is(text, b"run") {
        Some(FormName::Run)
    } else if is(text, b"mix") {
        Some(FormName::Mix)
    } else if is(text, b"supply") {
        Some(FormName::Supply)
    } else if is(text, b"show") {
        Some(FormName::Show)
    } else if is(text, b"judge") {
        Some(FormName::Judge)
    } else {
        None
    }
}

// The name of a form. Another word is declined with 4, the end with 5.
#[tactic(auto, unfolding(crate::specs::Names::read_name))]
pub(crate) fn read_name(words: &mut Words) -> Result<FormName, Decline>
    ensures { answer_of result words.new ≡ read_name (state_of words.old) }
{
    let Some(found) = words.next() else {
        return Err(Cause::UnexpectedWord.at(words.place_after()));
    };
    find_name(found.word.text()).ok_or(Cause::UnknownForm.at(found.place))
}
