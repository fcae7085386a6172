// The forms that are offers, each read after its name. Where its numbers disagree, it is declined with 8 at place 1.
ghost use Rattle.std.specs.Prelude.{◌≡◌};
ghost use Rattle.words.specs.Answers.{answer_by};
ghost use Rattle.words.specs.Seen.{state_of};
ghost use Rattle.reader.specs.declared.names.FormName.TheVariants as name;
ghost use Rattle.reader.specs.OfferMade.{checked};
ghost use Rattle.reader.specs.Forms.{read_form, line_of};

use crate::form::Form;
use crate::offer::Offer;
use crate::offer_parts::{
    buyer_of, lake_of, read_buyer_steps, read_lake_numbers, read_ramp_parts, read_steam_parts,
};
use terms::{Cause, Decline};
use words::Words;

fn checked(offer: Option<Offer>) -> Result<Form, Decline>
    ensures { result ≡ checked offer }
{
    offer.map(Form::Offer).ok_or(Cause::OfferDisagrees.at(1))
}

// (steam ..)
pub(crate) fn read_steam(words: &mut Words) -> Result<Form, Decline>
    ensures { answer_by line_of result words.new ≡ read_form name.Steam (state_of words.old) }
{
    let parts = read_steam_parts(words)?;
    words.end()?;
    checked(parts.offer())
}

// (ramp ..)
pub(crate) fn read_ramp(words: &mut Words) -> Result<Form, Decline>
    ensures { answer_by line_of result words.new ≡ read_form name.Ramp (state_of words.old) }
{
    let parts = read_ramp_parts(words)?;
    words.end()?;
    checked(parts.offer())
}

// (lake ..)
pub(crate) fn read_lake(words: &mut Words) -> Result<Form, Decline>
    ensures { answer_by line_of result words.new ≡ read_form name.Lake (state_of words.old) }
{
    let numbers = read_lake_numbers(words)?;
    words.end()?;
    checked(lake_of(numbers))
}

// (buyer ..)
pub(crate) fn read_buyer(words: &mut Words) -> Result<Form, Decline>
    ensures { answer_by line_of result words.new ≡ read_form name.Buyer (state_of words.old) }
{
    let steps = read_buyer_steps(words)?;
    words.end()?;
    checked(buyer_of(steps.as_slice()))
}
