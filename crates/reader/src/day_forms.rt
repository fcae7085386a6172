// The forms that are no offers, each read after its name.
ghost use Rattle.std.specs.Prelude.{◌≡◌};
ghost use Rattle.words.specs.Answers.{answer_by};
ghost use Rattle.words.specs.Seen.{state_of};
ghost use Rattle.reader.specs.declared.names.FormName.TheVariants as name;
ghost use Rattle.reader.specs.Forms.{read_form, line_of};

use crate::form::Form;
use crate::parts::{read_amounts, read_schedule};
use crate::ranges::{COUNT, PERIODS, WEIGHT};
use terms::Decline;
use words::Words;

// (day T W)
pub(crate) fn read_day(words: &mut Words) -> Result<Form, Decline>
    ensures { answer_by line_of result words.new ≡ read_form name.Day (state_of words.old) }
{
    let periods = words.count(PERIODS)?;
    let weight = words.count(WEIGHT)?;
    words.expect(b")")?;
    words.end()?;
    Ok(Form::Day {
        periods: periods as usize,
        weight,
    })
}

// (out U FIRST LAST)
pub(crate) fn read_out(words: &mut Words) -> Result<Form, Decline>
    ensures { answer_by line_of result words.new ≡ read_form name.Out (state_of words.old) }
{
    let unit = words.count(COUNT)?;
    let first = words.count(COUNT)?;
    let last = words.count(COUNT)?;
    words.expect(b")")?;
    words.end()?;
    Ok(Form::Out {
        unit: unit as usize,
        first: first as usize,
        last: last as usize,
    })
}

// (need d ..)
pub(crate) fn read_need(words: &mut Words) -> Result<Form, Decline>
    ensures { answer_by line_of result words.new ≡ read_form name.Need (state_of words.old) }
{
    let wanted = read_amounts(words)?;
    words.end()?;
    Ok(Form::Need { wanted })
}

// (price D n ..)
pub(crate) fn read_price(words: &mut Words) -> Result<Form, Decline>
    ensures { answer_by line_of result words.new ≡ read_form name.Price (state_of words.old) }
{
    let over = words.count(COUNT)?;
    let numerators = read_amounts(words)?;
    words.end()?;
    Ok(Form::Price { over, numerators })
}

// (run U (a q) ..)
pub(crate) fn read_run(words: &mut Words) -> Result<Form, Decline>
    ensures { answer_by line_of result words.new ≡ read_form name.Run (state_of words.old) }
{
    let unit = words.count(COUNT)?;
    let schedule = read_schedule(words)?;
    words.end()?;
    Ok(Form::Run {
        unit: unit as usize,
        schedule,
    })
}

// (mix U w (a q) ..)
pub(crate) fn read_mix(words: &mut Words) -> Result<Form, Decline>
    ensures { answer_by line_of result words.new ≡ read_form name.Mix (state_of words.old) }
{
    let unit = words.count(COUNT)?;
    let weight = words.count(COUNT)?;
    let schedule = read_schedule(words)?;
    words.end()?;
    Ok(Form::Mix {
        unit: unit as usize,
        weight,
        schedule,
    })
}

// (supply U)
pub(crate) fn read_supply(words: &mut Words) -> Result<Form, Decline>
    ensures { answer_by line_of result words.new ≡ read_form name.Supply (state_of words.old) }
{
    let unit = words.count(COUNT)?;
    words.expect(b")")?;
    words.end()?;
    Ok(Form::Supply {
        unit: unit as usize,
    })
}

// (show U)
pub(crate) fn read_show(words: &mut Words) -> Result<Form, Decline>
    ensures { answer_by line_of result words.new ≡ read_form name.Show (state_of words.old) }
{
    let unit = words.count(COUNT)?;
    words.expect(b")")?;
    words.end()?;
    Ok(Form::Show {
        unit: unit as usize,
    })
}

// (judge)
pub(crate) fn read_judge(words: &mut Words) -> Result<Form, Decline>
    ensures { answer_by line_of result words.new ≡ read_form name.Judge (state_of words.old) }
{
    words.expect(b")")?;
    words.end()?;
    Ok(Form::Judge)
}
