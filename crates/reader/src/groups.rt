// The groups of an offer.
ghost use Rattle.std.specs.Prelude.{◌≡◌};
ghost use Rattle.words.specs.Answers.{answer_of};
ghost use Rattle.words.specs.Shapes.{read};
ghost use Rattle.words.specs.Seen.{state_of};
ghost use Rattle.reader.specs.Groups.{run_shape, rest_shape, start_shape, rate_shape, flow_shape, on_off_shape, was_shape};

use crate::numbers::{Flow, Rate, Rest, Run, StartCosts, Was};
use crate::ranges::{LEVEL, LOTS, MONEY, PERIODS, SHORT};
use terms::Decline;
use words::Words;

// (run LO HI)
pub(crate) fn read_run(words: &mut Words) -> Result<Run, Decline>
    ensures { answer_of result words.new ≡ read run_shape (state_of words.old) }
{
    let (lo, hi) = words.two(b"run", LOTS)?;
    Ok(Run { lo, hi })
}

// (rest UP DOWN COLD)
pub(crate) fn read_rest(words: &mut Words) -> Result<Rest, Decline>
    ensures { answer_of result words.new ≡ read rest_shape (state_of words.old) }
{
    words.expect(b"(")?;
    words.expect(b"rest")?;
    let up = words.count(SHORT)?;
    let down = words.count(SHORT)?;
    let cold = words.count(PERIODS)?;
    words.expect(b")")?;
    Ok(Rest {
        up: up as usize,
        down: down as usize,
        cold: cold as usize,
    })
}

// (start HOT FROST)
pub(crate) fn read_start(words: &mut Words) -> Result<StartCosts, Decline>
    ensures { answer_of result words.new ≡ read start_shape (state_of words.old) }
{
    let (hot, frost) = words.two(b"start", MONEY)?;
    Ok(StartCosts { hot, frost })
}

// (rate V B)
pub(crate) fn read_rate(words: &mut Words) -> Result<Rate, Decline>
    ensures { answer_of result words.new ≡ read rate_shape (state_of words.old) }
{
    let (step, edge) = words.two(b"rate", LOTS)?;
    Ok(Rate { step, edge })
}

// (flow G R)
pub(crate) fn read_flow(words: &mut Words) -> Result<Flow, Decline>
    ensures { answer_of result words.new ≡ read flow_shape (state_of words.old) }
{
    let (fall, rise) = words.two(b"flow", LEVEL)?;
    Ok(Flow {
        fall: fall as usize,
        rise: rise as usize,
    })
}

// on M or off M
fn read_on_off(words: &mut Words) -> Result<Was, Decline>
    ensures { answer_of result words.new ≡ read on_off_shape (state_of words.old) }
{
    if words.stands(b"on") {
        words.expect(b"on")?;
        let periods = words.count(PERIODS)?;
        Ok(Was::On(periods as usize))
    } else {
        words.expect(b"off")?;
        let periods = words.count(PERIODS)?;
        Ok(Was::Off(periods as usize))
    }
}

// (was on M) or (was off M)
pub(crate) fn read_was(words: &mut Words) -> Result<Was, Decline>
    ensures { answer_of result words.new ≡ read was_shape (state_of words.old) }
{
    words.expect(b"(")?;
    words.expect(b"was")?;
    let was = read_on_off(words)?;
    words.expect(b")")?;
    Ok(was)
}
