// The parts of an offer as they are read, and the offers that they make.
ghost use Rattle.std.specs.Prelude.{◌≡◌};
ghost use Rattle.words.specs.Answers.{answer_of, answer_by};
ghost use Rattle.words.specs.Shapes.{read};
ghost use Rattle.words.specs.Seen.{state_of};
ghost use Rattle.reader.specs.declared.names.FormName.TheVariants as name;
ghost use Rattle.reader.specs.Offers.{fair_lake};
ghost use Rattle.reader.specs.OfferParts.{steam_parts, ramp_parts, steam_shape, ramp_shape, lake_shape, buyer_shape};
ghost use Rattle.reader.specs.Lists.{items_of};
ghost use Rattle.reader.specs.OfferMade.{fair_steam_parts, fair_ramp_parts, fair_buyer_parts, OfferIs};

use crate::buyer::Buyer;
use crate::groups::{read_flow, read_rate, read_rest, read_run, read_start, read_was};
use crate::lake::Lake;
use crate::numbers::{LakeNumbers, RampNumbers, Rate, Rest, Run, StartCosts, SteamNumbers, Was};
use crate::offer::Offer;
use crate::parts::read_steps;
use crate::ramp::Ramp;
use crate::ranges::{FULL, LEVEL, MONEY, OUTPUT, PRICE, PRICE_TO_PAY, WEAR};
use crate::steam::Steam;
use crate::steps::{Step, Steps};
use arrayvec::ArrayVec;
use terms::Decline;
use words::Words;

#[derive(Drop)]
pub(crate) struct SteamParts {
    pub run: Run,
    pub rest: Rest,
    pub start: StartCosts,
    pub idle: u32,
    pub steps: ArrayVec<Step, 4>,
    pub was: Was,
}

#[derive(Drop)]
pub(crate) struct RampParts {
    pub run: Run,
    pub rate: Rate,
    pub start: u32,
    pub idle: u32,
    pub steps: ArrayVec<Step, 4>,
    pub was: u32,
}

// After the name: (run LO HI) (rest UP DOWN COLD) (start HOT FROST) (idle N) (steps (Q P) ..) (was on M), or (was off M),
// and the closing bracket.
pub(crate) fn read_steam_parts(words: &mut Words) -> Result<SteamParts, Decline>
    ensures { answer_by steam_parts result words.new ≡ read steam_shape (state_of words.old) }
{
    let run = read_run(words)?;
    let rest = read_rest(words)?;
    let start = read_start(words)?;
    let idle = words.one(b"idle", MONEY)?;
    let steps = read_steps(words, PRICE)?;
    let was = read_was(words)?;
    words.expect(b")")?;
    Ok(SteamParts {
        run,
        rest,
        start,
        idle,
        steps,
        was,
    })
}

// After the name: (run LO HI) (rate V B) (start S) (idle N) (steps (Q P) ..) (was A), and the closing bracket.
pub(crate) fn read_ramp_parts(words: &mut Words) -> Result<RampParts, Decline>
    ensures { answer_by ramp_parts result words.new ≡ read ramp_shape (state_of words.old) }
{
    let run = read_run(words)?;
    let rate = read_rate(words)?;
    let start = words.one(b"start", MONEY)?;
    let idle = words.one(b"idle", MONEY)?;
    let steps = read_steps(words, PRICE)?;
    let was = words.one(b"was", OUTPUT)?;
    words.expect(b")")?;
    Ok(RampParts {
        run,
        rate,
        start,
        idle,
        steps,
        was,
    })
}

// After the name: (full C) (flow G R) (wear Y) (was L) (end E), and the closing bracket.
pub(crate) fn read_lake_numbers(words: &mut Words) -> Result<LakeNumbers, Decline>
    ensures { answer_of result words.new ≡ read lake_shape (state_of words.old) }
{
    let full = words.one(b"full", FULL)?;
    let flow = read_flow(words)?;
    let wear = words.one(b"wear", WEAR)?;
    let was = words.one(b"was", LEVEL)?;
    let end = words.one(b"end", LEVEL)?;
    words.expect(b")")?;
    Ok(LakeNumbers {
        full: full as usize,
        flow,
        wear,
        was: was as usize,
        end: end as usize,
    })
}

// After the name: (steps (Q P) ..), of prices that are not below 0, and the closing bracket.
pub(crate) fn read_buyer_steps(words: &mut Words) -> Result<ArrayVec<Step, 4>, Decline>
    ensures { answer_by items_of result words.new ≡ read buyer_shape (state_of words.old) }
{
    let steps = read_steps(words, PRICE_TO_PAY)?;
    words.expect(b")")?;
    Ok(steps)
}

impl SteamParts {
    // The offer, if the numbers agree.
    pub(crate) fn offer(&self) -> Option<Offer>
        ensures { OfferIs (fair_steam_parts (steam_parts self.now)) (record { name = name.Steam; values = steam_parts self.now }) result }
    {
        let steps = Steps::new(self.steps.as_slice())?;
        let steam = Steam::new(SteamNumbers {
            run: self.run,
            rest: self.rest,
            start: self.start,
            idle: self.idle,
            steps,
            was: self.was,
        })?;
        Some(Offer::Steam(steam))
    }
}

impl RampParts {
    // The offer, if the numbers agree.
    pub(crate) fn offer(&self) -> Option<Offer>
        ensures { OfferIs (fair_ramp_parts (ramp_parts self.now)) (record { name = name.Ramp; values = ramp_parts self.now }) result }
    {
        let steps = Steps::new(self.steps.as_slice())?;
        let ramp = Ramp::new(RampNumbers {
            run: self.run,
            rate: self.rate,
            start: self.start,
            idle: self.idle,
            steps,
            was: self.was,
        })?;
        Some(Offer::Ramp(ramp))
    }
}

// A buyer of these steps, if they agree.
pub(crate) fn buyer_of(steps: &[Step]) -> Option<Offer>
    ensures { OfferIs (fair_buyer_parts steps.now) (record { name = name.Buyer; values = steps.now }) result }
{
    let steps = Steps::new(steps)?;
    let buyer = Buyer::new(steps)?;
    Some(Offer::Buyer(buyer))
}

pub(crate) fn lake_of(numbers: LakeNumbers) -> Option<Offer>
    ensures { OfferIs (fair_lake numbers) (record { name = name.Lake; values = numbers }) result }
{
    let lake = Lake::new(numbers)?;
    Some(Offer::Lake(lake))
}
