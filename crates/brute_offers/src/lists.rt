// All lists of outputs of a range.
use crate::rules::draw;
use fleet::Range;
use reader::{Offer, Run};

// From one below no lots to one above the most.
fn around(run: Run) -> Range {
    Range {
        lo: -1,
        hi: whole(run.hi).saturating_add(1),
    }
}

pub(crate) fn whole(lots: u32) -> i32 {
    i32::try_from(lots).unwrap_or(i32::MAX)
}

// A range a little wider than the outputs of the offer.
pub(crate) fn wider(offer: &Offer) -> Range {
    match offer {
        Offer::Steam(steam) => around(steam.numbers.run),
        Offer::Ramp(ramp) => around(ramp.numbers.run),
        Offer::Lake(lake) => Range {
            lo: draw(lake.numbers.flow.rise)
                .saturating_neg()
                .saturating_sub(1),
            hi: i32::try_from(lake.numbers.flow.fall)
                .unwrap_or(i32::MAX)
                .saturating_add(1),
        },
        Offer::Buyer(buyer) => Range {
            lo: whole(buyer.steps.lots()).saturating_neg().saturating_sub(1),
            hi: 1,
        },
    }
}

// How many lists of so many outputs there are.
pub(crate) fn count(range: Range, periods: u32) -> u32 {
    let outputs = range.hi.saturating_sub(range.lo).saturating_add(1);
    u32::try_from(outputs).unwrap_or(0).saturating_pow(periods)
}

// The next list; after the last the first.
pub(crate) fn advance(range: Range, outputs: &mut [i32]) {
    for output in outputs {
        if *output < range.hi {
            *output += 1;
            return;
        }
        *output = range.lo;
    }
}
