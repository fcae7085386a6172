// What the rule of each kind says of a day's outputs, written of the outputs alone: their cost, or nothing where they
// are not allowed.
use crate::lots::price_of;
use crate::moving::{lake_cost, ramp_cost};
use crate::steam::steam_cost;
use reader::{Offer, Steps};

// What a rise draws: thirteen tenths of it, rounded up.
pub(crate) fn draw(rise: usize) -> i32 {
    i32::try_from(rise.saturating_mul(13).div_ceil(10)).unwrap_or(i32::MAX)
}

// Up to all lots are taken, for their price.
fn buyer_cost(steps: &Steps, outputs: &[i32]) -> Option<i64> {
    let mut cost = 0i64;
    for output in outputs {
        let lots = output.unsigned_abs();
        if *output > 0 || lots > steps.lots() {
            return None;
        }
        cost = cost.saturating_sub(price_of(steps, lots));
    }
    Some(cost)
}

pub(crate) fn rule_cost(offer: &Offer, outputs: &[i32]) -> Option<i64> {
    match offer {
        Offer::Steam(steam) => steam_cost(&steam.numbers, outputs),
        Offer::Ramp(ramp) => ramp_cost(&ramp.numbers, outputs),
        Offer::Lake(lake) => lake_cost(&lake.numbers, outputs),
        Offer::Buyer(buyer) => buyer_cost(&buyer.steps, outputs),
    }
}
