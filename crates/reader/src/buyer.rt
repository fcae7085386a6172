// Buyers: lots that are taken for their price.
ghost use Rattle.std.specs.Prelude.{◌≡◌, ◌≤◌, true, false, MatchOption};
ghost use Rattle.reader.specs.Steps.{lots_in};
ghost use Rattle.reader.specs.Offers.{no_price_below, fair_buyer};

use crate::steps::{Step, Steps};

#[derive(Clone, Copy, PartialEq, Eq, Debug)]
pub struct Buyer {
    pub steps: Steps,
    ghost prices: { no_price_below steps.places ≡ true },
    ghost few: { lots_in steps.places ≤ 500 },
}

fn has_no_price_below(steps: &[Step]) -> bool
    ensures { result ≡ no_price_below steps.now }
{
    steps.iter().all(|step| 0 <= step.price)
}

impl Buyer {
    // The offer, unless a price is below 0 or the lots are more than 500.
    pub fn new(steps: Steps) -> Option<Buyer>
        ensures { MatchOption result (fair_buyer steps ≡ false) (λ made. (fair_buyer steps ≡ true) × (made.steps ≡ steps)) }
    {
        if has_no_price_below(&steps.places) && steps.lots() <= 500 {
            Some(Buyer { steps })
        } else {
            None
        }
    }
}
