// What an offer of any kind answers as a unit.
ghost use Rattle.std.specs.Prelude.{◌≡◌};
ghost use Rattle.units.specs.Links.{model_of};
ghost use Rattle.fleet.specs.Units.{SoundUnit};
ghost use Rattle.units.specs.Offers.{offer_links, KeepsRule};

use crate::offered::Offered;
use fleet::Range;
use reader::Offer;

// The number of its states.
pub fn states(offer: &Offer) -> usize
    ensures { result ≡ (model_of (offer_links offer.now)).states }
{
    match offer {
        Offer::Steam(steam) => steam.states(),
        Offer::Ramp(ramp) => ramp.states(),
        Offer::Lake(lake) => lake.states(),
        Offer::Buyer(buyer) => buyer.states(),
    }
}

// The state before the first period.
pub fn start(offer: &Offer) -> usize
    ensures { result ≡ (model_of (offer_links offer.now)).start }
{
    match offer {
        Offer::Steam(steam) => steam.start(),
        Offer::Ramp(ramp) => ramp.start(),
        Offer::Lake(lake) => lake.start(),
        Offer::Buyer(buyer) => buyer.start(),
    }
}

// Whether it may go from one state into another in a period, and with which outputs. By these arcs and their costs its
// schedules are exactly those of the rule of its kind, at its cost and in its states, within the bounds of every unit.
#[tactic(auto, using(crate::proofs::Rules::keeps_rule, crate::proofs::Rules::offer_sound))]
pub fn arc(offer: &Offer, period: usize, from: usize, to: usize) -> Option<Range>
    ensures arc { result ≡ (model_of (offer_links offer.now)).arc period from to }
    ensures rule { KeepsRule offer.now }
    ensures sound { SoundUnit (model_of (offer_links offer.now)) }
{
    match offer {
        Offer::Steam(steam) => steam.arc(period, from, to),
        Offer::Ramp(ramp) => ramp.arc(period, from, to),
        Offer::Lake(lake) => lake.arc(period, from, to),
        Offer::Buyer(buyer) => buyer.arc(period, from, to),
    }
}

// What an output on that arc costs.
pub fn cost(offer: &Offer, period: usize, from: usize, to: usize, output: i32) -> i32
    ensures { result ≡ (model_of (offer_links offer.now)).cost period from to output }
{
    match offer {
        Offer::Steam(steam) => steam.cost(period, from, to, output),
        Offer::Ramp(ramp) => ramp.cost(period, from, to, output),
        Offer::Lake(lake) => lake.cost(period, from, to, output),
        Offer::Buyer(buyer) => buyer.cost(period, from, to, output),
    }
}

// Whether the day may end in the state.
pub fn may_end(offer: &Offer, state: usize) -> bool
    ensures { result ≡ (model_of (offer_links offer.now)).ends state }
{
    match offer {
        Offer::Steam(steam) => steam.may_end(state),
        Offer::Ramp(ramp) => ramp.may_end(state),
        Offer::Lake(lake) => lake.may_end(state),
        Offer::Buyer(buyer) => buyer.may_end(state),
    }
}
