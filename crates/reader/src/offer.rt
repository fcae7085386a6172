// An offer of one of the four kinds.
ghost use Rattle.reader.specs.OfferDefaults.{IsStill};

use crate::buyer::Buyer;
use crate::lake::Lake;
use crate::ramp::Ramp;
use crate::steam::Steam;

#[derive(Clone, Copy, PartialEq, Eq, Debug)]
pub enum Offer {
    Steam(Steam),
    Ramp(Ramp),
    Lake(Lake),
    Buyer(Buyer),
}

// The default fills the places of a list that are not used.
impl Default for Offer {
    ghost is_default = { λ offer. IsStill offer };

    fn default() -> Offer {
        Offer::Lake(Lake::default())
    }
}
