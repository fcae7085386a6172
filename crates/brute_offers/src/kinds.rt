// The four kinds.
use crate::draws::Draws;
use reader::Offer;

#[derive(Clone, Copy, PartialEq, Eq, Debug)]
pub(crate) enum Kind {
    Steam,
    Ramp,
    Lake,
    Buyer,
}

impl Kind {
    pub(crate) fn name(self) -> &'static str {
        match self {
            Kind::Steam => "steam",
            Kind::Ramp => "ramp",
            Kind::Lake => "lake",
            Kind::Buyer => "buyer",
        }
    }

    pub(crate) fn drawn(self, draws: &mut Draws) -> Option<Offer> {
        match self {
            Kind::Steam => draws.steam(),
            Kind::Ramp => draws.ramp(),
            Kind::Lake => draws.lake(),
            Kind::Buyer => draws.buyer(),
        }
    }
}
