// The ranges that numerals of the day file have.
use words::Bounds;

// Units, states, periods, weights and denominators.
pub(crate) const COUNT: Bounds = Bounds {
    lo: 0,
    hi: 2_147_483_647,
};

// Signed amounts.
pub(crate) const AMOUNT: Bounds = Bounds {
    lo: -2_147_483_648,
    hi: 2_147_483_647,
};

pub(crate) const LOTS: Bounds = Bounds { lo: 1, hi: 500 };

// Cents of a start or of a period.
pub(crate) const MONEY: Bounds = Bounds {
    lo: 0,
    hi: 100_000_000,
};

// Cents a lot.
pub(crate) const PRICE: Bounds = Bounds {
    lo: -500_000,
    hi: 500_000,
};

pub(crate) const PRICE_TO_PAY: Bounds = Bounds { lo: 0, hi: 500_000 };

// Periods that a unit stays on or off.
pub(crate) const SHORT: Bounds = Bounds { lo: 1, hi: 24 };

// Periods of a day.
pub(crate) const PERIODS: Bounds = Bounds { lo: 1, hi: 48 };

// Weights that mixes of a unit add up to.
pub(crate) const WEIGHT: Bounds = Bounds { lo: 1, hi: 1_000 };

// An output, or none.
pub(crate) const OUTPUT: Bounds = Bounds { lo: 0, hi: 500 };

// A lake's levels, of which the highest is no less than 1.
pub(crate) const LEVEL: Bounds = Bounds { lo: 0, hi: 79 };

pub(crate) const FULL: Bounds = Bounds { lo: 1, hi: 79 };

pub(crate) const WEAR: Bounds = Bounds { lo: 0, hi: 100_000 };
