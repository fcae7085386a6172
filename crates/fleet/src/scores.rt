// Scores: what the search maximises.
ghost use Rattle.std.specs.Prelude.{◌≡◌, FitsSigned};
ghost use Rattle.std.specs.Int.{w64};
ghost use Rattle.std.specs.Ordering.{partial_le};
ghost use Rattle.std.proofs.Common.{rules};
ghost use Rattle.fleet.specs.Scores.{Scale, Exact, AddsExactly, Lawful, turned, gain_scale, lots_scale};
ghost use Rattle.fleet.specs.ScoreLaws.{gain_lawful, lots_lawful, adds_exactly};

// A score is made of an entry's gain and lots, and is added up over the day. Its scale says what it stands for.
pub trait Score: Copy + Ord {
    ghost scale: { Scale Self };

    fn of(gain: i64, lots: i32) -> Self
        requires { Exact scale (scale.of gain lots) }
        ensures { result ≡ scale.of gain lots };

    fn zero() -> Self
        ensures { result ≡ scale.zero };

    // The largest amount that one period may add.
    fn largest() -> Self
        ensures { result ≡ scale.largest };

    fn plus(self, other: Self) -> Self
        requires { Exact scale (scale.add self other) }
        ensures { result ≡ scale.add self other };

    ghost lawful: { Lawful scale };

    // Up to 48 amounts that one period may add, none beyond the largest, come to an exact sum.
    ghost adds: { AddsExactly scale };

    // The scale's order is that of `<=`.
    ghost ordered: { (a b : Self) → partial_le Self.partial_cmp a b ≡ scale.at_most a b };
}

// The most that an entry gains: 500 lots at 1,000,000,000, and as much for 1,000 times 500,000,000 cents saved.
const MOST_GAIN: i64 = 1_000_000_000_000;

// The most lots of an entry.
const MOST_LOTS: i64 = 500;

// The gain alone.
#[derive(Clone, Copy, PartialEq, Eq, PartialOrd, Ord, Debug)]
pub struct Gain {
    pub(crate) gain: i64,
}

impl Score for Gain {
    ghost scale = { gain_scale };

    ghost lawful = { gain_lawful };

    ghost adds = { adds_exactly gain_lawful };

    ghost ordered = { Prim.search rules };

    fn of(gain: i64, lots: i32) -> Gain {
        let _ = lots;
        Gain { gain }
    }

    fn zero() -> Gain {
        Gain { gain: 0 }
    }

    fn largest() -> Gain {
        Gain { gain: MOST_GAIN }
    }

    fn plus(self, other: Gain) -> Gain {
        Gain {
            gain: self.gain + other.gain,
        }
    }
}

// The gain, and among equal gains the lots: more are better, or fewer, which then count negative.
#[derive(Clone, Copy, PartialEq, Eq, PartialOrd, Ord, Debug)]
pub struct ByLots<const FEWER: bool> {
    pub(crate) gain: i64,
    rank: i64,
}

pub type MoreLots = ByLots<false>;

pub type FewerLots = ByLots<true>;

impl<const FEWER: bool> ByLots<FEWER> {
    pub(crate) fn lots(&self) -> i64
        requires { FitsSigned w64 (turned FEWER self.now.rank) }
        ensures { result ≡ turned FEWER self.now.rank }
    {
        if FEWER { -self.rank } else { self.rank }
    }
}

impl<const FEWER: bool> Score for ByLots<FEWER> {
    ghost scale = { lots_scale FEWER };

    ghost lawful = { lots_lawful FEWER };

    ghost adds = { adds_exactly (lots_lawful FEWER) };

    ghost ordered = { Prim.search rules };

    fn of(gain: i64, lots: i32) -> Self {
        let lots = i64::from(lots);
        ByLots {
            gain,
            rank: if FEWER { -lots } else { lots },
        }
    }

    fn zero() -> Self {
        ByLots { gain: 0, rank: 0 }
    }

    fn largest() -> Self {
        ByLots {
            gain: MOST_GAIN,
            rank: MOST_LOTS,
        }
    }

    fn plus(self, other: Self) -> Self {
        ByLots {
            gain: self.gain + other.gain,
            rank: self.rank + other.rank,
        }
    }
}
