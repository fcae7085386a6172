// The rows of an arc table.
ghost use Rattle.std.specs.Prelude.{◌≡◌, ◌&&◌, true, Some};
ghost use Rattle.fleet_kinds.specs.ArcTables.{existing, ranged, bounded, heeded, is_for, cost_on, row_range};

use fleet::Range;
use terms::is_near;

// The unit may go from one state into another in the period, with outputs from lo to hi, for base + rate × output cents.
#[derive(Clone, Copy, PartialEq, Eq, Debug)]
pub struct ArcRow {
    pub unit: usize,
    pub period: usize,
    pub from: usize,
    pub to: usize,
    pub lo: i32,
    pub hi: i32,
    pub base: i32,
    pub rate: i32,
}

// Which arc: of which unit, in which period, from which state into which.
#[derive(Clone, Copy, PartialEq, Eq)]
pub(crate) struct ArcKey {
    pub(crate) unit: usize,
    pub(crate) period: usize,
    pub(crate) from: usize,
    pub(crate) to: usize,
}

impl ArcRow {
    fn key(&self) -> ArcKey
        ensures { result ≡ record { unit = self.now.unit; period = self.now.period; from = self.now.from; to = self.now.to } }
    {
        ArcKey {
            unit: self.unit,
            period: self.period,
            from: self.from,
            to: self.to,
        }
    }

    pub(crate) fn range(&self) -> Range
        ensures { result ≡ row_range self.now }
    {
        Range {
            lo: self.lo,
            hi: self.hi,
        }
    }

    fn does_exist(&self, units: usize) -> bool
        ensures { result ≡ existing units self.now }
    {
        self.unit < units && self.period < 48 && self.from < 80 && self.to < 80
    }

    fn has_range(&self) -> bool
        ensures { result ≡ ranged self.now }
    {
        -500 <= self.lo && (self.lo..=500).contains(&self.hi)
    }

    fn has_bounds(&self) -> bool
        ensures { result ≡ bounded self.now }
    {
        is_near(250_000_000, self.base) && is_near(500_000, self.rate)
    }

    fn is_heeded(&self, units: usize) -> bool
        ensures { result ≡ heeded units self.now }
    {
        self.does_exist(units) && self.has_range() && self.has_bounds()
    }

    // Whether the row is heeded for the arc, where there are so many units. The arc comes first: most rows of a table are
    // about another.
    pub(crate) fn is_for(&self, units: usize, key: ArcKey) -> bool
        ensures { result ≡ is_for units key.unit key.period key.from key.to self.now }
    {
        self.key() == key && self.is_heeded(units)
    }

    // base + rate × output, 0 for an output that is not the arc's.
    #[tactic(auto, using(crate::proofs::Costs::rate_fits, crate::proofs::Costs::product_fits))]
    pub(crate) fn cost(&self, output: i32) -> i32
        requires { (ranged self.now && bounded self.now) ≡ true }
        ensures { result ≡ cost_on (Some self.now) output }
    {
        if self.range().contains(output) {
            self.base + self.rate * output
        } else {
            0
        }
    }
}
