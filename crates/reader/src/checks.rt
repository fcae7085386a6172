// Whether numbers are in their ranges and agree.
ghost use Rattle.std.specs.Prelude.{◌≡◌, ◌<◌, ◌^◌};
ghost use Rattle.reader.specs.Offers.{fair_run, narrow, fair_money, fair_output, fair_times, fair_costs, fair_was, fair_rate};

use crate::numbers::{Rate, Rest, Run, StartCosts, Was};

// An amount of money.
pub(crate) fn is_money(cents: u32) -> bool
    ensures { result ≡ fair_money cents }
{
    cents <= 100_000_000
}

impl Run {
    pub(crate) fn is_fair(self) -> bool
        ensures { result ≡ fair_run self }
    {
        1 <= self.lo && (self.lo..=500).contains(&self.hi)
    }

    // At most 79 outputs, so that a state for each is at hand.
    pub(crate) fn is_narrow(self) -> bool
        ensures { result ≡ narrow self }
    {
        self.hi <= self.lo.saturating_add(78)
    }

    // Off, or an output of a unit that is on.
    pub(crate) fn has(self, lots: u32) -> bool
        ensures { result ≡ fair_output lots self }
    {
        lots == 0 || (self.lo..=self.hi).contains(&lots)
    }
}

impl Rest {
    pub(crate) fn is_fair(self) -> bool
        ensures { result ≡ fair_times self }
    {
        (1..=24).contains(&self.up)
            && (1..=24).contains(&self.down)
            && (self.down..=48).contains(&self.cold)
    }
}

impl StartCosts {
    pub(crate) fn is_fair(self, idle: u32) -> bool
        ensures { result ≡ fair_costs self idle }
    {
        is_money(self.hot) && is_money(self.frost) && is_money(idle)
    }
}

impl Was {
    pub(crate) fn is_fair(self) -> bool
        ensures { result ≡ fair_was self }
    {
        match self {
            Was::On(periods) | Was::Off(periods) => (1..=48).contains(&periods),
        }
    }
}

impl Rate {
    pub(crate) fn is_fair(self, run: Run) -> bool
        ensures { result ≡ fair_rate self run }
    {
        (1..=500).contains(&self.step) && (run.lo..=500).contains(&self.edge)
    }
}
