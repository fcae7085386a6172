// Ramp units.
ghost use Rattle.std.specs.Prelude.{◌≡◌, ◌<◌, ◌≤◌, true, ◌+◌, ◌-◌};
ghost use Rattle.units.specs.RampUnits.{output_in, state_at, may_move, just, ramp_charge, ramp_links};

use crate::fill::running_cost;
use crate::offered::Offered;
use fleet::Range;
use reader::{Ramp, Rate};

// The output in one of its states: off is state 0.
fn output_in(ramp: &Ramp, state: usize) -> u32
    requires { state < ramp.now.numbers.run.hi - ramp.now.numbers.run.lo + 2 }
    ensures is { result ≡ output_in ramp.now.numbers.run state }
    ensures few { result ≤ 500 }
{
    if state == 0 {
        0
    } else {
        ramp.numbers.run.lo + state as u32 - 1
    }
}

// Whether the output may move so in one period.
fn may_move(rate: Rate, from: u32, to: u32) -> bool
    requires from { from ≤ 500 }
    requires to { to ≤ 500 }
    requires step { rate.step ≤ 500 }
    ensures { result ≡ may_move rate from to }
{
    match (from > 0, to > 0) {
        (true, true) => to <= from + rate.step && from <= to + rate.step,
        (true, false) => from <= rate.edge,
        (false, true) => to <= rate.edge,
        (false, false) => true,
    }
}

impl Offered for Ramp {
    ghost links = { λ o. ramp_links o.numbers };

    fn states(&self) -> usize {
        (self.numbers.run.hi - self.numbers.run.lo) as usize + 2
    }

    fn start(&self) -> usize {
        if self.numbers.was > 0 {
            (self.numbers.was + 1 - self.numbers.run.lo) as usize
        } else {
            0
        }
    }

    fn may_go(&self, from: usize, to: usize) -> bool {
        may_move(
            self.numbers.rate,
            output_in(self, from),
            output_in(self, to),
        )
    }

    fn outputs(&self, from: usize, to: usize) -> Range {
        let _ = from;
        let lots = output_in(self, to) as i32;
        Range { lo: lots, hi: lots }
    }

    fn charge(&self, from: usize, to: usize, output: i32) -> i32 {
        let _ = output;
        let lots = output_in(self, to);
        if lots == 0 {
            return 0;
        }
        let start = if output_in(self, from) > 0 {
            0
        } else {
            self.numbers.start
        };
        running_cost(self.numbers.idle + start, &self.numbers.steps, lots)
    }

    fn may_stop(&self, state: usize) -> bool {
        let _ = state;
        true
    }
}
