// Steam units.
ghost use Rattle.std.specs.Prelude.{◌≡◌, ◌<◌, ◌≤◌, true, false, ◌+◌};
ghost use Rattle.units.specs.SteamUnits.{is_on, after_periods, was_on, was_for, goes_to, may, steam_linked, steam_outputs, starting, steam_charge, steam_links};

use crate::fill::running_cost;
use crate::offered::Offered;
use fleet::Range;
use reader::{Rest, Steam, Was};

// The state after one of its states, in a period on or off.
fn next_state(steam: &Steam, from: usize, on: bool) -> usize
    requires { from < steam.now.numbers.rest.up + steam.now.numbers.rest.cold }
    ensures { result ≡ goes_to steam.now.numbers.rest from on }
{
    let Rest { up, cold, .. } = steam.numbers.rest;
    match (on, from < up) {
        (true, true) => (from + 1).min(up - 1),
        (true, false) => 0,
        (false, true) => up,
        (false, false) => up + (from + 1 - up).min(cold - 1),
    }
}

// Whether the minimum times allow a period on, or off, after one of its states.
fn may_turn(steam: &Steam, from: usize, on: bool) -> bool
    requires { from < steam.now.numbers.rest.up + steam.now.numbers.rest.cold }
    ensures { result ≡ may steam.now.numbers.rest from on }
{
    let Rest { up, down, .. } = steam.numbers.rest;
    match (on, from < up) {
        (true, true) => true,
        (true, false) => down <= from + 1 - up,
        (false, true) => from + 1 == up,
        (false, false) => true,
    }
}

// What a start costs after one of its states: nothing while on, frost where cold, else hot.
fn start_cost(steam: &Steam, from: usize) -> u32
    requires { from < steam.now.numbers.rest.up + steam.now.numbers.rest.cold }
    ensures { result ≡ starting steam.now.numbers from }
{
    let Rest { up, cold, .. } = steam.numbers.rest;
    if from < up {
        0
    } else if cold <= from + 1 - up {
        steam.numbers.start.frost
    } else {
        steam.numbers.start.hot
    }
}

impl Offered for Steam {
    ghost links = { λ o. steam_links o.numbers };

    fn states(&self) -> usize {
        self.numbers.rest.up + self.numbers.rest.cold
    }

    fn start(&self) -> usize {
        let Rest { up, cold, .. } = self.numbers.rest;
        match self.numbers.was {
            Was::On(periods) => periods.min(up) - 1,
            Was::Off(periods) => up + periods.min(cold) - 1,
        }
    }

    fn may_go(&self, from: usize, to: usize) -> bool {
        let on = to < self.numbers.rest.up;
        to == next_state(self, from, on) && may_turn(self, from, on)
    }

    fn outputs(&self, from: usize, to: usize) -> Range {
        let _ = from;
        if to < self.numbers.rest.up {
            Range {
                lo: self.numbers.run.lo as i32,
                hi: self.numbers.run.hi as i32,
            }
        } else {
            Range { lo: 0, hi: 0 }
        }
    }

    fn charge(&self, from: usize, to: usize, output: i32) -> i32 {
        if to < self.numbers.rest.up {
            let fixed = self.numbers.idle + start_cost(self, from);
            running_cost(fixed, &self.numbers.steps, output.unsigned_abs())
        } else {
            0
        }
    }

    fn may_stop(&self, state: usize) -> bool {
        let _ = state;
        true
    }
}
