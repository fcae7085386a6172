// The docket.
ghost use Rattle.std.specs.Prelude.{◌≤◌};

use crate::sheet::Sheet;
use fleet::Periods;
use terms::Decline;

mod asking;
mod checks;
mod entering;
mod opening;

// A fleet's day: its periods, the weight that each unit's mixes have together, and the sheet of what was entered.
#[derive(Drop)]
pub struct Docket<F> {
    fleet: F,
    periods: Periods,
    weight: u32,
    sheet: Sheet,
    ghost some: { 1 ≤ weight },
    ghost most: { weight ≤ 1000 },
}

// A docket that was not opened: the fleet, given back, and why.
#[derive(Drop)]
pub struct Unopened<F> {
    pub fleet: F,
    pub decline: Decline,
}
