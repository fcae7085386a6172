// One offer as a unit: its states, and that its schedules are exactly those of the rule of its kind.
#![tactic(auto)]

mod buyer;
mod fill;
mod lake;
mod offer;
mod offered;
mod ramp;
mod steam;

pub use offer::{arc, cost, may_end, start, states};
