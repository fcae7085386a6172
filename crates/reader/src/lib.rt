// The forms of a day file, as its lines are read to them, and the four offers as records that keep their rules.
#![tactic(auto)]

mod buyer;
mod checks;
mod day_forms;
mod form;
mod groups;
mod lake;
mod lines;
mod names;
mod numbers;
mod offer;
mod offer_forms;
mod offer_parts;
mod parts;
mod ramp;
mod ranges;
mod steam;
mod steps;

pub use buyer::Buyer;
pub use form::Form;
pub use lake::Lake;
pub use lines::read_line;
pub use numbers::{Flow, LakeNumbers, RampNumbers, Rate, Rest, Run, StartCosts, SteamNumbers, Was};
pub use offer::Offer;
pub use ramp::Ramp;
pub use steam::Steam;
pub use steps::{Step, Steps};
