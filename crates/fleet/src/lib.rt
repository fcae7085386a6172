// Fleets: what they answer, schedules and their gains, and the one search over all schedules.
#![tactic(auto)]

mod answers;
mod fleets;
mod periods;
mod records;
mod rows;
mod schedules;
mod scores;
mod search;

pub use answers::{best_gain, first_best, supply};
pub use fleets::Fleet;
pub use periods::Periods;
pub use records::Range;
pub use rows::{NeedRow, PriceRow};
pub use schedules::{Account, check_schedule};
pub use scores::{ByLots, FewerLots, Gain, MoreLots};
pub use search::SLOTS;
