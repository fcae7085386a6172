// Fleets of their own: arc tables, and outages over any fleet.
#![tactic(auto)]

mod arc_table;
mod outages;
mod rows;

pub use arc_table::ArcTable;
pub use outages::{Outage, Outages};
pub use rows::ArcRow;
