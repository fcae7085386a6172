// The docket of a day: its calls, its evidence and its verdict.
#![tactic(auto)]

mod counted;
mod docket;
mod sheet;
mod stages;
mod standing;
mod verdicts;

pub use docket::{Docket, Unopened};
pub use verdicts::{Judgement, Verdict};
