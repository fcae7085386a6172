// Tests of the docket: a worked day, every decline, and what a call leaves.
#![tactic(auto)]

#[cfg(test)]
mod calls;
#[cfg(test)]
mod day;
#[cfg(test)]
mod declines;
#[cfg(test)]
mod homing;
#[cfg(test)]
mod opening;
#[cfg(test)]
mod worked;
