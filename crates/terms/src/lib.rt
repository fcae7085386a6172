// What all layers share: declines, with the pool's number of each cause, the entries of a schedule, and bounds.
#![tactic(auto)]

mod decline;
mod entry;
mod limits;

pub use decline::{Cause, Decline, Layer};
pub use entry::Entry;
pub use limits::is_near;
