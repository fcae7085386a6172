// What a list of requests works with.
use fleet::{FewerLots, Gain, MoreLots};
use terms::Entry;

// Lent by the caller, since a docket allocates nothing, and shared by all requests: a work table for each score, a buffer
// for a schedule and one for pays.
#[derive(Drop)]
pub struct Desk<'a> {
    pub gains: &'a mut [Option<Gain>],
    pub fewer: &'a mut [Option<FewerLots>],
    pub more: &'a mut [Option<MoreLots>],
    pub schedule: &'a mut [Entry],
    pub pays: &'a mut [i64],
}
