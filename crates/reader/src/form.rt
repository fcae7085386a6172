// What a line of a day file says.
use crate::offer::Offer;
use arrayvec::ArrayVec;
use terms::Entry;

#[derive(Drop)]
pub enum Form {
    Day {
        periods: usize,
        weight: u32,
    },
    Offer(Offer),
    Out {
        unit: usize,
        first: usize,
        last: usize,
    },
    Need {
        wanted: ArrayVec<i32, 48>,
    },
    Price {
        over: u32,
        numerators: ArrayVec<i32, 48>,
    },
    Run {
        unit: usize,
        schedule: ArrayVec<Entry, 48>,
    },
    Mix {
        unit: usize,
        weight: u32,
        schedule: ArrayVec<Entry, 48>,
    },
    Supply {
        unit: usize,
    },
    Show {
        unit: usize,
    },
    Judge,
}
