// Requests and their answers.
use settlement::Judgement;
use terms::Entry;

// One of the seven calls with its arguments. The work tables and buffers are shared by the whole list; a request says
// how much of them it lends.
#[derive(Clone, Copy, PartialEq, Eq, Debug)]
pub enum Request<'a> {
    Need(&'a [i32]),
    Price(u32, &'a [i32]),
    Run {
        unit: usize,
        schedule: &'a [Entry],
        slots: usize,
    },
    Mix {
        unit: usize,
        weight: u32,
        schedule: &'a [Entry],
    },
    Supply {
        unit: usize,
        fewer: usize,
        more: usize,
    },
    Show {
        unit: usize,
        slots: usize,
        room: usize,
    },
    Judge {
        room: usize,
    },
}

// What a request is answered.
#[derive(Clone, Copy, PartialEq, Eq, Debug)]
pub enum Answer {
    // a need, price, run or mix
    Entered,
    // best gain, fewest lots, most lots
    Supplied(i64, i64, i64),
    // the schedule stands in the shared buffer
    Shown,
    // the pays stand in the shared buffer
    Judged(Judgement),
}
