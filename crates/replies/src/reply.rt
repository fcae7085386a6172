// The replies.
use arrayvec::ArrayVec;
use settlement::Judgement;
use terms::{Decline, Entry};

#[derive(Drop)]
pub enum Reply {
    Nothing,
    // Why the line of this number is declined.
    No {
        decline: Decline,
        line: usize,
    },
    // A unit's best gain, with the least and the greatest lots.
    Supply {
        unit: usize,
        best: i64,
        least: i64,
        most: i64,
    },
    // A unit's best schedule that comes first in reading order.
    Show {
        unit: usize,
        schedule: ArrayVec<Entry, 48>,
    },
    // Each unit's pay, and the verdict.
    Verdict {
        pays: ArrayVec<i64, 64>,
        judgement: Judgement,
    },
}
