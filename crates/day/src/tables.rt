// The work tables of a day.
ghost use Rattle.std.specs.Prelude.{◌≡◌, length};

use fleet::{FewerLots, Gain, MoreLots, SLOTS};

// One for each score, shared by all searches.
#[derive(Drop)]
pub(crate) struct Tables {
    pub(crate) gains: [Option<Gain>; SLOTS],
    pub(crate) fewer: [Option<FewerLots>; SLOTS],
    pub(crate) more: [Option<MoreLots>; SLOTS],
    ghost gains_whole: { length gains ≡ 3920 },
    ghost fewer_whole: { length fewer ≡ 3920 },
    ghost more_whole: { length more ≡ 3920 },
}

impl Tables {
    pub(crate) fn new() -> Tables {
        let gains = [None; SLOTS];
        let fewer = [None; SLOTS];
        let more = [None; SLOTS];
        Tables { gains, fewer, more }
    }
}
