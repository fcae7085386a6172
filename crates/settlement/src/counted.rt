// Schedules that were checked.
ghost use Rattle.std.specs.Prelude.{◌≡◌, ℕ, ◌≤◌, true, length};
ghost use Rattle.terms.specs.Numbers.{near};
ghost use Rattle.settlement.specs.Evidence.{lots_at};

// A schedule of at most a day, with what it gains.
#[derive(Clone, Copy)]
pub struct Counted<'a> {
    pub schedule: &'a [Entry],
    pub gain: i64,
    ghost short: { length schedule.now ≤ 48 },
    ghost lots: { (t : ℕ) → near 500 (lots_at schedule.now t) ≡ true },
    ghost gain_near: { near 48000000000000 gain ≡ true },
}

use terms::Entry;
