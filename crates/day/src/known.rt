// Answers of the open docket that last: once it is priced, a unit's supply and show do not change.
ghost use Rattle.std.specs.Prelude.{◌≡◌, ℕ, length, None, slice_index_or};
ghost use Rattle.day.specs.Lasting.{lasts, AddsAt};

use terms::{Cause, Decline, Entry};

pub(crate) type KnownSupply = Result<(i64, i64, i64), Decline>;

pub(crate) type KnownShow = Result<[Entry; 48], Decline>;

// The first answers of each unit, none before it was asked.
#[derive(Drop)]
pub(crate) struct Known {
    supplies: [Option<KnownSupply>; 64],
    shows: [Option<KnownShow>; 64],
    ghost supplies_long: { length supplies ≡ 64 },
    ghost shows_long: { length shows ≡ 64 },
}

// Whether an answer lasts: it went through the unit's schedules, so the docket is priced.
fn does_last<T>(answer: &Result<T, Decline>) -> bool
    ensures { result ≡ lasts answer.now }
{
    match answer {
        Ok(_) => true,
        Err(decline) => decline.cause == Cause::NoSchedule,
    }
}

impl Known {
    pub(crate) fn new() -> Known
        ensures supplies { (u : ℕ) → slice_index_or result.supplies u None ≡ None }
        ensures shows { (u : ℕ) → slice_index_or result.shows u None ≡ None }
    {
        let supplies = [None; 64];
        let shows = [None; 64];
        Known { supplies, shows }
    }

    pub(crate) fn supply(&self, unit: usize) -> Option<KnownSupply>
        ensures { result ≡ slice_index_or self.now.supplies unit None }
    {
        if unit < 64 { self.supplies[unit] } else { None }
    }

    pub(crate) fn show(&self, unit: usize) -> Option<KnownShow>
        ensures { result ≡ slice_index_or self.now.shows unit None }
    {
        if unit < 64 { self.shows[unit] } else { None }
    }

    // Keeps an answer that lasts.
    pub(crate) fn keep_supply(&mut self, unit: usize, answer: KnownSupply)
        ensures supplies { AddsAt unit answer self.old.supplies self.new.supplies }
        ensures shows { self.new.shows ≡ self.old.shows }
    {
        if unit < 64 && does_last(&answer) {
            self.supplies[unit] = Some(answer);
        }
    }

    pub(crate) fn keep_show(&mut self, unit: usize, answer: KnownShow)
        ensures supplies { self.new.supplies ≡ self.old.supplies }
        ensures shows { AddsAt unit answer self.old.shows self.new.shows }
    {
        if unit < 64 && does_last(&answer) {
            self.shows[unit] = Some(answer);
        }
    }
}
