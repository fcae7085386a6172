// The one search over all schedules of a unit, backward over a work table, for every fleet and every score.
ghost use Rattle.std.specs.Prelude.{◌≡◌, ◌+◌, ◌<◌, ◌≤◌, length, take, drop, Some, None, OnOk};
ghost use Rattle.terms.specs.Numbers.{Near};
ghost use Rattle.fleet.specs.Units.{SoundArc};
ghost use Rattle.fleet.specs.Rows.{prices_of, periods_of};
ghost use Rattle.fleet.specs.Scores.{IsWithin, Summed};
ghost use Rattle.fleet.specs.UnitDays.{model_of, of_unit, of_day};
ghost use Rattle.fleet.specs.Answers.{Room, Free, Searched};
ghost use Rattle.fleet.specs.Table.{Best, better_of, worth, Added, ToGo, Via, BestSlots, BestTable, Step, FirstWay};

use crate::fleets::Fleet;
use crate::records::Range;
use crate::rows::PriceRow;
use crate::schedules::gain_of;
use crate::scores::Score;
use terms::{Cause, Decline, Entry};

// The slots of a period in a work table, one for each state that a unit can have.
const STATES: usize = 80;

// The slots of a work table: those of the start of each of 48 periods and of the end of the day.
pub const SLOTS: usize = 3920;

// The better of what is had so far and one more score.
fn better<S: Score>(best: Option<S>, score: S) -> Option<S>
    ensures { result ≡ better_of S.Score.scale best score }
{
    best.max(Some(score))
}

// A unit of a fleet, at a day's prices. A period, its states and its slots stay parameters: a struct of them would be
// made anew at each turn of two loops, to say one bound.
#[derive(Clone, Copy)]
pub(crate) struct UnitDay<'a, F> {
    pub(crate) fleet: &'a F,
    pub(crate) unit: usize,
    pub(crate) row: &'a PriceRow,
}

impl<'a, F: Fleet> UnitDay<'a, F> {
    // The score of one entry.
    fn score<S: Score>(&self, period: usize, from: usize, to: usize, output: i32) -> S
        requires { Near 500 output }
        ensures is { result ≡ worth S.Score.scale (model_of F.Fleet.meaning self.now) (prices_of self.now.row.now) period from to output }
        ensures fits { IsWithin S.Score.scale 1 result }
    {
        let cost = self.fleet.cost(self.unit, period, from, to, output);
        S::of(
            gain_of(self.row.numerator(period), output, self.row.over(), cost),
            output,
        )
    }

    // The best over the outputs of an arc, with the rest of the day.
    fn best_output<S: Score>(
        &self,
        period: usize,
        from: usize,
        to: usize,
        range: Range,
        rest: S,
    ) -> Option<S>
        requires sound { SoundArc (Some range) }
        requires summed { Summed S.Score.scale 47 rest }
        ensures { Best S.Score.scale (of_unit F.Fleet.meaning self.now (Added S.Score.scale) period from to (Some range) rest) result }
    {
        let mut best = None;
        for output in range.lo..=range.hi {
            let score: S = self.score(period, from, to, output);
            best = better(best, score.plus(rest));
        }
        best
    }

    // The best through one next state, where the rest is the best to go from there.
    fn best_arc<S: Score>(
        &self,
        period: usize,
        from: usize,
        to: usize,
        rest: Option<S>,
    ) -> Option<S>
        requires within { period < periods_of self.now.row.now }
        requires next { Best S.Score.scale (of_day F.Fleet.meaning self.now (ToGo S.Score.scale) (period + 1) to) rest }
        ensures { Best S.Score.scale (of_day F.Fleet.meaning self.now (Via S.Score.scale) period from to) result }
    {
        let rest = rest?;
        let range = self.fleet.arc(self.unit, period, from, to)?;
        self.best_output(period, from, to, range, rest)
    }

    // The best to go from a state at a period, where the slots are those of the period after.
    fn best_next<S: Score>(&self, period: usize, from: usize, next: &[Option<S>]) -> Option<S>
        requires within { period < periods_of self.now.row.now }
        requires next { of_day F.Fleet.meaning self.now (BestSlots S.Score.scale) (period + 1) next.now }
        ensures { Best S.Score.scale (of_day F.Fleet.meaning self.now (ToGo S.Score.scale) period from) result }
    {
        let mut best = None;
        for (to, rest) in next.iter().enumerate() {
            if let Some(score) = self.best_arc(period, from, to, *rest) {
                best = better(best, score);
            }
        }
        best
    }

    // The slots of the end of the day.
    fn fill_end<S: Score>(&self, slots: &mut [Option<S>])
        requires { length slots.old ≡ (model_of F.Fleet.meaning self.now).states }
        ensures { of_day F.Fleet.meaning self.now (BestSlots S.Score.scale) (periods_of self.now.row.now) slots.new }
    {
        for (state, slot) in slots.iter_mut().enumerate() {
            *slot = if self.fleet.may_end(self.unit, state) {
                Some(S::zero())
            } else {
                None
            };
        }
    }

    // The slots of a period from those of the next.
    fn fill_period<S: Score>(&self, period: usize, slots: &mut [Option<S>], next: &[Option<S>])
        requires within { period < periods_of self.now.row.now }
        requires long { length slots.old ≡ (model_of F.Fleet.meaning self.now).states }
        requires next { of_day F.Fleet.meaning self.now (BestSlots S.Score.scale) (period + 1) next.now }
        ensures { of_day F.Fleet.meaning self.now (BestSlots S.Score.scale) period slots.new }
    {
        for (from, slot) in slots.iter_mut().enumerate() {
            *slot = self.best_next(period, from, next);
        }
    }

    // The best score of the unit's allowed schedules, with the best to go from each state of each period in the table:
    // filled backward, from the end of the day. The table stays a slice: as an array its length would be in its type, but
    // an array of a type parameter is not known to fit in memory.
    fn best<S: Score>(&self, table: &mut [Option<S>]) -> Option<S>
        requires { Room (length table.old) }
        ensures is { Best S.Score.scale (of_day F.Fleet.meaning self.now (ToGo S.Score.scale) 0 (model_of F.Fleet.meaning self.now).start) result }
        ensures filled { of_day F.Fleet.meaning self.now (BestTable S.Score.scale) 0 table.new }
    {
        let states = self.fleet.states(self.unit);
        let periods = self.row.periods();
        let end = periods * STATES;
        self.fill_end(&mut table[end..end + states]);
        // The table is parted anew at each period, so there is no slice of periods to go over.
        for period in (0..periods).rev() {
            let (slots, next) = table.split_at_mut((period + 1) * STATES);
            let begin = period * STATES;
            self.fill_period(period, &mut slots[begin..begin + states], &next[..states]);
        }
        table[self.fleet.start(self.unit)]
    }

    // The same, declined with 30 where the table is too short, then 32 where no schedule is allowed.
    pub(crate) fn search<S: Score>(&self, table: &mut [Option<S>]) -> Result<S, Decline>
        ensures best { Searched (Room (length table.old)) (model_of F.Fleet.meaning self.now) (periods_of self.now.row.now) self.now.unit (λ x. Best S.Score.scale (of_day F.Fleet.meaning self.now (ToGo S.Score.scale) 0 (model_of F.Fleet.meaning self.now).start) (Some x)) result }
        ensures filled { OnOk result (of_day F.Fleet.meaning self.now (BestTable S.Score.scale) 0 table.new) }
        ensures table { Free (Room (length table.old)) table.old table.new }
    {
        if table.len() < SLOTS {
            return Err(Cause::TooLittleRoom.at(self.unit));
        }
        self.best(table).ok_or(Cause::NoSchedule.at(self.unit))
    }

    // The first entry in reading order that attains the best to go from a state at a period.
    fn first_step<S: Score>(&self, period: usize, from: usize, best: S, next: &[Option<S>]) -> Entry
        requires within { period < periods_of self.now.row.now }
        requires next { of_day F.Fleet.meaning self.now (BestSlots S.Score.scale) (period + 1) next.now }
        requires best { Best S.Score.scale (of_day F.Fleet.meaning self.now (ToGo S.Score.scale) period from) (Some best) }
        ensures { of_day F.Fleet.meaning self.now (Step S.Score.scale) period from best result }
    {
        // The best over an arc goes through all of its outputs, this stops at one: the two share `lo..=hi` alone.
        'search: {
            for (to, slot) in next.iter().enumerate() {
                let Some(rest) = *slot else {
                    continue;
                };
                let Some(range) = self.fleet.arc(self.unit, period, from, to) else {
                    continue;
                };
                for output in range.lo..=range.hi {
                    let score: S = self.score(period, from, to, output);
                    if best <= score.plus(rest) {
                        break 'search Entry { state: to, output };
                    }
                }
            }
            unreachable()
        }
    }

    // Writes the first of the best ways from a filled table.
    pub(crate) fn trace<S: Score>(&self, best: S, table: &[Option<S>], out: &mut [Entry])
        requires slots { Room (length table.now) }
        requires filled { of_day F.Fleet.meaning self.now (BestTable S.Score.scale) 0 table.now }
        requires best { Best S.Score.scale (of_day F.Fleet.meaning self.now (ToGo S.Score.scale) 0 (model_of F.Fleet.meaning self.now).start) (Some best) }
        requires room { periods_of self.now.row.now ≤ length out.old }
        ensures first { of_day F.Fleet.meaning self.now (FirstWay S.Score.scale) 0 (model_of F.Fleet.meaning self.now).start best (take (periods_of self.now.row.now) out.new) }
        ensures past { drop (periods_of self.now.row.now) out.new ≡ drop (periods_of self.now.row.now) out.old }
    {
        let states = self.fleet.states(self.unit);
        let mut state = self.fleet.start(self.unit);
        let mut to_go = best;
        for (period, entry) in out[..self.row.periods()].iter_mut().enumerate() {
            let begin = (period + 1) * STATES;
            let next = &table[begin..begin + states];
            let step = self.first_step(period, state, to_go, next);
            *entry = step;
            state = step.state;
            let slot = next[state];
            let Some(rest) = slot else { unreachable() };
            to_go = rest;
        }
    }
}
