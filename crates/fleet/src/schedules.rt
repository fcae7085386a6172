// The schedule check.
ghost use Rattle.std.specs.Prelude.{◌≡◌, ◌≤◌, ℤ, pos, ◌-ℤ◌, ◌*ℤ◌};
ghost use Rattle.terms.specs.Numbers.{Near};
ghost use Rattle.fleet.specs.Rows.{prices_of};
ghost use Rattle.fleet.specs.Answers.{Checked};
ghost use Rattle.fleet.specs.Scores.{gain_limit};

use crate::fleets::Fleet;
use crate::rows::PriceRow;
use terms::{Cause, Decline, Entry};

// What a schedule comes to: its cost in cents, its gain in cents over the row's denominator.
#[derive(Clone, Copy, PartialEq, Eq, Debug)]
pub struct Account {
    pub cost: i64,
    pub gain: i64,
}

// numerator × output less over × cost.
pub(crate) fn gain_of(numerator: i32, output: i32, over: u32, cost: i32) -> i64
    requires numerator { Near 1000000000 numerator }
    requires output { Near 500 output }
    requires over { over ≤ 1000 }
    requires cost { Near 500000000 cost }
    ensures gain { result ≡ (numerator *ℤ output) -ℤ (pos over *ℤ cost) }
    ensures bounded { Near gain_limit result }
{
    i64::from(numerator) * i64::from(output) - i64::from(over) * i64::from(cost)
}

// The cost and gain of an allowed schedule, asked of fleet, unit and row as the searches are. Declined with 27 at the
// first period without an arc that contains its output, or at the end where only that fails.
pub fn check_schedule<F: Fleet>(
    fleet: &F,
    unit: usize,
    row: &PriceRow,
    schedule: &[Entry],
) -> Result<Account, Decline>
    ensures { Checked ((F.Fleet.meaning fleet.now).model unit) (prices_of row.now) schedule.now result }
{
    let mut state = fleet.start(unit);
    let mut period = 0;
    let mut cost = 0;
    let mut gain = 0;
    for step in schedule {
        let Some(range) = fleet.arc(unit, period, state, step.state) else {
            return Err(Cause::ScheduleNotAllowed.at(period));
        };
        if !range.contains(step.output) {
            return Err(Cause::ScheduleNotAllowed.at(period));
        }
        let paid = fleet.cost(unit, period, state, step.state, step.output);
        cost += i64::from(paid);
        gain += gain_of(row.numerator(period), step.output, row.over(), paid);
        state = step.state;
        period += 1;
    }
    if fleet.may_end(unit, state) {
        Ok(Account { cost, gain })
    } else {
        Err(Cause::ScheduleNotAllowed.at(period))
    }
}
