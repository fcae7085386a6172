// Making and reading checked rows.
ghost use Rattle.std.specs.Prelude.{◌≡◌, ◌≤◌, ◌-◌, ◌++◌, length, replicate, pos, None, position, not, slice_index_or};
ghost use Rattle.terms.specs.Numbers.{near};
ghost use Rattle.fleet.specs.Rows.{Made, RowOf, PriceRowOf, NeedRowOf, row_fault, price_fault, need_fault, numbers_of, prices_of, periods_of, wanted_of, PriceRowLaw, NeedRowLaw};
ghost use Rattle.fleet.specs.Schedules.{numerator_at};

use crate::periods::Periods;
use crate::rows::{NeedRow, PriceRow, Row};
use terms::{Cause, Decline, is_near};

// The first period whose number lies beyond the limit.
fn first_beyond(limit: u32, numbers: &[i32]) -> Option<usize>
    ensures { result ≡ position (λ z. not (near limit z)) numbers.now }
{
    numbers.iter().position(|number| !is_near(limit, *number))
}

// The numbers, and 0 in the places that are not used.
fn padded(numbers: &[i32]) -> [i32; 48]
    requires { length numbers.now ≤ 48 }
    ensures { result ≡ numbers.now ++ replicate (48 - length numbers.now) (pos 0) }
{
    let mut all = [0; 48];
    all[..numbers.len()].copy_from_slice(numbers);
    all
}

impl<const LIMIT: u32> Row<LIMIT> {
    // Declined with 22 where the numbers are not as many as the day's periods, then 23 at the first beyond the limit.
    pub(crate) fn new(periods: Periods, numbers: &[i32]) -> Result<Row<LIMIT>, Decline>
        ensures { Made (row_fault periods.count LIMIT numbers.now None) (RowOf periods.count numbers.now) result }
    {
        let periods = periods.count();
        if numbers.len() != periods {
            return Err(Cause::RowLength.at(0));
        }
        if let Some(place) = first_beyond(LIMIT, numbers) {
            return Err(Cause::RowValue.at(place));
        }
        let numbers = padded(numbers);
        Ok(Row { periods, numbers })
    }

    // The number of periods of the day.
    pub(crate) fn periods(&self) -> usize
        ensures { result ≡ self.now.periods }
    {
        self.periods
    }

    // The number of a period, 0 past the end.
    pub(crate) fn at(&self, period: usize) -> i32
        ensures { result ≡ slice_index_or (numbers_of self.now) period (pos 0) }
    {
        self.numbers[..self.periods]
            .get(period)
            .copied()
            .unwrap_or(0)
    }
}

impl PriceRow {
    // A row of a day's prices. Declined with 22 where the numerators are not as many as the day's periods, then 23 at
    // the first beyond the limit, then 23 at the day's length for a denominator that is not 1 to 1,000.
    #[tactic(auto, using(crate::proofs::RowLaws::price_row_law))]
    pub fn new(periods: Periods, over: u32, numerators: &[i32]) -> Result<PriceRow, Decline>
        ensures made { Made (price_fault periods.count over numerators.now) (PriceRowOf periods.count over numerators.now) result }
        ensures law { PriceRowLaw }
    {
        let numerators = Row::new(periods, numerators)?;
        if !(1..=1000).contains(&over) {
            return Err(Cause::RowValue.at(periods.count()));
        }
        Ok(PriceRow { over, numerators })
    }

    // The common denominator of the prices.
    pub fn over(&self) -> u32
        ensures { result ≡ (prices_of self.now).over }
    {
        self.over
    }

    // The number of periods of the day.
    pub fn periods(&self) -> usize
        ensures { result ≡ periods_of self.now }
    {
        self.numerators.periods()
    }

    // The numerator of a period, 0 past the end.
    pub(crate) fn numerator(&self, period: usize) -> i32
        ensures { result ≡ numerator_at (prices_of self.now) period }
    {
        self.numerators.at(period)
    }
}

impl NeedRow {
    // A row of a day's wanted lots. Declined with 22 where they are not as many as the day's periods, then 23 at the
    // first beyond the limit.
    #[tactic(auto, using(crate::proofs::RowLaws::need_row_law))]
    pub fn new(periods: Periods, wanted: &[i32]) -> Result<NeedRow, Decline>
        ensures made { Made (need_fault periods.count wanted.now) (NeedRowOf periods.count wanted.now) result }
        ensures law { NeedRowLaw }
    {
        let wanted = Row::new(periods, wanted)?;
        Ok(NeedRow { wanted })
    }

    // The wanted lots of a period, 0 past the end.
    pub fn wanted(&self, period: usize) -> i32
        ensures { result ≡ slice_index_or (wanted_of self.now) period (pos 0) }
    {
        self.wanted.at(period)
    }
}
