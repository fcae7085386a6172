// The evidence on the sheet, and the pays.
ghost use Rattle.std.specs.Prelude.{◌≡◌, ℕ, ◌<◌, ◌≤◌, true, length, drop, pos, ◌*ℤ◌, Some, None, slice_index_or};
ghost use Rattle.terms.specs.Sums.{sum_to};
ghost use Rattle.fleet.specs.Rows.{wanted_of};
ghost use Rattle.settlement.specs.Standings.{mixed_of};
ghost use Rattle.settlement.specs.Ledger.{has};
ghost use Rattle.settlement.specs.Weighing.{FoundFirst, Weighed, pay_at, verdict_of};

use crate::sheet::Sheet;
use crate::sheet::book::times;
use crate::standing::Standing;
use crate::verdicts::Verdict;
use fleet::{NeedRow, Periods};
use terms::{Cause, Decline};

// What a unit is due, 0 without a run. Signed 64 bits always hold it, and judge tests it all the same.
fn pay_of(standing: Option<Standing>) -> Option<i64>
    ensures { result ≡ Some (pay_at standing) }
{
    standing.map_or(Some(0), Standing::pay)
}

// The first period whose sum is not the weight times its need.
fn first_missed(sums: &[i64; 48], weight: u32, needs: &NeedRow, periods: Periods) -> Option<usize>
    ensures { FoundFirst periods.count (λ t. slice_index_or sums.now t (pos 0) ≡ pos weight *ℤ slice_index_or (wanted_of needs.now) t (pos 0)) result }
{
    (0..periods.count()).find(|&period| sums[period] != times(weight, needs.wanted(period)))
}

// The first unit without a run.
fn first_idle(standings: &[Option<Standing>]) -> Option<usize>
    ensures { FoundFirst (length standings.now) (λ u. has (slice_index_or standings.now u None) ≡ true) result }
{
    standings.iter().position(|standing| standing.is_none())
}

// The first unit whose mixes do not weigh this much together.
fn first_light(standings: &[Option<Standing>], weight: u32) -> Option<usize>
    ensures { FoundFirst (length standings.now) (λ u. mixed_of (slice_index_or standings.now u None) ≡ weight) result }
{
    standings.iter().position(|standing| standing.map_or(0, |standing| standing.mixed) != weight)
}

// The sum of the pays. Signed 64 bits always hold it.
fn uplift(standings: &[Option<Standing>]) -> Option<i64>
    requires { length standings.now ≤ 64 }
    ensures { result ≡ Some (sum_to (length standings.now) (λ u. pay_at (slice_index_or standings.now u None))) }
{
    let mut uplift: i64 = 0;
    for standing in standings {
        uplift = uplift.checked_add(pay_of(*standing)?)?;
    }
    Some(uplift)
}

impl Sheet {
    // The uplift, if the evidence is whole. Declined with 41 to 44; 31 cannot come, since every pay and their sum fit.
    // How many units there may be is the fleet's law; a type of that number would be made for each call.
    pub(crate) fn weigh(
        &self,
        needs: &NeedRow,
        units: usize,
        periods: Periods,
        weight: u32,
    ) -> Result<i64, Decline>
        requires { units ≤ 64 }
        ensures { Weighed units periods.count weight needs.now self.now result }
    {
        let standings = &self.units[..units];
        let uplift = uplift(standings).ok_or(Cause::BeyondRange.at(0))?;
        if let Some(unit) = first_idle(standings) {
            return Err(Cause::UnitWithoutRun.at(unit));
        }
        if let Some(period) = first_missed(&self.runs, 1, needs, periods) {
            return Err(Cause::RunsMissNeed.at(period));
        }
        if let Some(unit) = first_light(standings, weight) {
            return Err(Cause::MixesTooLight.at(unit));
        }
        if let Some(period) = first_missed(&self.mixes, weight, needs, periods) {
            return Err(Cause::MixesMissNeed.at(period));
        }
        Ok(uplift)
    }

    // Writes each unit's pay; past the units the buffer is as it was.
    pub(crate) fn write_pays(&self, units: usize, pays: &mut [i64])
        requires units { units ≤ 64 }
        requires room { units ≤ length pays.old }
        ensures each { (u : ℕ) → u < units → slice_index_or pays.new u (pos 0) ≡ pay_at (slice_index_or self.now.units u None) }
        ensures long { length pays.new ≡ length pays.old }
        ensures past { drop units pays.new ≡ drop units pays.old }
    {
        // By place: no clause says what a slice holds after writes through a zip.
        for (unit, standing) in self.units[..units].iter().enumerate() {
            if let Some(pay) = pay_of(*standing) {
                pays[unit] = pay;
            }
        }
    }
}

// LEAST exactly without a gap.
pub(crate) fn verdict_of(gap: i64) -> Verdict
    ensures { result ≡ verdict_of gap }
{
    if gap == 0 {
        Verdict::Least
    } else {
        Verdict::Within
    }
}
