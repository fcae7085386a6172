// Checks that several calls share.
ghost use Rattle.settlement.specs.Stages.{call_place, AsksRows};
ghost use Rattle.settlement.specs.Calls.{UnitPrices, Accounted};

use crate::counted::Counted;
use crate::docket::Docket;
use crate::stages::Call;
use fleet::{Fleet, PriceRow, check_schedule};
use terms::{Cause, Decline, Entry};

impl<F: Fleet> Docket<F> {
    // The prices, for a call of a unit. Declined with 21, then 24.
    #[inline(always)]
    pub(crate) fn unit_prices(&self, call: Call) -> Result<PriceRow, Decline>
        requires { AsksRows call }
        ensures { UnitPrices (F.Fleet.meaning self.now.fleet) self.now.sheet.stage (call_place call.entry) result }
    {
        let rows = self.sheet.rows(self.periods, call)?;
        let unit = call.place();
        if unit >= self.fleet.units() {
            return Err(Cause::NoSuchUnit.at(unit));
        }
        Ok(rows.prices)
    }

    // A schedule of a unit, with what it gains. Declined with 26, then 27.
    pub(crate) fn account<'a>(
        &self,
        unit: usize,
        prices: &PriceRow,
        schedule: &'a [Entry],
    ) -> Result<Counted<'a>, Decline>
        ensures { Accounted ((F.Fleet.meaning self.now.fleet).model unit) self.now.periods.count prices.now unit schedule.now result }
    {
        if schedule.len() != self.periods.count() {
            return Err(Cause::ScheduleLength.at(unit));
        }
        let account = check_schedule(&self.fleet, unit, prices, schedule)?;
        Ok(Counted {
            schedule,
            gain: account.gain,
        })
    }
}
