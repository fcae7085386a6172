// The calls that ask and alter nothing: supply, show and judge.
ghost use Rattle.std.specs.Prelude.{length};
ghost use Rattle.settlement.specs.Ledger.{supply, show, judge};
ghost use Rattle.settlement.specs.Reasons.{KeptAtDecline};
ghost use Rattle.settlement.specs.Follow.{GoesOn};
ghost use Rattle.settlement.specs.Calls.{Supplies, Shows, WorkTable, VerdictGiven};
ghost use Rattle.settlement.specs.Verdicts.{Judges};

use crate::docket::Docket;
use crate::sheet::weighing::verdict_of;
use crate::stages::{Call, Rows};
use crate::verdicts::Judgement;
use fleet::{FewerLots, Fleet, Gain, MoreLots, first_best};
use terms::{Cause, Decline, Entry};

impl<F: Fleet> Docket<F> {
    // A unit's best gain, with the fewest and the most lots among its schedules of that gain. Declined with 21, 24, 30,
    // 32; 31 cannot come.
    pub fn supply(
        &self,
        unit: usize,
        fewer: &mut [Option<FewerLots>],
        more: &mut [Option<MoreLots>],
    ) -> Result<(i64, i64, i64), Decline>
        ensures goes { GoesOn F.Fleet.meaning self.now self.now (supply unit (length fewer.old) (length more.old)) (Supplies unit (length fewer.old) (length more.old) result) }
        ensures fewer { WorkTable fewer.old fewer.new result }
        ensures more { WorkTable more.old more.new result }
    {
        let prices = self.unit_prices(Call::Supply { unit })?;
        fleet::supply(&self.fleet, unit, &prices, fewer, more)
    }

    // Writes a unit's best schedule that comes first in reading order; past the day the buffer is as it was. Declined
    // with 21, 24, 30, 32; 31 cannot come.
    pub fn show(
        &self,
        unit: usize,
        table: &mut [Option<Gain>],
        out: &mut [Entry],
    ) -> Result<(), Decline>
        ensures goes { GoesOn F.Fleet.meaning self.now self.now (show unit (length table.old) (length out.old)) (Shows unit (length table.old) out.old out.new result) }
        ensures kept { KeptAtDecline out.old out.new result }
        ensures table { WorkTable table.old table.new result }
    {
        let prices = self.unit_prices(Call::Show { unit })?;
        first_best(&self.fleet, unit, &prices, table, out)
    }

    // The verdict, with no pay written. Declined with 41, 42, 43, 44; 31 cannot come.
    fn verdict(&self, rows: &Rows) -> Result<Judgement, Decline>
        ensures { VerdictGiven (F.Fleet.meaning self.now.fleet) self.now rows.now result }
    {
        let units = self.fleet.units();
        let uplift = self
            .sheet
            .weigh(&rows.needs, units, self.periods, self.weight)?;
        let gap = self.sheet.gap();
        Ok(Judgement {
            verdict: verdict_of(gap),
            uplift,
            over: rows.prices.over(),
            gap,
            weight: self.weight,
        })
    }

    // Writes each unit's pay, past the units nothing, and answers uplift, gap and verdict. Declined with 21, 30, 41, 42,
    // 43, 44; 31 cannot come.
    pub fn judge(&self, pays: &mut [i64]) -> Result<Judgement, Decline>
        ensures goes { GoesOn F.Fleet.meaning self.now self.now (judge (length pays.old)) (λ m T W l. Judges m T W l pays.old pays.new result) }
        ensures kept { KeptAtDecline pays.old pays.new result }
    {
        let rows = self.sheet.rows(self.periods, Call::Judge)?;
        let units = self.fleet.units();
        if pays.len() < units {
            return Err(Cause::TooLittleRoom.at(0));
        }
        let judgement = self.verdict(&rows)?;
        self.sheet.write_pays(units, pays);
        Ok(judgement)
    }
}
