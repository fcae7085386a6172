// The calls that enter something: need, price, run and mix.
ghost use Rattle.std.specs.Prelude.{◌≡◌, length};
ghost use Rattle.fleet.specs.Gains.{BestGainLaw};
ghost use Rattle.settlement.specs.Ledger.{need, price, run, mix};
ghost use Rattle.settlement.specs.Reasons.{KeptAtDecline};
ghost use Rattle.settlement.specs.Follow.{GoesOn};
ghost use Rattle.settlement.specs.Calls.{Enters, WorkTable};
ghost use Rattle.settlement.specs.Laws.{CheckLaw};

use crate::docket::Docket;
use crate::stages::Call;
use fleet::{Fleet, Gain, best_gain};
use terms::{Cause, Decline, Entry};

impl<F: Fleet> Docket<F> {
    // The wanted lots of each period; blank becomes needed. Declined with 21, 22, 23.
    pub fn need(&mut self, wanted: &[i32]) -> Result<(), Decline>
        ensures goes { GoesOn F.Fleet.meaning self.old self.new (need wanted.now) (Enters (need wanted.now) result) }
        ensures fleet { self.new.fleet ≡ self.old.fleet }
        ensures kept { KeptAtDecline self.old self.new result }
    {
        self.sheet.enter(self.periods, Call::Need(wanted))
    }

    // The prices: a denominator and a numerator for each period; needed becomes priced. Declined with 21, 22, 23.
    pub fn price(&mut self, over: u32, numerators: &[i32]) -> Result<(), Decline>
        ensures goes { GoesOn F.Fleet.meaning self.old self.new (price over numerators.now) (Enters (price over numerators.now) result) }
        ensures fleet { self.new.fleet ≡ self.old.fleet }
        ensures kept { KeptAtDecline self.old self.new result }
    {
        self.sheet
            .enter(self.periods, Call::Price(over, numerators))
    }

    // A unit's schedule in the dispatch. Declined with 21, 24, 25, 26, 27, 30; 31 cannot come.
    #[tactic(auto, using(fleet::proofs::BestGains::best_gain_law, crate::proofs::Ledgers::check_law))]
    pub fn run(
        &mut self,
        unit: usize,
        schedule: &[Entry],
        table: &mut [Option<Gain>],
    ) -> Result<(), Decline>
        ensures goes { GoesOn F.Fleet.meaning self.old self.new (run unit schedule.now (length table.old)) (Enters (run unit schedule.now (length table.old)) result) }
        ensures fleet { self.new.fleet ≡ self.old.fleet }
        ensures kept { KeptAtDecline self.old self.new result }
        ensures table { WorkTable table.old table.new result }
        ensures best { BestGainLaw }
        ensures checks { CheckLaw }
    {
        let prices = self.unit_prices(Call::Run { unit, schedule })?;
        if self.sheet.standing(unit).is_some() {
            return Err(Cause::RunStands.at(unit));
        }
        let counted = self.account(unit, &prices, schedule)?;
        let best = best_gain(&self.fleet, unit, &prices, table)?;
        self.sheet.note_run(unit, counted, best);
        Ok(())
    }

    // A schedule of a unit in the evidence, with its weight. Declined with 21, 24, 26, 27, 28, 29.
    pub fn mix(&mut self, unit: usize, weight: u32, schedule: &[Entry]) -> Result<(), Decline>
        ensures goes { GoesOn F.Fleet.meaning self.old self.new (mix unit weight schedule.now) (Enters (mix unit weight schedule.now) result) }
        ensures fleet { self.new.fleet ≡ self.old.fleet }
        ensures kept { KeptAtDecline self.old self.new result }
    {
        let prices = self.unit_prices(Call::Mix {
            unit,
            weight,
            schedule,
        })?;
        let counted = self.account(unit, &prices, schedule)?;
        let standing = self
            .sheet
            .standing(unit)
            .ok_or(Cause::MixBeforeRun.at(unit))?;
        let left = self.weight.saturating_sub(standing.mixed);
        if !(1..=left).contains(&weight) {
            return Err(Cause::MixWeight.at(unit));
        }
        self.sheet.note_mix(unit, standing, weight, counted);
        Ok(())
    }
}
