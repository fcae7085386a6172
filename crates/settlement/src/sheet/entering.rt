// The stage, which takes each call, and what stands of a unit.
ghost use Rattle.std.specs.Prelude.{◌≡◌, ◌<◌, None, slice_index_or};
ghost use Rattle.settlement.specs.Reasons.{KeptAtDecline};
ghost use Rattle.settlement.specs.Stages.{call_place, AsksRows};
ghost use Rattle.settlement.specs.Sheets.{BlankSheet, CallEntered, SameSums, RowsAt};

use crate::sheet::Sheet;
use crate::stages::{Call, Rows, Stage};
use crate::standing::Standing;
use fleet::Periods;
use terms::Decline;

impl Sheet {
    // A sheet with nothing on it.
    pub(crate) fn blank() -> Sheet
        ensures { BlankSheet result }
    {
        Sheet {
            stage: Stage::Blank,
            units: [None; 64],
            runs: [0; 48],
            mixes: [0; 48],
            gap: 0,
        }
    }

    // The stage takes a call and may move: at need and price, which enter a row. The sums stay.
    pub(crate) fn enter(&mut self, periods: Periods, call: Call) -> Result<(), Decline>
        ensures entered { CallEntered periods.count self.old.stage call.entry self.new.stage result }
        ensures sums { SameSums self.old self.new }
        ensures kept { KeptAtDecline self.old self.new result }
    {
        self.stage.take(periods, call)?;
        Ok(())
    }

    // The rows, for a call that asks for them: taken on a copy of the stage, which none of these calls moves.
    #[inline(always)]
    pub(crate) fn rows(&self, periods: Periods, call: Call) -> Result<Rows, Decline>
        requires { AsksRows call }
        ensures { RowsAt self.now.stage (call_place call.entry) result }
    {
        let mut stage = self.stage;
        let Some(rows) = stage.take(periods, call)? else {
            unreachable()
        };
        Ok(rows)
    }

    // The gap so far.
    pub(crate) fn gap(&self) -> i64
        ensures { result ≡ self.now.gap }
    {
        self.gap
    }

    // What stands of a unit, nothing before its run.
    pub(crate) fn standing(&self, unit: usize) -> Option<Standing>
        ensures { result ≡ slice_index_or self.now.units unit None }
    {
        self.units.get(unit).copied().flatten()
    }
}
