// The stages of a docket, and the calls that each takes.
ghost use Rattle.std.specs.Prelude.{◌≡◌};
ghost use Rattle.settlement.specs.Stages.{call_place, StageTakes};

use fleet::{NeedRow, Periods, PriceRow};
use terms::{Cause, Decline, Entry};

// The rows that a day is settled by.
#[derive(Clone, Copy, PartialEq, Eq, Debug)]
pub struct Rows {
    pub needs: NeedRow,
    pub prices: PriceRow,
}

// Each stage holds what its calls work with.
#[derive(Clone, Copy, PartialEq, Eq, Debug)]
pub enum Stage {
    Blank,
    Needed(NeedRow),
    Priced(Rows),
}

// The seven calls, with what each is given. The tables and buffers that a call writes are lent beside it.
#[derive(Clone, Copy, PartialEq, Eq, Debug)]
pub enum Call<'a> {
    Need(&'a [i32]),
    Price(u32, &'a [i32]),
    Run {
        unit: usize,
        schedule: &'a [Entry],
    },
    Mix {
        unit: usize,
        weight: u32,
        schedule: &'a [Entry],
    },
    Supply {
        unit: usize,
    },
    Show {
        unit: usize,
    },
    Judge,
}

impl<'a> Call<'a> {
    // Where a call is declined that its stage does not take.
    pub(crate) fn place(self) -> usize
        ensures { result ≡ call_place self.entry }
    {
        match self {
            Call::Run { unit, .. }
            | Call::Mix { unit, .. }
            | Call::Supply { unit }
            | Call::Show { unit } => unit,
            Call::Need(..) | Call::Price(..) | Call::Judge => 0,
        }
    }
}

impl Stage {
    // Each stage takes only its own calls: need at blank and price at needed enter their row and move it, the others are
    // given the rows at priced. Declined with 21 at the call's place, then as the row is. Inlined, so
    // that asking for the rows copies no stage.
    #[inline(always)]
    pub(crate) fn take(&mut self, periods: Periods, call: Call) -> Result<Option<Rows>, Decline>
        ensures { StageTakes periods.count self.old call.entry self.new result }
    {
        match (&mut *self, call) {
            (Stage::Blank, Call::Need(wanted)) => {
                *self = Stage::Needed(NeedRow::new(periods, wanted)?);
                Ok(None)
            }
            (Stage::Needed(needs), Call::Price(over, numerators)) => {
                let prices = PriceRow::new(periods, over, numerators)?;
                *self = Stage::Priced(Rows {
                    needs: *needs,
                    prices,
                });
                Ok(None)
            }
            (
                Stage::Priced(rows),
                Call::Run { .. }
                | Call::Mix { .. }
                | Call::Supply { .. }
                | Call::Show { .. }
                | Call::Judge,
            ) => Ok(Some(*rows)),
            (_, call) => Err(Cause::WrongStage.at(call.place())),
        }
    }
}
