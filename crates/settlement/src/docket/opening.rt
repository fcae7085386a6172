// Opening and closing a docket.
ghost use Rattle.std.specs.Prelude.{◌≡◌};
ghost use Rattle.settlement.specs.Laws.{LedgerLaw};
ghost use Rattle.settlement.specs.Entering.{FitsLaw, HeldLaw, DeclinedLaw, EntersLaw, TakenLaw};
ghost use Rattle.settlement.specs.Reasons.{OneFaultLaw, Never31Law};
ghost use Rattle.settlement.specs.OneAnswers.{OneAnswerLaw};
ghost use Rattle.settlement.specs.Calls.{Opened, OpenLaw};

use crate::docket::{Docket, Unopened};
use crate::sheet::Sheet;
use fleet::{Fleet, Periods};
use terms::Cause;

impl<F: Fleet> Docket<F> {
    // A docket over a fleet, at stage blank. Declined with 11 over no unit, then 12 where the periods are not 1 to 48 or
    // the weight not 1 to 1,000; the fleet is then given back. Periods and weight come one by one, as a day names them:
    // no value holds both before they are checked. A docket's list of calls begins here, so the laws of every list stand
    // here too: those of the plain ledger and of all declines.
    #[tactic(auto, using(crate::proofs::Opens::open_law, crate::proofs::Fits::fits_law, crate::proofs::Fits::held_law, crate::proofs::Fits::declined_law, crate::proofs::Fits::enters_law, crate::proofs::Taken::taken_law, crate::proofs::Ledgers::ledger_law, crate::proofs::OneFault::one_fault, crate::proofs::OneAnswer::one_answer, crate::proofs::Never::never_31))]
    pub fn open(fleet: F, periods: usize, weight: u32) -> Result<Docket<F>, Unopened<F>>
        ensures opened { Opened F.Fleet.meaning fleet periods weight result }
        ensures opens { OpenLaw }
        ensures fits { FitsLaw }
        ensures held { HeldLaw }
        ensures declined { DeclinedLaw }
        ensures enters { EntersLaw }
        ensures taken { TakenLaw }
        ensures ledger { LedgerLaw }
        ensures one { OneFaultLaw }
        ensures answer { OneAnswerLaw }
        ensures never { Never31Law }
    {
        if fleet.units() == 0 {
            return Err(Unopened {
                fleet,
                decline: Cause::NoUnits.at(0),
            });
        }
        let Some(periods) = Periods::new(periods) else {
            return Err(Unopened {
                fleet,
                decline: Cause::PeriodsOrWeight.at(0),
            });
        };
        if !(1..=1000).contains(&weight) {
            return Err(Unopened {
                fleet,
                decline: Cause::PeriodsOrWeight.at(0),
            });
        }
        Ok(Docket {
            fleet,
            periods,
            weight,
            sheet: Sheet::blank(),
        })
    }

    // Gives the fleet back.
    pub fn close(self) -> F
        ensures { result ≡ self.fleet }
    {
        self.fleet
    }
}
