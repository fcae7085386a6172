// The forms of a day before its docket is open.
ghost use Rattle.std.specs.Prelude.{◌≡◌};
ghost use Rattle.day.specs.Answering.{enters};
ghost use Rattle.day.specs.Going.{BegunGoes, NeedGoes};

use crate::known::Known;
use crate::session::{BegunDay, OpenDay, Session};
use fleet::Fleet;
use fleet_kinds::Outage;
use reader::Form;
use settlement::{Docket, Unopened};
use terms::{Cause, Decline};

// The first need opens the docket, unless that is declined, and is its first call.
fn open(day: BegunDay, wanted: &[i32]) -> (Session, Result<(), Decline>)
    ensures { NeedGoes day wanted.now result.0 result.1 }
{
    let BegunDay {
        periods,
        weight,
        fleet,
    } = day;
    let units = fleet.units();
    match Docket::open(fleet, periods, weight) {
        Ok(mut docket) => {
            let answer = docket.need(wanted);
            let day = OpenDay {
                periods,
                units,
                docket,
                known: Known::new(),
            };
            (Session::Open(day), answer)
        }
        Err(Unopened { fleet, decline }) => {
            let day = BegunDay {
                periods,
                weight,
                fleet,
            };
            (Session::Begun(day), Err(decline))
        }
    }
}

// One form more: an offer, an outage or the need that opens the docket; any other is out of place.
pub(crate) fn answer(mut day: BegunDay, form: Form) -> (Session, Result<(), Decline>)
    ensures { BegunGoes day form result.0 result.1 }
{
    match form {
        Form::Offer(offer) => {
            let added = day.fleet.fleet_mut().add(offer);
            let answer = if added {
                Ok(())
            } else {
                Err(Cause::TooManyOffers.at(1))
            };
            (Session::Begun(day), answer)
        }
        Form::Out { unit, first, last } => {
            let answer = day.fleet.add(Outage { unit, first, last });
            (Session::Begun(day), answer)
        }
        Form::Need { wanted } => open(day, &wanted),
        _ => (Session::Begun(day), Err(Cause::FormOutOfPlace.at(1))),
    }
}
