// A whole list, from opening to verdict.
ghost use Rattle.std.specs.Prelude.{◌≡◌};
ghost use Rattle.settlement.specs.Calls.{open_fault};
ghost use Rattle.requests.specs.Requests.{held, left};
ghost use Rattle.requests.specs.Settling.{SettleAnswer};
ghost use Rattle.requests.specs.OneSettlement.{OneSettlementLaw};

use crate::desk::Desk;
use crate::making::make;
use crate::request::{Answer, Request};
use fleet::Fleet;
use settlement::{Docket, Judgement, Unopened};
use terms::Decline;

// The fleet, given back, and what the last judge answered, or why no docket was opened.
pub struct Closed<F> {
    pub fleet: F,
    pub judged: Result<Judgement, Decline>,
}

// Opens a fresh docket, makes every request in order, declined ones too, and judges.
pub fn settle<F: Fleet>(
    fleet: F,
    periods: usize,
    weight: u32,
    requests: &[Request],
    desk: Desk,
    answers: &mut [Option<Result<Answer, Decline>>],
) -> Closed<F>
    ensures answer { SettleAnswer (open_fault (F.Fleet.meaning fleet) periods weight) (F.Fleet.meaning fleet) periods weight requests.now (held desk.entry) (left desk.exit) answers.old answers.new result.judged }
    ensures fleet { result.fleet ≡ fleet }
    ensures one { OneSettlementLaw }
{
    let Desk {
        gains,
        fewer,
        more,
        schedule,
        pays,
    } = desk;
    let mut docket = match Docket::open(fleet, periods, weight) {
        Ok(docket) => docket,
        Err(Unopened { fleet, decline }) => return Closed {
            fleet,
            judged: Err(decline),
        },
    };
    for (at, request) in requests.iter().enumerate() {
        let lent = Desk {
            gains: &mut gains[..],
            fewer: &mut fewer[..],
            more: &mut more[..],
            schedule: &mut schedule[..],
            pays: &mut pays[..],
        };
        let answer = make(&mut docket, *request, lent);
        // By its place: no clause says what a slice holds after a write through `get_mut`.
        if at < answers.len() {
            answers[at] = Some(answer);
        }
    }
    let judged = docket.judge(pays);
    Closed {
        fleet: docket.close(),
        judged,
    }
}
