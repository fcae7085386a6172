// One request on a docket. Each call that lends has a function of its own. One that lends for all was tried: it returns a
// `&mut`, and the proof of its clause did not close; nor does one call borrow two fields of a desk.
ghost use Rattle.std.specs.Prelude.{◌≡◌, length};
ghost use Rattle.settlement.specs.Ledger.{run as ran, supply as supplies, show as shows, judge as judges};
ghost use Rattle.settlement.specs.Follow.{GoesOn};
ghost use Rattle.requests.specs.Requests.{held, left, lent, RunBy, SupplyBy, ShowBy, JudgeBy, called_by, RequestAnswered};
ghost use Rattle.requests.specs.Settling.{SameLengths};

use crate::desk::Desk;
use crate::request::{Answer, Request};
use fleet::{FewerLots, Fleet, Gain, MoreLots};
use settlement::Docket;
use terms::{Decline, Entry};

// A run, with so many slots of the table.
fn run<F: Fleet>(
    docket: &mut Docket<F>,
    unit: usize,
    schedule: &[Entry],
    slots: usize,
    table: &mut [Option<Gain>],
) -> Result<Answer, Decline>
    ensures goes { GoesOn F.Fleet.meaning docket.old docket.new (ran unit schedule.now (lent slots (length table.old))) (RunBy unit schedule.now (lent slots (length table.old)) table.old table.new result) }
    ensures fleet { docket.new.fleet ≡ docket.old.fleet }
{
    let slots = slots.min(table.len());
    docket
        .run(unit, schedule, &mut table[..slots])
        .map(|()| Answer::Entered)
}

// Supply, with so many slots of each table.
fn supply<F: Fleet>(
    docket: &Docket<F>,
    unit: usize,
    fewer: usize,
    more: usize,
    fewer_table: &mut [Option<FewerLots>],
    more_table: &mut [Option<MoreLots>],
) -> Result<Answer, Decline>
    ensures { GoesOn F.Fleet.meaning docket.now docket.now (supplies unit (lent fewer (length fewer_table.old)) (lent more (length more_table.old))) (SupplyBy unit (lent fewer (length fewer_table.old)) (lent more (length more_table.old)) fewer_table.old fewer_table.new more_table.old more_table.new result) }
{
    let fewer = fewer.min(fewer_table.len());
    let more = more.min(more_table.len());
    docket
        .supply(unit, &mut fewer_table[..fewer], &mut more_table[..more])
        .map(|(best, least, most)| Answer::Supplied(best, least, most))
}

// Show, with so many slots of the table and so much of the buffer.
fn show<F: Fleet>(
    docket: &Docket<F>,
    unit: usize,
    slots: usize,
    room: usize,
    table: &mut [Option<Gain>],
    buffer: &mut [Entry],
) -> Result<Answer, Decline>
    ensures { GoesOn F.Fleet.meaning docket.now docket.now (shows unit (lent slots (length table.old)) (lent room (length buffer.old))) (ShowBy unit (lent slots (length table.old)) (lent room (length buffer.old)) table.old table.new buffer.old buffer.new result) }
{
    let slots = slots.min(table.len());
    let room = room.min(buffer.len());
    docket
        .show(unit, &mut table[..slots], &mut buffer[..room])
        .map(|()| Answer::Shown)
}

// Judge, with so much of the pay buffer.
fn judge<F: Fleet>(docket: &Docket<F>, room: usize, pays: &mut [i64]) -> Result<Answer, Decline>
    ensures { GoesOn F.Fleet.meaning docket.now docket.now (judges (lent room (length pays.old))) (JudgeBy (lent room (length pays.old)) pays.old pays.new result) }
{
    let room = room.min(pays.len());
    docket.judge(&mut pays[..room]).map(Answer::Judged)
}

// Makes the request's call, with what it lends of the desk.
pub(crate) fn make<F: Fleet>(
    docket: &mut Docket<F>,
    request: Request,
    desk: Desk,
) -> Result<Answer, Decline>
    ensures goes { GoesOn F.Fleet.meaning docket.old docket.new (called_by (held desk.entry) request.entry) (RequestAnswered request.entry (held desk.entry) (left desk.exit) result) }
    ensures fleet { docket.new.fleet ≡ docket.old.fleet }
    ensures long { SameLengths (held desk.entry) (left desk.exit) }
{
    let Desk {
        gains,
        fewer: fewer_table,
        more: more_table,
        schedule: buffer,
        pays,
    } = desk;
    // A list of requests is data that a caller writes, so each is a case and no closure.
    match request {
        Request::Need(wanted) => docket.need(wanted).map(|()| Answer::Entered),
        Request::Price(over, numerators) => docket
            .price(over, numerators)
            .map(|()| Answer::Entered),
        Request::Run {
            unit,
            schedule,
            slots,
        } => run(docket, unit, schedule, slots, gains),
        Request::Mix {
            unit,
            weight,
            schedule,
        } => docket.mix(unit, weight, schedule).map(|()| Answer::Entered),
        Request::Supply { unit, fewer, more } => {
            supply(docket, unit, fewer, more, fewer_table, more_table)
        }
        Request::Show { unit, slots, room } => show(docket, unit, slots, room, gains, buffer),
        Request::Judge { room } => judge(docket, room, pays),
    }
}
