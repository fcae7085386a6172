// The forms of a day whose docket is open.
ghost use Rattle.std.specs.Prelude.{◌≡◌, ◌≤◌, length, take};
ghost use Rattle.settlement.specs.Ledger.{supply, show, judge};
ghost use Rattle.settlement.specs.Follow.{GoesOn};
ghost use Rattle.day.specs.Holding.{mean};
ghost use Rattle.day.specs.Lasting.{ShowIs, ShownSo};
ghost use Rattle.day.specs.Answering.{enters, supplies, SupplyReplied, ShowReplied, JudgeReplied};
ghost use Rattle.day.specs.Going.{DocketGoes, AsksGoes};

use crate::known::KnownShow;
use crate::session::OpenDay;
use crate::tables::Tables;
use arrayvec::ArrayVec;
use fleet_kinds::Outages;
use offers::Book;
use reader::Form;
use replies::Reply;
use settlement::Docket;
use terms::{Cause, Decline, Entry};

// Nothing, or why a call is declined.
pub(crate) fn entered(line: usize, answer: Result<(), Decline>) -> Reply
    ensures { result ≡ enters line answer }
{
    match answer {
        Ok(()) => Reply::Nothing,
        Err(decline) => Reply::No { decline, line },
    }
}

fn supplied(unit: usize, line: usize, answer: Result<(i64, i64, i64), Decline>) -> Reply
    ensures { result ≡ supplies unit line answer }
{
    match answer {
        Ok((best, least, most)) => Reply::Supply {
            unit,
            best,
            least,
            most,
        },
        Err(decline) => Reply::No { decline, line },
    }
}

// What is known of the unit, or what the docket answers.
fn supply(day: &mut OpenDay, unit: usize, line: usize, tables: &mut Tables) -> Reply
    ensures { AsksGoes day.old day.new (supply unit 3920 3920) (SupplyReplied unit line result) }
{
    if let Some(answer) = day.known.supply(unit) {
        return supplied(unit, line, answer);
    }
    let answer = day.docket.supply(unit, &mut tables.fewer, &mut tables.more);
    day.known.keep_supply(unit, answer);
    supplied(unit, line, answer)
}

// The first of some items, as many as there are.
fn first_of<T: Copy + Default, const N: usize>(items: &[T], count: usize) -> ArrayVec<T, N>
    requires { length items.now ≤ N }
    ensures { result.items ≡ take count items.now }
{
    let mut first = ArrayVec::new();
    let _ = first.try_extend_from_slice(&items[..count.min(items.len())]);
    first
}

// The whole buffer that the docket's show writes.
fn searched(docket: &Docket<Outages<Book>>, unit: usize, tables: &mut Tables) -> KnownShow
    ensures { GoesOn mean docket.now docket.now (show unit 3920 48) (ShowIs unit result) }
{
    let mut schedule = [Entry::default(); 48];
    match docket.show(unit, &mut tables.gains, &mut schedule) {
        Ok(()) => Ok(schedule),
        Err(decline) => Err(decline),
    }
}

fn shown(unit: usize, line: usize, periods: usize, answer: KnownShow) -> Reply
    ensures { ShownSo unit periods line answer result }
{
    match answer {
        Ok(schedule) => Reply::Show {
            unit,
            schedule: first_of(&schedule, periods),
        },
        Err(decline) => Reply::No { decline, line },
    }
}

fn show(day: &mut OpenDay, unit: usize, line: usize, tables: &mut Tables) -> Reply
    ensures { AsksGoes day.old day.new (show unit 3920 48) (ShowReplied unit line result) }
{
    if let Some(answer) = day.known.show(unit) {
        return shown(unit, line, day.periods, answer);
    }
    let answer = searched(&day.docket, unit, tables);
    day.known.keep_show(unit, answer);
    shown(unit, line, day.periods, answer)
}

fn judge(day: &OpenDay, line: usize) -> Reply
    ensures { AsksGoes day.now day.now (judge 64) (JudgeReplied line result) }
{
    let mut pays = [0; 64];
    match day.docket.judge(&mut pays) {
        Ok(judgement) => Reply::Verdict {
            pays: first_of(&pays, day.units),
            judgement,
        },
        Err(decline) => Reply::No { decline, line },
    }
}

// One form more: a call of the docket; any other is out of place.
pub(crate) fn answer(day: &mut OpenDay, form: &Form, line: usize, tables: &mut Tables) -> Reply
    ensures { DocketGoes day.old day.new form.now line result }
{
    let docket = &mut day.docket;
    match form {
        Form::Need { wanted } => entered(line, docket.need(wanted)),
        Form::Price { over, numerators } => entered(line, docket.price(*over, numerators)),
        Form::Run { unit, schedule } => {
            entered(line, docket.run(*unit, schedule, &mut tables.gains))
        }
        Form::Mix {
            unit,
            weight,
            schedule,
        } => entered(line, docket.mix(*unit, *weight, schedule)),
        Form::Supply { unit } => supply(day, *unit, line, tables),
        Form::Show { unit } => show(day, *unit, line, tables),
        Form::Judge => judge(day, line),
        _ => Reply::No {
            decline: Cause::FormOutOfPlace.at(1),
            line,
        },
    }
}
