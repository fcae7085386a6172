// One line of a file.
ghost use Rattle.day.specs.Said.{nothing, after_nothing};
ghost use Rattle.day.specs.Holding.{Holds};
ghost use Rattle.day.specs.Answering.{FirstReply};
ghost use Rattle.day.specs.Going.{FormGoes, LineGoes};

use crate::open::entered;
use crate::session::{BegunDay, Session};
use crate::tables::Tables;
use crate::{begun, open};
use fleet_kinds::Outages;
use offers::Book;
use reader::{Form, read_line};
use replies::Reply;
use terms::Cause;

// The first form has to begin the day.
fn first(form: Form, line: usize) -> (Session, Reply)
    ensures { FirstReply form line result.1 × Holds result.0 (after_nothing form) }
{
    match form {
        Form::Day { periods, weight } => {
            let day = BegunDay {
                periods,
                weight,
                fleet: Outages::new(Book::new()),
            };
            (Session::Begun(day), Reply::Nothing)
        }
        _ => {
            let decline = Cause::FormOutOfPlace.at(1);
            (Session::Before, Reply::No { decline, line })
        }
    }
}

// A form, after what the file has said.
fn form_reply(session: Session, form: Form, line: usize, tables: &mut Tables) -> (Session, Reply)
    ensures { FormGoes session form line result.0 result.1 }
{
    match session {
        Session::Before => first(form, line),
        Session::Begun(day) => {
            let (session, answer) = begun::answer(day, form);
            (session, entered(line, answer))
        }
        Session::Open(mut day) => {
            let reply = open::answer(&mut day, &form, line, tables);
            (Session::Open(day), reply)
        }
    }
}

// A line of this number. A blank line and a declined one say nothing.
pub(crate) fn answer(
    session: Session,
    bytes: &[u8],
    line: usize,
    tables: &mut Tables,
) -> (Session, Reply)
    ensures { LineGoes session bytes.now line result.0 result.1 }
{
    match read_line(bytes) {
        Ok(None) => (session, Reply::Nothing),
        Ok(Some(form)) => form_reply(session, form, line, tables),
        Err(decline) => (session, Reply::No { decline, line }),
    }
}
