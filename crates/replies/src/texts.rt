// The text of replies: each ends its line.
ghost use Rattle.std.specs.Prelude.{◌≡◌, take, Some};
ghost use Rattle.std.specs.Fmt.{WritesOnOk};
ghost use Rattle.replies.specs.Texts.{layer_text, entries_text, pays_text, verdict_text, reply_text};

use crate::reply::Reply;
use settlement::Judgement;
use std::fmt;
use terms::{Entry, Layer};

fn layer_word(layer: Layer) -> &'static str
    ensures { result.now ≡ layer_text layer }
{
    match layer {
        Layer::Reader => "reader",
        Layer::Fleet => "fleet",
        Layer::Docket => "docket",
    }
}

fn put_entries<W: fmt::Write>(entries: &[Entry], f: &mut fmt::Formatter<W>) -> fmt::Result
    ensures { WritesOnOk W.Write.write_str_gives f.old result (entries_text entries.now) f.new }
{
    for entry in entries {
        let Entry { state, output } = entry;
        write!(f, " ({state} {output})")?;
    }
    Ok(())
}

fn put_pays<W: fmt::Write>(pays: &[i64], f: &mut fmt::Formatter<W>) -> fmt::Result
    ensures { WritesOnOk W.Write.write_str_gives f.old result (pays_text 0 pays.now) f.new }
{
    for (unit, pay) in pays.iter().enumerate() {
        write!(f, "(pay {unit} {pay})\n")?;
    }
    Ok(())
}

fn put_verdict<W: fmt::Write>(judgement: Judgement, f: &mut fmt::Formatter<W>) -> fmt::Result
    ensures { WritesOnOk W.Write.write_str_gives f.old result (verdict_text judgement) f.new }
{
    let Judgement {
        verdict,
        uplift,
        over,
        gap,
        weight,
    } = judgement;
    write!(
        f,
        "(verdict {verdict} (uplift {uplift}) (over {over}) (gap {gap}) (weight {weight}))\n"
    )
}

impl fmt::Display for Reply {
    ghost output = { λ r. Some (reply_text r) };

    fn fmt<W: fmt::Write>(&self, f: &mut fmt::Formatter<W>) -> fmt::Result {
        match self {
            Reply::Nothing => Ok(()),
            Reply::No { decline, line } => {
                let layer = layer_word(decline.cause.layer());
                let number = decline.cause.number();
                let place = decline.place;
                write!(f, "(no {layer} {number} {line} {place})\n")
            }
            Reply::Supply {
                unit,
                best,
                least,
                most,
            } => write!(f, "(supply {unit} {best} {least} {most})\n"),
            Reply::Show { unit, schedule } => {
                write!(f, "(show {unit}")?;
                put_entries(schedule, f)?;
                f.write_str(")\n")
            }
            Reply::Verdict { pays, judgement } => {
                put_pays(pays, f)?;
                put_verdict(*judgement, f)
            }
        }
    }
}
