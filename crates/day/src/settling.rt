// A whole file.
ghost use Rattle.std.specs.Prelude.{IfOk, string_bytes};
ghost use Rattle.day.specs.Cutting.{LinesLaw};
ghost use Rattle.day.specs.Settling.{Settled, OneTextLaw};
ghost use Rattle.day.specs.Verdicts.{VerdictLaw};
ghost use Rattle.day.specs.Runs.{SessionLaw};
ghost use Rattle.day.specs.EachLine.{EachLineLaw};

use crate::cutting::cut;
use crate::lining::answer;
use crate::session::Session;
use crate::tables::Tables;
use replies::Reply;
use std::alloc::{AllocError, Global};
use terms::Cause;

// The longest file that is read.
pub(crate) const LONGEST: usize = 65_536;

// The one text that a file is answered with, each line by its reply, after what the forms above it say as a whole, and
// every verdict in it binds every price row. The error is the allocator's, for want of memory for the text. Over 65,536
// bytes it is declined with 1, and nothing else is read.
#[tactic(auto, using(crate::proofs::Verdicts::verdict_law, crate::proofs::OneText::one_text, crate::proofs::LineLaws::lines_law, crate::proofs::Runs::session_law, crate::proofs::EachLine::each_line_law))]
pub fn settle(alloc: Global, file: &[u8]) -> Result<String, AllocError>
    ensures text { IfOk result (λ text. Settled file.now (string_bytes text)) }
    ensures one { OneTextLaw }
    ensures lines { LinesLaw }
    ensures verdicts { VerdictLaw }
    ensures session { SessionLaw }
    ensures each { EachLineLaw }
{
    if file.len() > LONGEST {
        let decline = Cause::FileTooLong.at(1);
        return format!(in alloc; "{}", Reply::No { decline, line: 1 });
    }
    let mut tables = Tables::new();
    let mut session = Session::Before;
    let mut text = String::new(alloc);
    let mut rest = file;
    let mut line = 1;
    while !rest.is_empty() {
        let (bytes, after) = cut(rest);
        let (next, reply) = answer(session, bytes, line, &mut tables);
        let said = format!(in alloc; "{reply}")?;
        text.push_str(&said)?;
        session = next;
        rest = after;
        line += 1;
    }
    Ok(text)
}
