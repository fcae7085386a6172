// A whole line of a day file.
ghost use Rattle.std.specs.Prelude.{◌≡◌};
ghost use Rattle.words.specs.Answers.{answer_by};
ghost use Rattle.words.specs.Seen.{state_of};
ghost use Rattle.words.specs.WordLaws.{BytesLaw, NumeralLaw, WordsLaw};
ghost use Rattle.reader.specs.Forms.{read_form, read_any, line_of, told_of, line_told};
ghost use Rattle.reader.specs.LineDeclines.{DeclinesExactly};
ghost use Rattle.reader.specs.LineLaws.{ReadsExactly, ToldLaw};

use crate::day_forms::{
    read_day, read_judge, read_mix, read_need, read_out, read_price, read_run, read_show,
    read_supply,
};
use crate::form::Form;
use crate::names::{FormName, read_name};
use crate::offer_forms::{read_buyer, read_lake, read_ramp, read_steam};
use terms::Decline;
use words::{Words, check_bytes};

// The form of this name, after its name.
fn read_form(name: FormName, words: &mut Words) -> Result<Form, Decline>
    ensures { answer_by line_of result words.new ≡ read_form name (state_of words.old) }
{
    match name {
        FormName::Day => read_day(words),
        FormName::Steam => read_steam(words),
        FormName::Ramp => read_ramp(words),
        FormName::Lake => read_lake(words),
        FormName::Buyer => read_buyer(words),
        FormName::Out => read_out(words),
        FormName::Need => read_need(words),
        FormName::Price => read_price(words),
        FormName::Run => read_run(words),
        FormName::Mix => read_mix(words),
        FormName::Supply => read_supply(words),
        FormName::Show => read_show(words),
        FormName::Judge => read_judge(words),
    }
}

fn read_any(words: &mut Words) -> Result<Form, Decline>
    ensures { answer_by line_of result words.new ≡ read_any (state_of words.old) }
{
    words.expect(b"(")?;
    let name = read_name(words)?;
    read_form(name, words)
}

// What a line says, and nothing where it is blank. Declined with 2, then 3, then with 4 to 7 at the first word that does
// not fit, and last with 8. A line is read to a form exactly when its words are the words of that form with every numeral
// in range and numbers that agree, and it is declined with each number exactly where its bytes and words say so. What is
// told so leaves nothing of the answer open. The last three clauses say what the words of a line are, which bytes are
// what, and which words are numerals.
#[tactic(auto, using(crate::proofs::OneReading::told_law, words::proofs::WordLaws::words_law, words::proofs::Bytes::bytes_law, words::proofs::Decimals::numeral_law))]
pub fn read_line(line: &[u8]) -> Result<Option<Form>, Decline>
    ensures answer { told_of result ≡ line_told line.now }
    ensures law { ReadsExactly line.now result }
    ensures declines { DeclinesExactly line.now result }
    ensures told { ToldLaw }
    ensures words { WordsLaw }
    ensures bytes { BytesLaw }
    ensures numerals { NumeralLaw }
{
    check_bytes(line)?;
    let mut words = Words::new(line);
    if words.is_empty() {
        return Ok(None);
    }
    let form = read_any(&mut words)?;
    Ok(Some(form))
}
