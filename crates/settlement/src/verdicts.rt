// What a judge answers.
ghost use Rattle.std.specs.Prelude.{Some};
ghost use Rattle.settlement.specs.Words.{word_of};

use std::fmt;

// LEAST: no price row has less uplift. WITHIN: none has less by more than the gap says.
#[derive(Clone, Copy, PartialEq, Eq, Debug)]
pub enum Verdict {
    Least,
    Within,
}

// As the pool has it printed.
impl fmt::Display for Verdict {
    ghost output = { λ v. Some (word_of v) };

    fn fmt<W: fmt::Write>(&self, f: &mut fmt::Formatter<W>) -> fmt::Result {
        f.write_str(match self {
            Verdict::Least => "least",
            Verdict::Within => "within",
        })
    }
}

// Uplift and gap in cents over the price row's denominator; the gap is weighted.
#[derive(Clone, Copy, PartialEq, Eq, Debug)]
pub struct Judgement {
    pub verdict: Verdict,
    pub uplift: i64,
    pub over: u32,
    pub gap: i64,
    pub weight: u32,
}
