// Lakes: a level that falls and rises.
ghost use Rattle.std.specs.Prelude.{◌≡◌, true, false, MatchOption};
ghost use Rattle.reader.specs.Offers.{fair_lake, still_water};

use crate::numbers::{Flow, LakeNumbers};

#[derive(Clone, Copy, PartialEq, Eq, Debug)]
pub struct Lake {
    pub numbers: LakeNumbers,
    ghost fair: { fair_lake numbers ≡ true },
}

fn is_fair(numbers: &LakeNumbers) -> bool
    ensures { result ≡ fair_lake numbers.now }
{
    let LakeNumbers {
        full,
        flow,
        wear,
        was,
        end,
    } = *numbers;
    ((1..=79).contains(&full) && flow.fall <= 79 && flow.rise <= 79)
        && (wear <= 100_000 && was <= full && end <= full)
}

impl Lake {
    // The offer, unless a number is out of range or two disagree.
    pub fn new(numbers: LakeNumbers) -> Option<Lake>
        ensures { MatchOption result (fair_lake numbers ≡ false) (λ made. (fair_lake numbers ≡ true) × (made.numbers ≡ numbers)) }
    {
        if is_fair(&numbers) {
            Some(Lake { numbers })
        } else {
            None
        }
    }
}

// A lake that never moves.
impl Default for Lake {
    ghost is_default = { λ lake. lake.numbers ≡ still_water };

    fn default() -> Lake {
        Lake {
            numbers: LakeNumbers {
                full: 1,
                flow: Flow { fall: 0, rise: 0 },
                wear: 0,
                was: 0,
                end: 0,
            },
        }
    }
}
