// Ramp units: outputs that move by steps.
ghost use Rattle.std.specs.Prelude.{◌≡◌, true, false, ◌&&◌, MatchOption};
ghost use Rattle.reader.specs.Offers.{fair_run, narrow, fair_rate, fair_money, fair_output, fills, fair_ramp};

use crate::checks::is_money;
use crate::numbers::RampNumbers;

#[derive(Clone, Copy, PartialEq, Eq, Debug)]
pub struct Ramp {
    pub numbers: RampNumbers,
    ghost run: { fair_run numbers.run ≡ true },
    ghost narrow: { narrow numbers.run ≡ true },
    ghost rate: { fair_rate numbers.rate numbers.run ≡ true },
    ghost start: { fair_money numbers.start ≡ true },
    ghost idle: { fair_money numbers.idle ≡ true },
    ghost was: { fair_output numbers.was numbers.run ≡ true },
    ghost steps: { fills numbers.steps numbers.run ≡ true },
}

impl Ramp {
    // The offer, unless a number is out of range or two disagree.
    pub fn new(numbers: RampNumbers) -> Option<Ramp>
        ensures { MatchOption result (fair_ramp numbers ≡ false) (λ made. (fair_ramp numbers ≡ true) × (made.numbers ≡ numbers)) }
    {
        let RampNumbers {
            run,
            rate,
            start,
            idle,
            steps,
            was,
        } = numbers;
        if run.is_fair()
            && run.is_narrow()
            && rate.is_fair(run)
            && is_money(start)
            && is_money(idle)
            && run.has(was)
            && steps.lots() == run.hi
        {
            Some(Ramp { numbers })
        } else {
            None
        }
    }
}
