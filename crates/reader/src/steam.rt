// Steam units: minimum times, and starts that cost by the time off.
ghost use Rattle.std.specs.Prelude.{◌≡◌, true, false, MatchOption};
ghost use Rattle.reader.specs.Offers.{fair_run, fair_times, fair_costs, fair_was, fills, fair_steam};

use crate::numbers::SteamNumbers;

#[derive(Clone, Copy, PartialEq, Eq, Debug)]
pub struct Steam {
    pub numbers: SteamNumbers,
    ghost run: { fair_run numbers.run ≡ true },
    ghost times: { fair_times numbers.rest ≡ true },
    ghost costs: { fair_costs numbers.start numbers.idle ≡ true },
    ghost was: { fair_was numbers.was ≡ true },
    ghost steps: { fills numbers.steps numbers.run ≡ true },
}

impl Steam {
    // The offer, unless a number is out of range or two disagree.
    pub fn new(numbers: SteamNumbers) -> Option<Steam>
        ensures { MatchOption result (fair_steam numbers ≡ false) (λ made. (fair_steam numbers ≡ true) × (made.numbers ≡ numbers)) }
    {
        let SteamNumbers {
            run,
            rest,
            start,
            idle,
            steps,
            was,
        } = numbers;
        if run.is_fair()
            && rest.is_fair()
            && start.is_fair(idle)
            && was.is_fair()
            && steps.lots() == run.hi
        {
            Some(Steam { numbers })
        } else {
            None
        }
    }
}
