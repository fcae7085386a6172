// Drawn numbers, the same in each run, and offers of them.
ghost use Rattle.std.specs.Prelude.{◌<◌, max};

use reader::{
    Buyer, Flow, Lake, LakeNumbers, Offer, Ramp, RampNumbers, Rate, Rest, Run, StartCosts, Steam,
    SteamNumbers, Step, Steps, Was,
};

#[derive(Drop)]
pub(crate) struct Draws {
    pub(crate) seed: u32,
}

impl Draws {
    // A number below n.
    fn below(&mut self, n: u32) -> u32
        ensures { result < max n 1 }
    {
        self.seed = self
            .seed
            .wrapping_mul(1_664_525)
            .wrapping_add(1_013_904_223);
        (self.seed >> 16) % n.max(1)
    }

    fn between(&mut self, least: u32, most: u32) -> u32 {
        let past = most.saturating_add(1);
        least.saturating_add(self.below(past.saturating_sub(least)))
    }

    pub(crate) fn periods(&mut self, least: u32, most: u32) -> usize {
        self.between(least, most) as usize
    }

    // One or two lots at one of eight prices from the lowest on. The cast narrows a number that `below` has just bounded.
    fn step(&mut self, lowest: i8) -> Step {
        Step {
            lots: self.between(1, 2),
            price: i32::from(lowest) + self.below(8) as i32,
        }
    }

    // One to three steps.
    fn steps(&mut self, lowest: i8) -> Option<Steps> {
        let places = [self.step(lowest), self.step(lowest), self.step(lowest)];
        let count = self.periods(1, 3);
        Steps::new(places.get(..count)?)
    }

    fn run(&mut self, steps: &Steps) -> Run {
        let hi = steps.lots();
        Run {
            lo: self.between(1, hi),
            hi,
        }
    }

    fn was(&mut self) -> Was {
        let periods = self.periods(1, 4);
        if self.below(2) == 0 {
            Was::On(periods)
        } else {
            Was::Off(periods)
        }
    }

    pub(crate) fn steam(&mut self) -> Option<Offer> {
        let steps = self.steps(-3)?;
        let cold = self.between(1, 3);
        let numbers = SteamNumbers {
            run: self.run(&steps),
            rest: Rest {
                up: self.periods(1, 3),
                down: self.periods(1, cold),
                cold: cold as usize,
            },
            start: StartCosts {
                hot: self.between(0, 9),
                frost: self.between(0, 9),
            },
            idle: self.between(0, 3),
            steps,
            was: self.was(),
        };
        Steam::new(numbers).map(Offer::Steam)
    }

    pub(crate) fn ramp(&mut self) -> Option<Offer> {
        let steps = self.steps(-3)?;
        let run = self.run(&steps);
        let rate = Rate {
            step: self.between(1, 3),
            edge: self.between(run.lo, run.hi),
        };
        let was = if self.below(3) == 0 {
            0
        } else {
            self.between(run.lo, run.hi)
        };
        let numbers = RampNumbers {
            run,
            rate,
            start: self.between(0, 9),
            idle: self.between(0, 3),
            steps,
            was,
        };
        Ramp::new(numbers).map(Offer::Ramp)
    }

    pub(crate) fn lake(&mut self) -> Option<Offer> {
        let full = self.between(1, 5);
        let numbers = LakeNumbers {
            full: full as usize,
            flow: Flow {
                fall: self.periods(0, 4),
                rise: self.periods(0, 5),
            },
            wear: self.between(0, 3),
            was: self.periods(0, full),
            end: self.periods(0, full),
        };
        Lake::new(numbers).map(Offer::Lake)
    }

    pub(crate) fn buyer(&mut self) -> Option<Offer> {
        let steps = self.steps(0)?;
        Buyer::new(steps).map(Offer::Buyer)
    }
}
