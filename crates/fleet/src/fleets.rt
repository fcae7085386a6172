// The interface of a fleet.
ghost use Rattle.std.specs.Prelude.{◌≡◌};
ghost use Rattle.fleet.specs.Units.{Meaning, Sound};

use crate::records::Range;

// A fleet is known by its answers alone, which are a fixed value, its meaning. Units, periods and states count from 0.
pub trait Fleet {
    ghost meaning: { Self → Meaning };

    // The number of units, at most 64.
    fn units(&self) -> usize
        ensures { result ≡ (meaning self.now).units };

    // The number of the unit's states, 1 to 80.
    fn states(&self, unit: usize) -> usize
        ensures { result ≡ ((meaning self.now).model unit).states };

    // The state before the first period.
    fn start(&self, unit: usize) -> usize
        ensures { result ≡ ((meaning self.now).model unit).start };

    // Whether the unit may go from one state into another in a period, and if so with which outputs. The numbers of a
    // question stay parameters: each kind of unit looks at some of them alone, and its rule is written of these.
    fn arc(&self, unit: usize, period: usize, from: usize, to: usize) -> Option<Range>
        ensures { result ≡ ((meaning self.now).model unit).arc period from to };

    // What an output on that arc costs, in cents; 0 where no arc contains it.
    fn cost(&self, unit: usize, period: usize, from: usize, to: usize, output: i32) -> i32
        ensures { result ≡ ((meaning self.now).model unit).cost period from to output };

    // Whether the day may end in the state.
    fn may_end(&self, unit: usize, state: usize) -> bool
        ensures { result ≡ ((meaning self.now).model unit).ends state };

    ghost sound: { (f : Self) → Sound (meaning f) };
}
