// An offer as a unit.
ghost use Rattle.std.specs.Prelude.{◌≡◌, ◌<◌, true};
ghost use Rattle.fleet.specs.Units.{among};
ghost use Rattle.units.specs.Links.{Links, model_of};

use fleet::Range;

// The states of one offer and the links between them, which are the same in every period.
pub(crate) trait Offered {
    ghost links: { Self → Links };

    fn states(&self) -> usize
        ensures { result ≡ (links self.now).states };

    // The state before the first period.
    fn start(&self) -> usize
        ensures { result ≡ (links self.now).start };

    // Whether it may go from one of its states into another.
    fn may_go(&self, from: usize, to: usize) -> bool
        requires from { from < (links self.now).states }
        requires to { to < (links self.now).states }
        ensures { result ≡ (links self.now).linked from to };

    // With which outputs.
    fn outputs(&self, from: usize, to: usize) -> Range
        requires from { from < (links self.now).states }
        requires to { to < (links self.now).states }
        ensures { result ≡ (links self.now).outputs from to };

    // What one of these outputs costs.
    fn charge(&self, from: usize, to: usize, output: i32) -> i32
        requires from { from < (links self.now).states }
        requires to { to < (links self.now).states }
        requires among { among ((links self.now).outputs from to) output ≡ true }
        ensures { result ≡ (links self.now).charge from to output };

    // Whether the day may end in one of its states.
    fn may_stop(&self, state: usize) -> bool
        ensures { result ≡ (links self.now).ends state };

    fn arc(&self, period: usize, from: usize, to: usize) -> Option<Range>
        ensures { result ≡ (model_of (links self.now)).arc period from to }
    {
        let states = self.states();
        if period < 48 && from < states && to < states && self.may_go(from, to) {
            Some(self.outputs(from, to))
        } else {
            None
        }
    }

    fn cost(&self, period: usize, from: usize, to: usize, output: i32) -> i32
        ensures { result ≡ (model_of (links self.now)).cost period from to output }
    {
        match self.arc(period, from, to) {
            Some(range) if range.contains(output) => self.charge(from, to, output),
            _ => 0,
        }
    }

    fn may_end(&self, state: usize) -> bool
        ensures { result ≡ (model_of (links self.now)).ends state }
    {
        state < self.states() && self.may_stop(state)
    }
}
