// Buyers.
ghost use Rattle.std.specs.Prelude.{◌≡◌, ◌<◌, true};
ghost use Rattle.units.specs.BuyerUnits.{takes, taking, buyer_links};

use crate::fill::lots_cost;
use crate::offered::Offered;
use fleet::Range;
use reader::Buyer;

impl Offered for Buyer {
    ghost links = { λ o. buyer_links o.steps.places };

    fn states(&self) -> usize {
        1
    }

    fn start(&self) -> usize {
        0
    }

    fn may_go(&self, from: usize, to: usize) -> bool {
        let _ = (from, to);
        true
    }

    fn outputs(&self, from: usize, to: usize) -> Range {
        let _ = (from, to);
        Range {
            lo: -(self.steps.lots() as i32),
            hi: 0,
        }
    }

    fn charge(&self, from: usize, to: usize, output: i32) -> i32 {
        let _ = (from, to);
        -lots_cost(&self.steps, output.unsigned_abs())
    }

    fn may_stop(&self, state: usize) -> bool {
        let _ = state;
        true
    }
}
