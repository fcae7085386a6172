// Lakes.
ghost use Rattle.std.specs.Prelude.{◌≡◌, ◌<◌, ◌≤◌, true, ◌+◌, ◌*◌, pos};
ghost use Rattle.units.specs.LakeUnits.{drawn, Draws, flow, may_flow, distance, lake_links};

use crate::offered::Offered;
use fleet::Range;
use reader::Lake;

// What each rise draws.
const DRAWS: [u16; 80] = [
    0, 2, 3, 4, 6, 7, 8, 10, 11, 12, 13, 15, 16, 17, 19, 20, 21, 23, 24, 25, 26, 28, 29, 30, 32,
    33, 34, 36, 37, 38, 39, 41, 42, 43, 45, 46, 47, 49, 50, 51, 52, 54, 55, 56, 58, 59, 60, 62, 63,
    64, 65, 67, 68, 69, 71, 72, 73, 75, 76, 77, 78, 80, 81, 82, 84, 85, 86, 88, 89, 90, 91, 93, 94,
    95, 97, 98, 99, 101, 102, 103,
];

// The least whole number of at least thirteen tenths of the rise.
fn draw(rise: usize) -> u16
    requires { rise < 80 }
    ensures is { result ≡ drawn rise }
    ensures least { Draws rise result }
{
    DRAWS[rise]
}

// What goes out where the level goes from one to another.
fn flow(from: usize, to: usize) -> i32
    requires from { from < 80 }
    requires to { to < 80 }
    ensures { result ≡ flow from to }
{
    if to <= from {
        (from - to) as i32
    } else {
        -i32::from(draw(to - from))
    }
}

impl Offered for Lake {
    ghost links = { λ o. lake_links o.numbers };

    fn states(&self) -> usize {
        self.numbers.full + 1
    }

    fn start(&self) -> usize {
        self.numbers.was
    }

    fn may_go(&self, from: usize, to: usize) -> bool {
        if to <= from {
            from - to <= self.numbers.flow.fall
        } else {
            to - from <= self.numbers.flow.rise
        }
    }

    fn outputs(&self, from: usize, to: usize) -> Range {
        let lots = flow(from, to);
        Range { lo: lots, hi: lots }
    }

    fn charge(&self, from: usize, to: usize, output: i32) -> i32 {
        let _ = output;
        (self.numbers.wear * from.abs_diff(to) as u32) as i32
    }

    fn may_stop(&self, state: usize) -> bool {
        self.numbers.end <= state
    }
}
