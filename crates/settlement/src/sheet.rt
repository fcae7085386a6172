// The docket's sheet: its stage, and sums of what was entered.
ghost use Rattle.std.specs.Prelude.{◌≡◌, ℕ, ◌*◌, true, length, pos, slice_index_or};
ghost use Rattle.terms.specs.Numbers.{near};
ghost use Rattle.settlement.specs.Standings.{runs_in, weight_in};

use crate::stages::Stage;
use crate::standing::Standing;

mod book;
mod entering;
pub(crate) mod weighing;

// The lots of all runs, and of all mixes by their weight, for each period; and the gap so far. No call can push a sum
// out of its bounds: at most 64 runs, and mixes of 1,000 at most for each of 64 units.
// The docket allocates nothing, so all of it is fixed memory. Runs and mixes are arrays of their own, since one function
// adds to either.
#[derive(Drop)]
pub struct Sheet {
    stage: Stage,
    units: [Option<Standing>; 64],
    runs: [i64; 48],
    mixes: [i64; 48],
    gap: i64,
    ghost long: { length units ≡ 64 },
    ghost counted: { (t : ℕ) → near (500 * runs_in units) (slice_index_or runs t (pos 0)) ≡ true },
    ghost weighted: { (t : ℕ) → near (500 * weight_in units) (slice_index_or mixes t (pos 0)) ≡ true },
    ghost narrow: { near (96000000000000 * weight_in units) gap ≡ true },
}
