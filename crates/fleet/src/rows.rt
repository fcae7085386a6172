// Rows of numbers, one for each period, that keep their rules.
ghost use Rattle.std.specs.Prelude.{◌≡◌, ℕ, ◌<◌, ◌≤◌, ◌-◌, ◌++◌, true, pos, replicate, take, slice_index_or};
ghost use Rattle.terms.specs.Numbers.{near};

mod make;

// Numbers within ±LIMIT, one for each period of a day. An array with a length: a docket allocates nothing, and price
// and need rows are `Copy`, which an `ArrayVec` is not. Places that are not used are 0, so equal rows are equal values.
#[derive(Clone, Copy, PartialEq, Eq, Debug)]
pub struct Row<const LIMIT: u32> {
    periods: usize,
    numbers: [i32; 48],
    ghost short: { periods ≤ 48 },
    ghost unused: { numbers ≡ take periods numbers ++ replicate (48 - periods) (pos 0) },
    ghost bounded: { (k : ℕ) → k < periods → near LIMIT (slice_index_or numbers k (pos 0)) ≡ true },
}

// A price row: the price of a period is its numerator over the common denominator, in cents a lot.
#[derive(Clone, Copy, PartialEq, Eq, Debug)]
pub struct PriceRow {
    over: u32,
    numerators: Row<1_000_000_000>,
    ghost low: { 1 ≤ over },
    ghost high: { over ≤ 1000 },
}

// The wanted lots of each period.
#[derive(Clone, Copy, PartialEq, Eq, Debug)]
pub struct NeedRow {
    wanted: Row<32_000>,
}
