// The rules of ramp units and of lakes, in words.
use crate::lots::{price_of, puts_out};
use crate::rules::draw;
use reader::{LakeNumbers, RampNumbers, Rate};

// How far the output may move where it is on at the other end, and where it is off.
fn most(rate: Rate, on: bool) -> i64 {
    i64::from(if on { rate.step } else { rate.edge })
}

// It rises by at most V, by at most B from off; it falls by at most V, by at most B to off.
fn keeps_rate(rate: Rate, before: i32, output: i32) -> bool {
    let rise = i64::from(output) - i64::from(before);
    let fall = i64::from(before) - i64::from(output);
    rise <= most(rate, before > 0) && fall <= most(rate, output > 0)
}

// Each start costs S, a period on N and its lots.
fn on_cost(numbers: &RampNumbers, before: i32, output: i32) -> i64 {
    if output == 0 {
        return 0;
    }
    let start = if before == 0 { numbers.start } else { 0 };
    let fixed = i64::from(numbers.idle) + i64::from(start);
    fixed.saturating_add(price_of(&numbers.steps, output.unsigned_abs()))
}

pub(crate) fn ramp_cost(numbers: &RampNumbers, outputs: &[i32]) -> Option<i64> {
    let mut before = i32::try_from(numbers.was).ok()?;
    let mut cost = 0i64;
    for output in outputs {
        if !puts_out(numbers.run, *output) || !keeps_rate(numbers.rate, before, *output) {
            return None;
        }
        cost = cost.saturating_add(on_cost(numbers, before, *output));
        before = *output;
    }
    Some(cost)
}

// How much the level rises where so much goes out: minus a fall of at most G, or a rise of at most R that draws it.
fn rise_of(numbers: &LakeNumbers, output: i32) -> Option<i64> {
    for fall in 0..=numbers.flow.fall {
        if i32::try_from(fall) == Ok(output) {
            return Some(-i64::from(output));
        }
    }
    for rise in 1..=numbers.flow.rise {
        if draw(rise).saturating_neg() == output {
            return i64::try_from(rise).ok();
        }
    }
    None
}

// The level stays within 0 to C and ends at E or above; each lot of level moved costs Y.
pub(crate) fn lake_cost(numbers: &LakeNumbers, outputs: &[i32]) -> Option<i64> {
    let mut level = i64::try_from(numbers.was).ok()?;
    let full = i64::try_from(numbers.full).ok()?;
    let end = i64::try_from(numbers.end).ok()?;
    let wear = i64::from(numbers.wear);
    let mut cost = 0i64;
    for output in outputs {
        let rise = rise_of(numbers, *output)?;
        level = level.saturating_add(rise);
        if level < 0 || level > full {
            return None;
        }
        cost = cost.saturating_add(wear.saturating_mul(rise.saturating_abs()));
    }
    (end <= level).then_some(cost)
}
