// The rule of steam units, in words.
use crate::lots::{price_of, puts_out};
use reader::{SteamNumbers, Was};

// Whether the unit was on so many periods before a period of the day, which may lie before the day; nothing is known
// before the periods that it is offered with.
fn was_on(was: Was, outputs: &[i32], period: usize, back: usize) -> Option<bool> {
    if let Some(at) = period.checked_sub(back) {
        return outputs.get(at).map(|output| *output > 0);
    }
    let (on, periods) = match was {
        Was::On(periods) => (true, periods),
        Was::Off(periods) => (false, periods),
    };
    (back.saturating_sub(period) <= periods).then_some(on)
}

// How many periods in a row just before a period were on, or off, those before the day counted.
fn in_a_row(was: Was, outputs: &[i32], period: usize, on: bool) -> usize {
    let mut count = 0usize;
    for back in 1..=period.saturating_add(48) {
        if was_on(was, outputs, period, back) != Some(on) {
            break;
        }
        count = count.saturating_add(1);
    }
    count
}

// FROST after COLD or more periods off, else HOT, and nothing where it was on.
fn start_cost(numbers: &SteamNumbers, off_before: usize) -> u32 {
    if off_before == 0 {
        0
    } else if off_before >= numbers.rest.cold {
        numbers.start.frost
    } else {
        numbers.start.hot
    }
}

// A run of on periods that ends has at least UP, one of off periods at least DOWN. A period on costs N and its lots, and
// a start its start.
fn period_cost(numbers: &SteamNumbers, outputs: &[i32], period: usize) -> Option<i64> {
    let output = *outputs.get(period)?;
    let on_before = in_a_row(numbers.was, outputs, period, true);
    let off_before = in_a_row(numbers.was, outputs, period, false);
    if !puts_out(numbers.run, output) {
        return None;
    }
    if output == 0 {
        let stops_early = on_before > 0 && on_before < numbers.rest.up;
        return (!stops_early).then_some(0);
    }
    if off_before > 0 && off_before < numbers.rest.down {
        return None;
    }
    let start = i64::from(start_cost(numbers, off_before));
    let running = price_of(&numbers.steps, output.unsigned_abs());
    Some(
        running
            .saturating_add(start)
            .saturating_add(i64::from(numbers.idle)),
    )
}

pub(crate) fn steam_cost(numbers: &SteamNumbers, outputs: &[i32]) -> Option<i64> {
    let mut cost = 0i64;
    for period in 0..outputs.len() {
        cost = cost.saturating_add(period_cost(numbers, outputs, period)?);
    }
    Some(cost)
}
