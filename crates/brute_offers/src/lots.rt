// Lots: those that a unit may put out, and what they cost by steps.
use reader::{Run, Steps};

// On puts out LO to HI, off nothing.
pub(crate) fn puts_out(run: Run, output: i32) -> bool {
    output == 0 || u32::try_from(output).is_ok_and(|lots| run.lo <= lots && lots <= run.hi)
}

// The price of the next lot after so many.
fn price_after(steps: &Steps, lots: u32) -> i64 {
    let mut filled = 0u32;
    for step in &steps.places {
        filled = filled.saturating_add(step.lots);
        if lots < filled {
            return i64::from(step.price);
        }
    }
    0
}

// Lot by lot.
pub(crate) fn price_of(steps: &Steps, lots: u32) -> i64 {
    let mut price = 0i64;
    for before in 0..lots {
        price = price.saturating_add(price_after(steps, before));
    }
    price
}
