// Two days whose side payments are known. There, power is in MW over hours and money in dollars; here a lot is 5 MWh
// and money is in cents, so 10 MW are 2 lots, a dollar for a MWh is 500 cents for a lot, and all numbers are exact. A
// unit without a lowest output has 1 lot here: at none it is off, which costs no more.
use crate::samples::{book, entry, ramp, steam, step};
use fleet::SLOTS;
use offers::Book;
use reader::{Offer, RampNumbers, Rate, Rest, Run, StartCosts, SteamNumbers, Steps, Was};
use settlement::{Docket, Verdict};
use std::alloc::Global;
use std::test::*;
use terms::Entry;

// Periods of a schedule, each by its state and its lots.
type Lots<'a> = &'a [(usize, i32)];

// The needs, the run of each unit, and mixes of weight 10, each with its unit and weight.
#[derive(Clone, Copy)]
struct Day<'a> {
    needs: &'a [i32],
    runs: &'a [Lots<'a>],
    mixes: &'a [(usize, u32, Lots<'a>)],
}

fn schedule(heap: Global, lots: Lots) -> Result<Vec<Entry>, Fail> {
    let entries = lots.iter().map(|period| entry(period.0, period.1));
    Ok(entries.collect(heap)?)
}

// The verdict, the uplift and the gap, and the side payments.
type Outcome = (Verdict, i64, i64, [i64; 2]);

fn settled(heap: Global, book: Book, day: &Day, numerators: &[i32]) -> Result<Outcome, Fail> {
    let mut table = [None; SLOTS];
    let mut pays = [0; 2];
    let opened = Docket::open(book, day.needs.len(), 10);
    let mut docket = opened.map_err(|unopened| unopened.decline)?;
    docket.need(day.needs)?;
    docket.price(1, numerators)?;
    for (unit, run) in day.runs.iter().enumerate() {
        docket.run(unit, &schedule(heap, run)?, &mut table)?;
    }
    for (unit, weight, mix) in day.mixes {
        docket.mix(*unit, *weight, &schedule(heap, mix)?)?;
    }
    let judgement = docket.judge(&mut pays)?;
    Ok((judgement.verdict, judgement.uplift, judgement.gap, pays))
}

// A unit that was off, may go on and off in every period, and costs 100 dollars to start.
fn starting(run: Run, price: i32) -> Result<Offer, Fail> {
    let numbers = SteamNumbers {
        run,
        rest: Rest {
            up: 1,
            down: 1,
            cold: 1,
        },
        start: StartCosts {
            hot: 10_000,
            frost: 10_000,
        },
        idle: 0,
        steps: Steps::new(&[step(run.hi, price)]).ok_or("no steps")?,
        was: Was::Off(1),
    };
    Ok(steam(numbers)?)
}

// State 0 is on, state 1 off.
const BLOCK: Day<'static> = Day {
    needs: &[7],
    runs: &[&[(0, 7)], &[(1, 0)]],
    mixes: &[(0, 10, &[(1, 0)]), (1, 7, &[(0, 10)]), (1, 3, &[(1, 0)])],
};

// 35 MW, by a unit of 10 to 50 MW at 50 dollars a MWh; a block of 50 MW at 10 dollars stays off. The prices are 50, 12
// and 52 dollars. At 12 the evidence is that the block runs for 7 of 10 weights, so that no prices have less uplift.
#[test]
fn block_unit(rt: HostRuntime) -> Result<(), Fail> {
    for (price, says) in [
        (
            25_000,
            (Verdict::Within, 200_000, 570_000, [10_000, 190_000]),
        ),
        (6_000, (Verdict::Least, 143_000, 0, [143_000, 0])),
        (
            26_000,
            (Verdict::Within, 203_000, 600_000, [3_000, 200_000]),
        ),
    ] {
        let first = starting(Run { lo: 2, hi: 10 }, 25_000)?;
        let block = starting(Run { lo: 10, hi: 10 }, 5_000)?;
        let book = book(&[first, block])?;
        assert_eq!(rt;
            settled(rt.alloc(), book, &BLOCK, &[price])?,
            says,
            "at {price}"
        );
    }
    Ok(())
}

// A unit of up to 100 MW that was off, and moves by so much in an hour, from off and to off too.
fn moving(rate: u32, idle: u32, price: i32) -> Result<Offer, Fail> {
    let numbers = RampNumbers {
        run: Run { lo: 1, hi: 20 },
        rate: Rate {
            step: rate,
            edge: rate,
        },
        start: 0,
        idle,
        steps: Steps::new(&[step(20, price)]).ok_or("no steps")?,
        was: 0,
    };
    Ok(ramp(numbers)?)
}

// A state is the lots.
const RAMPING: Day<'static> = Day {
    needs: &[14, 20, 34],
    runs: &[&[(14, 14), (8, 8), (14, 14)], &[(0, 0), (12, 12), (20, 20)]],
    mixes: &[
        (0, 4, &[(14, 14), (11, 11), (20, 20)]),
        (0, 6, &[(14, 14), (12, 12), (20, 20)]),
        (1, 7, &[(0, 0), (12, 12), (20, 20)]),
        (1, 3, &[(0, 0), (0, 0), (0, 0)]),
    ],
};

// 70, 100 and 170 MW, by a unit at 60 dollars a MWh that moves by 120 MW an hour, and one at 56 dollars and 600 for an
// hour on that moves by 60 MW: it has to start in the second hour to be at 100 MW in the third. The prices of the third
// hour are 60, 64 and 65.6 dollars. At the last the evidence is that the second unit runs for 7 of 10 weights.
#[test]
fn ramping_units(rt: HostRuntime) -> Result<(), Fail> {
    for (price, says) in [
        (30_000, (Verdict::Within, 56_000, 392_000, [0, 56_000])),
        (32_000, (Verdict::Within, 28_000, 112_000, [12_000, 16_000])),
        (32_800, (Verdict::Least, 16_800, 0, [16_800, 0])),
    ] {
        let book = book(&[moving(24, 0, 30_000)?, moving(12, 60_000, 28_000)?])?;
        let answer = settled(rt.alloc(), book, &RAMPING, &[30_000, 30_000, price])?;
        assert_eq!(rt; answer, says, "at {price}");
    }
    Ok(())
}
