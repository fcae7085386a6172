// Days at the edge, over an offer book.
use crate::samples::{book, entry, lake, steam, step};
use decline_numbers::said;
use fleet::{Periods, PriceRow, SLOTS, best_gain};
use offers::Book;
use reader::{Flow, LakeNumbers, Offer, Rest, Run, StartCosts, SteamNumbers, Steps, Was};
use settlement::{Docket, Verdict};
use std::test::*;

// A unit that may go on and off in every period.
fn free(run: Run, start: u32, price: i32, was: Was) -> Result<Offer, Fail> {
    let numbers = SteamNumbers {
        run,
        rest: Rest {
            up: 1,
            down: 1,
            cold: 1,
        },
        start: StartCosts {
            hot: start,
            frost: start,
        },
        idle: 0,
        steps: Steps::new(&[step(run.hi, price)]).ok_or("no steps")?,
        was,
    };
    Ok(steam(numbers)?)
}

const TEN: Run = Run { lo: 1, hi: 10 };

const FOUR: Run = Run { lo: 4, hi: 4 };

// One period with a need of 12, a run of 8 lots of the first unit and 4 of the second, and evidence of weight 2.
fn worked(price: i32) -> Result<Docket<Book>, Fail> {
    let first = free(TEN, 0, 5, Was::On(1))?;
    let second = free(FOUR, 16, 2, Was::Off(1))?;
    let opened = Docket::open(book(&[first, second])?, 1, 2);
    let mut docket = opened.map_err(|unopened| unopened.decline)?;
    let mut table = [None; SLOTS];
    docket.need(&[12])?;
    docket.price(1, &[price])?;
    docket.run(0, &[entry(0, 8)], &mut table)?;
    docket.run(1, &[entry(0, 4)], &mut table)?;
    docket.mix(0, 2, &[entry(0, 10)])?;
    Ok(docket)
}

#[test]
fn worked_day(rt: HostRuntime) -> Result<(), Fail> {
    for (price, verdict, uplift, gap, wanted) in [
        (6, Verdict::Least, 2, 0, [2, 0]),
        (5, Verdict::Within, 4, 4, [0, 4]),
    ] {
        let mut docket = worked(price)?;
        docket.mix(1, 1, &[entry(0, 4)])?;
        docket.mix(1, 1, &[entry(1, 0)])?;
        let mut pays = [0; 2];
        let judgement = docket.judge(&mut pays)?;
        assert_eq!(rt;
            (judgement.uplift, judgement.gap, pays),
            (uplift, gap, wanted)
        );
        assert_eq!(rt; judgement.verdict, verdict);
    }
    Ok(())
}

// Evidence of four lots too many.
#[test]
fn missed_need(rt: HostRuntime) -> Result<(), Fail> {
    let mut docket = worked(6)?;
    docket.mix(1, 2, &[entry(0, 4)])?;
    let mut pays = [0; 2];
    assert_eq!(rt; said(docket.judge(&mut pays)), Err((44, 0)));
    Ok(())
}

// At the price of its lots, every schedule of the first unit gains nothing; the first in reading order is on with 1 lot,
// since on is state 0.
#[test]
fn at_the_margin(rt: HostRuntime) -> Result<(), Fail> {
    let docket = worked(5)?;
    let mut fewer = [None; SLOTS];
    let mut more = [None; SLOTS];
    assert_eq!(rt; docket.supply(0, &mut fewer, &mut more)?, (0, 0, 10));
    let mut table = [None; SLOTS];
    let mut out = [entry(9, 99)];
    docket.show(0, &mut table, &mut out)?;
    assert_eq!(rt; out, [entry(0, 1)]);
    Ok(())
}

// An empty lake that rises by 2 in a period cannot be at 5 after two.
#[test]
fn low_lake(rt: HostRuntime) -> Result<(), Fail> {
    let numbers = LakeNumbers {
        full: 8,
        flow: Flow { fall: 0, rise: 2 },
        wear: 0,
        was: 0,
        end: 5,
    };
    let book = book(&[lake(numbers)?])?;
    let mut table = [None; SLOTS];
    for (periods, says) in [(2, Err((32, 0))), (3, Ok(()))] {
        let prices = [0; 3];
        let day = Periods::new(periods).ok_or("no periods")?;
        let row = PriceRow::new(day, 1, prices.get(..periods).ok_or("no prices")?)?;
        assert_eq!(rt; said(best_gain(&book, 0, &row, &mut table)), says);
    }
    Ok(())
}
