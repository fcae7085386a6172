// The offer book as a fleet, and under outages.
use crate::samples::{LAKE, book, lake, ramp, ramp_numbers, steam, steam_numbers, step};
use decline_numbers::said;
use fleet::{Fleet, Range};
use fleet_kinds::{Outage, Outages};
use offers::Book;
use reader::{Buyer, LakeNumbers, Offer, RampNumbers, SteamNumbers, Steps, Was};
use std::test::*;

fn buyer() -> Result<Offer, &'static str> {
    let steps = Steps::new(&[step(2, 3), step(3, 9)]).ok_or("no steps")?;
    Ok(Offer::Buyer(Buyer::new(steps).ok_or("no buyer")?))
}

// One of each kind: the states and the start of each.
#[test]
fn units_in_order(rt: HostRuntime) -> Result<(), Fail> {
    let steam = steam(steam_numbers().ok_or("no steps")?)?;
    let ramp = ramp(ramp_numbers().ok_or("no steps")?)?;
    let book = book(&[steam, ramp, lake(LAKE)?, buyer()?])?;
    assert_eq!(rt; book.units(), 4);
    let units = [(5, 0), (8, 0), (9, 4), (1, 0)];
    for (unit, (states, start)) in units.iter().enumerate() {
        assert_eq!(rt; (book.states(unit), book.start(unit)), (*states, *start));
    }
    assert_eq!(rt; book.arc(3, 0, 0, 0), Some(Range { lo: -5, hi: 0 }));
    assert_eq!(rt; book.arc(3, 48, 0, 0), None);
    // The end of a day: levels from 4 on for the lake, any state that there is for the others.
    assert!(rt; !book.may_end(2, 3) && book.may_end(2, 4) && !book.may_end(2, 9));
    assert!(rt; book.may_end(0, 4) && !book.may_end(0, 5));
    Ok(())
}

// What is answered of a unit that the book lacks.
#[test]
fn lacking_unit(rt: HostRuntime) -> Result<(), Fail> {
    let book = book(&[lake(LAKE)?])?;
    for unit in [1, 64, usize::MAX] {
        assert_eq!(rt; (book.states(unit), book.start(unit)), (1, 0));
        assert_eq!(rt; book.arc(unit, 0, 0, 0), None);
        assert_eq!(rt; book.cost(unit, 0, 0, 0, 0), 0);
        assert!(rt; !book.may_end(unit, 0));
    }
    Ok(())
}

// The 65th is refused, and the units stay as they were.
#[test]
fn full_book(rt: HostRuntime) -> Result<(), Fail> {
    let mut book = Book::new();
    for level in 0..64 {
        assert!(rt;
            book.add(lake(LakeNumbers {
                full: 79,
                was: level,
                ..LAKE
            })?)
        );
    }
    assert!(rt; !book.add(buyer()?));
    assert_eq!(rt; book.units(), 64);
    for unit in 0..64 {
        assert_eq!(rt; (book.states(unit), book.start(unit)), (80, unit));
    }
    assert_eq!(rt; book.states(64), 1);
    Ok(())
}

fn outage(unit: usize) -> Outage {
    Outage {
        unit,
        first: 0,
        last: 0,
    }
}

// An outage is checked against the units that there are when it comes; offers may follow it.
#[test]
fn offers_after_an_outage(rt: HostRuntime) -> Result<(), Fail> {
    let mut under = Outages::new(Book::new());
    assert_eq!(rt; said(under.add(outage(0))), Err((14, 0)));
    assert!(rt; under.fleet_mut().add(buyer()?));
    assert_eq!(rt; said(under.add(outage(1))), Err((14, 0)));
    under.add(outage(0))?;
    assert!(rt; under.fleet_mut().add(buyer()?));
    assert_eq!(rt; under.units(), 2);
    // The outage still stands, on the first unit alone.
    assert_eq!(rt; under.arc(0, 0, 0, 0), Some(Range { lo: 0, hi: 0 }));
    assert_eq!(rt; under.arc(0, 1, 0, 0), Some(Range { lo: -5, hi: 0 }));
    assert_eq!(rt; under.arc(1, 0, 0, 0), Some(Range { lo: -5, hi: 0 }));
    under.add(outage(1))?;
    assert_eq!(rt; under.arc(1, 0, 0, 0), Some(Range { lo: 0, hi: 0 }));
    assert_eq!(rt; said(under.add(outage(2))), Err((14, 0)));
    Ok(())
}

const NONE_OUT: Option<Range> = Some(Range { lo: 0, hi: 0 });

// A steam and a ramp unit are off, a lake keeps its level; each where an arc has the output 0.
#[test]
fn every_kind_out(rt: HostRuntime) -> Result<(), Fail> {
    let steam = steam(SteamNumbers {
        was: Was::On(2),
        ..steam_numbers().ok_or("no steps")?
    })?;
    let ramp = ramp(RampNumbers {
        was: 6,
        ..ramp_numbers().ok_or("no steps")?
    })?;
    let mut under = Outages::new(book(&[steam, ramp, lake(LAKE)?])?);
    for unit in 0..3 {
        under.add(outage(unit))?;
    }
    // On for 2 periods: off for one now, and not on. At 6 lots: off, and not at 6.
    assert_eq!(rt;
        (under.arc(0, 0, 1, 2), under.arc(0, 0, 1, 1)),
        (NONE_OUT, None)
    );
    assert_eq!(rt;
        (under.arc(1, 0, 3, 0), under.arc(1, 0, 3, 3)),
        (NONE_OUT, None)
    );
    assert_eq!(rt;
        (under.arc(2, 0, 4, 4), under.arc(2, 0, 4, 3)),
        (NONE_OUT, None)
    );
    // On for 1 of 2 periods, and at 7 lots, it may not stop, so nothing is left.
    assert_eq!(rt; under.arc(0, 0, 0, 2), None);
    assert_eq!(rt; under.arc(1, 0, 4, 0), None);
    Ok(())
}
