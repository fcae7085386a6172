// What each kind allows, and at which cost.
use crate::samples::{
    LAKE, book, cost, entry, lake, ramp, ramp_numbers, steam, steam_numbers, step,
};
use fleet::{Fleet, Range};
use reader::{Buyer, Flow, LakeNumbers, Offer, RampNumbers, Rate, Run, SteamNumbers, Steps, Was};
use std::test::*;
use terms::Entry;

// On for 4 lots: 20 cents by the steps and 3 for the period. UP and DOWN are 2, COLD is 3, so the states are on for 1 and
// for 2, then off for 1, 2 and 3.
const ON_1: Entry = Entry {
    state: 0,
    output: 4,
};

const ON_2: Entry = Entry {
    state: 1,
    output: 4,
};

const OFF_1: Entry = Entry {
    state: 2,
    output: 0,
};

const OFF_2: Entry = Entry {
    state: 3,
    output: 0,
};

const OFF_3: Entry = Entry {
    state: 4,
    output: 0,
};

#[test]
fn minimum_times(rt: HostRuntime) -> Result<(), Fail> {
    let plain = steam_numbers().ok_or("no steps")?;
    // The periods before the day count.
    let days: [(Was, &[Entry], Result<i64, (u32, usize)>); 9] = [
        (Was::On(1), &[OFF_1], Err((27, 0))),
        (Was::On(1), &[ON_2, OFF_1], Ok(23)),
        (Was::On(2), &[OFF_1], Ok(0)),
        (Was::Off(1), &[ON_1], Err((27, 0))),
        (Was::Off(1), &[OFF_2, ON_1], Ok(123)),
        // A run that lasts to the end of the day may be short.
        (Was::Off(2), &[ON_1], Ok(123)),
        (Was::Off(2), &[ON_1, OFF_1], Err((27, 1))),
        (Was::Off(2), &[ON_1, ON_2, OFF_1], Ok(146)),
        (Was::On(2), &[OFF_1, ON_1], Err((27, 1))),
    ];
    for (was, schedule, says) in days {
        let numbers = SteamNumbers { was, ..plain };
        assert_eq!(rt;
            cost(steam(numbers)?, schedule)?,
            says,
            "{was:?} {schedule:?}"
        );
    }
    Ok(())
}

// FROST from COLD periods off on, those before the day counted.
#[test]
fn frost(rt: HostRuntime) -> Result<(), Fail> {
    let plain = steam_numbers().ok_or("no steps")?;
    let days: [(Was, &[Entry], i64); 6] = [
        (Was::Off(2), &[ON_1], 123),
        (Was::Off(3), &[ON_1], 1023),
        (Was::Off(48), &[ON_1], 1023),
        (Was::Off(1), &[OFF_2, OFF_3, ON_1], 1023),
        (Was::On(2), &[OFF_1, OFF_2, ON_1], 123),
        (Was::On(2), &[OFF_1, OFF_2, OFF_3, ON_1], 1023),
    ];
    for (was, schedule, says) in days {
        let numbers = SteamNumbers { was, ..plain };
        assert_eq!(rt;
            cost(steam(numbers)?, schedule)?,
            Ok(says),
            "{was:?} {schedule:?}"
        );
    }
    Ok(())
}

// Lots, filled in the order of the steps and not by price: 6 at 5 cents, then 4 at -7.
#[test]
fn filled_in_order(rt: HostRuntime) -> Result<(), Fail> {
    let offer = steam(steam_numbers().ok_or("no steps")?)?;
    for (lots, says) in [
        (3, Err((27, 0))),
        (4, Ok(23)),
        (6, Ok(33)),
        (7, Ok(26)),
        (10, Ok(5)),
        (11, Err((27, 0))),
    ] {
        assert_eq!(rt; cost(offer, &[entry(1, lots)])?, says, "{lots} lots");
    }
    Ok(())
}

// Off, and on with so many lots, of a unit whose lowest output is 4.
fn at(lots: i32) -> Entry {
    let state = usize::try_from(lots.saturating_sub(3)).unwrap_or(0);
    entry(state, lots)
}

// V is 3, B is 6. A is the output before the day: it binds period 0, and nothing binds after the last period.
#[test]
fn ramps(rt: HostRuntime) -> Result<(), Fail> {
    let plain = ramp_numbers().ok_or("no steps")?;
    for (was, first, second, says) in [
        (0, 6, 9, Ok(145)),
        (0, 7, 7, Err((27, 0))),
        (0, 6, 10, Err((27, 1))),
        (4, 7, 10, Ok(31)),
        (4, 8, 8, Err((27, 0))),
        (10, 7, 4, Ok(49)),
        (10, 6, 6, Err((27, 0))),
        (10, 0, 0, Err((27, 0))),
        (6, 0, 6, Ok(133)),
        (9, 6, 0, Ok(33)),
        (7, 7, 0, Err((27, 1))),
    ] {
        let numbers = RampNumbers { was, ..plain };
        let schedule = [at(first), at(second)];
        assert_eq!(rt;
            cost(ramp(numbers)?, &schedule)?,
            says,
            "{was} {first} {second}"
        );
    }
    Ok(())
}

// From 20 lots by steps of 5.
#[test]
fn twenty_to_twenty_five(rt: HostRuntime) -> Result<(), Fail> {
    let numbers = RampNumbers {
        run: Run { lo: 20, hi: 30 },
        rate: Rate { step: 5, edge: 20 },
        start: 0,
        idle: 0,
        steps: Steps::new(&[step(30, 0)]).ok_or("no steps")?,
        was: 20,
    };
    let book = book(&[ramp(numbers)?])?;
    assert_eq!(rt; book.start(0), 1);
    assert_eq!(rt; book.arc(0, 0, 1, 6), Some(Range { lo: 25, hi: 25 }));
    assert_eq!(rt; book.arc(0, 0, 1, 7), None);
    Ok(())
}

// A fall of f puts out f, a rise of r draws 13 r / 10 rounded up; both cost 10 cents for each lot of level moved.
#[test]
fn lakes(rt: HostRuntime) -> Result<(), Fail> {
    let days: [(&[Entry], Result<i64, (u32, usize)>); 8] = [
        (
            &[Entry {
                state: 4,
                output: 0,
            }],
            Ok(0),
        ),
        (
            &[Entry {
                state: 3,
                output: 1,
            }],
            Err((27, 1)),
        ),
        (
            &[
                Entry {
                    state: 1,
                    output: 3,
                },
                Entry {
                    state: 3,
                    output: -3,
                },
            ],
            Err((27, 2)),
        ),
        (
            &[
                Entry {
                    state: 2,
                    output: 2,
                },
                Entry {
                    state: 4,
                    output: -3,
                },
            ],
            Ok(40),
        ),
        (
            &[
                Entry {
                    state: 6,
                    output: -3,
                },
                Entry {
                    state: 8,
                    output: -3,
                },
            ],
            Ok(40),
        ),
        (
            &[Entry {
                state: 6,
                output: -2,
            }],
            Err((27, 0)),
        ),
        (
            &[Entry {
                state: 0,
                output: 4,
            }],
            Err((27, 0)),
        ),
        (
            &[Entry {
                state: 7,
                output: -4,
            }],
            Err((27, 0)),
        ),
    ];
    for (schedule, says) in days {
        assert_eq!(rt; cost(lake(LAKE)?, schedule)?, says, "{schedule:?}");
    }
    Ok(())
}

#[test]
fn draws(rt: HostRuntime) -> Result<(), Fail> {
    let flow = Flow { fall: 79, rise: 79 };
    let book = book(&[lake(LakeNumbers {
        full: 79,
        flow,
        ..LAKE
    })?])?;
    for (rise, draw) in [
        (1, 2),
        (2, 3),
        (3, 4),
        (4, 6),
        (10, 13),
        (11, 15),
        (78, 102),
        (79, 103),
    ] {
        let out = Range {
            lo: -draw,
            hi: -draw,
        };
        assert_eq!(rt; book.arc(0, 47, 0, rise), Some(out), "a rise of {rise}");
    }
    assert_eq!(rt; book.arc(0, 47, 79, 0), Some(Range { lo: 79, hi: 79 }));
    assert_eq!(rt; book.cost(0, 47, 0, 10, -13), 100);
    Ok(())
}

// Two lots for 3 cents each, then three for 9.
#[test]
fn buyers(rt: HostRuntime) -> Result<(), Fail> {
    let steps = Steps::new(&[step(2, 3), step(3, 9)]).ok_or("no steps")?;
    let offer = Offer::Buyer(Buyer::new(steps).ok_or("no buyer")?);
    for (output, says) in [
        (1, Err((27, 0))),
        (0, Ok(0)),
        (-2, Ok(-6)),
        (-3, Ok(-15)),
        (-5, Ok(-33)),
        (-6, Err((27, 0))),
    ] {
        assert_eq!(rt; cost(offer, &[entry(0, output)])?, says, "{output}");
    }
    Ok(())
}
