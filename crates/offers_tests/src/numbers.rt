// Which numbers make an offer: each range at its ends and just past them, and each relation of two numbers.
use crate::samples::{ramp_numbers, steam_numbers, step};
use reader::{
    Buyer, Flow, Lake, LakeNumbers, Ramp, RampNumbers, Rate, Rest, Run, StartCosts, Steam,
    SteamNumbers, Steps, Was,
};
use std::test::*;

#[test]
fn steps_in_range(rt: HostRuntime) {
    let five = [step(1, 0); 5];
    for (count, makes) in [(0, false), (1, true), (4, true), (5, false)] {
        let made = five
            .get(..count)
            .map_or(false, |list| Steps::new(list).is_some());
        assert_eq!(rt; made, makes, "{count} steps");
    }
    for (lots, price, makes) in [
        (0, 0, false),
        (1, -500_000, true),
        (500, 500_000, true),
        (501, 0, false),
        (1, -500_001, false),
        (1, 500_001, false),
    ] {
        let list = [step(1, 0), step(lots, price)];
        assert_eq!(rt;
            Steps::new(&list).is_some(),
            makes,
            "{lots} lots at {price}"
        );
    }
}

// Places that are not used are zero.
#[test]
fn equal_steps(rt: HostRuntime) -> Result<(), Fail> {
    let made = Steps::new(&[step(2, 7), step(3, 5)]).ok_or("no steps")?;
    assert_eq!(rt;
        made.places,
        [step(2, 7), step(3, 5), step(0, 0), step(0, 0)]
    );
    assert_eq!(rt; made.lots(), 5);
    Ok(())
}

// LO, HI and the lots of the only step, for both kinds.
const RUNS: [(u32, u32, u32, bool); 8] = [
    (0, 10, 10, false),
    (1, 10, 10, true),
    (10, 10, 10, true),
    (11, 10, 10, false),
    (4, 9, 10, false),
    (4, 11, 10, false),
    (500, 500, 500, true),
    (1, 80, 80, true),
];

#[test]
fn runs(rt: HostRuntime) -> Result<(), Fail> {
    let steam = steam_numbers().ok_or("no steps")?;
    let ramp = ramp_numbers().ok_or("no steps")?;
    for (lo, hi, lots, makes) in RUNS {
        let run = Run { lo, hi };
        let steps = Steps::new(&[step(lots, 0)]).ok_or("no steps")?;
        let made = Steam::new(SteamNumbers {
            run,
            steps,
            ..steam
        });
        assert_eq!(rt; made.is_some(), makes, "steam {lo} {hi}");
        let rate = Rate { step: 3, edge: 500 };
        let made = Ramp::new(RampNumbers {
            run,
            rate,
            steps,
            ..ramp
        });
        assert_eq!(rt; made.is_some(), makes && hi != 80, "ramp {lo} {hi}");
    }
    // Four steps can hold more lots than a unit may put out.
    let steps = Steps::new(&[step(500, 0), step(1, 0)]).ok_or("no steps")?;
    let run = Run { lo: 1, hi: 501 };
    assert!(rt;
        Steam::new(SteamNumbers {
            run,
            steps,
            ..steam
        })
        .is_none()
    );
    Ok(())
}

// 79 outputs at most.
#[test]
fn narrow_ramps(rt: HostRuntime) -> Result<(), Fail> {
    let ramp = ramp_numbers().ok_or("no steps")?;
    for (lo, hi, makes) in [
        (1, 79, true),
        (2, 80, true),
        (1, 80, false),
        (422, 500, true),
        (421, 500, false),
    ] {
        let run = Run { lo, hi };
        let rate = Rate { step: 3, edge: 500 };
        let steps = Steps::new(&[step(hi, 0)]).ok_or("no steps")?;
        let made = Ramp::new(RampNumbers {
            run,
            rate,
            steps,
            ..ramp
        });
        assert_eq!(rt; made.is_some(), makes, "{lo} {hi}");
    }
    Ok(())
}

// UP, DOWN and COLD.
const RESTS: [(usize, usize, usize, bool); 9] = [
    (1, 1, 1, true),
    (24, 24, 48, true),
    (0, 1, 1, false),
    (25, 1, 1, false),
    (1, 0, 1, false),
    (1, 25, 48, false),
    (1, 24, 24, true),
    (1, 2, 1, false),
    (1, 1, 49, false),
];

#[test]
fn rests(rt: HostRuntime) -> Result<(), Fail> {
    let steam = steam_numbers().ok_or("no steps")?;
    for (up, down, cold, makes) in RESTS {
        let rest = Rest { up, down, cold };
        let made = Steam::new(SteamNumbers { rest, ..steam });
        assert_eq!(rt; made.is_some(), makes, "{up} {down} {cold}");
    }
    Ok(())
}

// M is kept as given, also where it is longer than UP or COLD.
#[test]
fn before_the_day(rt: HostRuntime) -> Result<(), Fail> {
    let steam = steam_numbers().ok_or("no steps")?;
    for (periods, makes) in [(0, false), (1, true), (48, true), (49, false)] {
        for was in [Was::On(periods), Was::Off(periods)] {
            let numbers = SteamNumbers { was, ..steam };
            let kept = Steam::new(numbers).map(|made| made.numbers.was);
            assert_eq!(rt; kept, makes.then_some(was));
        }
    }
    Ok(())
}

const MOST: u32 = 100_000_000;

// The start's costs and the idle cost.
#[test]
fn money(rt: HostRuntime) -> Result<(), Fail> {
    let steam = steam_numbers().ok_or("no steps")?;
    let ramp = ramp_numbers().ok_or("no steps")?;
    for (hot, frost, idle, makes) in [
        (MOST, MOST, MOST, true),
        (MOST + 1, 0, 0, false),
        (0, MOST + 1, 0, false),
        (0, 0, MOST + 1, false),
    ] {
        let start = StartCosts { hot, frost };
        let made = Steam::new(SteamNumbers {
            start,
            idle,
            ..steam
        });
        assert_eq!(rt; made.is_some(), makes, "{hot} {frost} {idle}");
        let made = Ramp::new(RampNumbers {
            start: hot,
            idle,
            ..ramp
        });
        assert_eq!(rt; made.is_some(), makes || frost > MOST, "{hot} {idle}");
    }
    Ok(())
}

// V, B and the output before the day, of 4 to 10 lots.
const RATES: [(u32, u32, u32, bool); 10] = [
    (1, 4, 0, true),
    (500, 500, 10, true),
    (0, 4, 0, false),
    (501, 4, 0, false),
    (1, 3, 0, false),
    (1, 501, 0, false),
    (1, 4, 4, true),
    (1, 4, 3, false),
    (1, 4, 10, true),
    (1, 4, 11, false),
];

#[test]
fn rates(rt: HostRuntime) -> Result<(), Fail> {
    let ramp = ramp_numbers().ok_or("no steps")?;
    for (v, b, was, makes) in RATES {
        let rate = Rate { step: v, edge: b };
        let made = Ramp::new(RampNumbers { rate, was, ..ramp });
        assert_eq!(rt; made.is_some(), makes, "{v} {b} {was}");
    }
    Ok(())
}

// Full, fall, rise, wear, was and end.
const LAKES: [(usize, usize, usize, u32, usize, usize, bool); 11] = [
    (1, 0, 0, 0, 0, 0, true),
    (79, 79, 79, 100_000, 79, 79, true),
    (0, 0, 0, 0, 0, 0, false),
    (80, 0, 0, 0, 0, 0, false),
    (8, 80, 0, 0, 0, 0, false),
    (8, 0, 80, 0, 0, 0, false),
    (8, 0, 0, 100_001, 0, 0, false),
    (8, 0, 0, 0, 8, 0, true),
    (8, 0, 0, 0, 9, 0, false),
    (8, 0, 0, 0, 0, 8, true),
    (8, 0, 0, 0, 0, 9, false),
];

#[test]
fn lakes(rt: HostRuntime) {
    for (full, fall, rise, wear, was, end, makes) in LAKES {
        let flow = Flow { fall, rise };
        let made = Lake::new(LakeNumbers {
            full,
            flow,
            wear,
            was,
            end,
        });
        assert_eq!(rt;
            made.is_some(),
            makes,
            "{full} {fall} {rise} {wear} {was} {end}"
        );
    }
}

// The lots of two steps and the price of the second.
#[test]
fn buyers(rt: HostRuntime) -> Result<(), Fail> {
    for (first, second, price, makes) in [
        (1, 1, 0, true),
        (499, 1, 500_000, true),
        (1, 1, -1, false),
        (500, 1, 0, false),
    ] {
        let steps = Steps::new(&[step(first, 0), step(second, price)]).ok_or("no steps")?;
        assert_eq!(rt;
            Buyer::new(steps).is_some(),
            makes,
            "{first} {second} {price}"
        );
    }
    Ok(())
}
