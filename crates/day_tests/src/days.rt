// Whole days, with all that they are answered.
use crate::files::Reply::{No, Nothing, Text};
use crate::files::{Reply, settles};
use std::test::*;

// The units of the worked day: state 0 is on, state 1 is off.
pub(crate) const FIRST: &str =
    "(steam (run 1 10) (rest 1 1 1) (start 0 0) (idle 0) (steps (10 5)) (was on 1))";

pub(crate) const SECOND: &str =
    "(steam (run 4 4) (rest 1 1 1) (start 16 16) (idle 0) (steps (4 2)) (was off 1))";

// The worked day: the evidence shows the price row least.
const WORKED: &[(&str, Reply)] = &[
    ("(day 1 2)", Nothing),
    (FIRST, Nothing),
    (SECOND, Nothing),
    ("(need 12)", Nothing),
    ("(price 1 6)", Nothing),
    ("(run 0 (0 8))", Nothing),
    ("(run 1 (0 4))", Nothing),
    ("(mix 0 2 (0 10))", Nothing),
    ("(mix 1 1 (0 4))", Nothing),
    ("(mix 1 1 (1 0))", Nothing),
    (
        "(judge)",
        Text("(pay 0 2)\n(pay 1 0)\n(verdict least (uplift 2) (over 1) (gap 0) (weight 2))"),
    ),
];

// The same at 5 cents, asked before the runs and after the verdict.
const AT_FIVE: &[(&str, Reply)] = &[
    ("(day 1 2)", Nothing),
    (FIRST, Nothing),
    (SECOND, Nothing),
    ("(need 12)", Nothing),
    ("(price 1 5)", Nothing),
    ("(supply 0)", Text("(supply 0 0 0 10)")),
    ("(show 0)", Text("(show 0 (0 1))")),
    ("(run 0 (0 8))", Nothing),
    ("(run 1 (0 4))", Nothing),
    ("(mix 0 2 (0 10))", Nothing),
    ("(mix 1 1 (0 4))", Nothing),
    ("(mix 1 1 (1 0))", Nothing),
    (
        "(judge)",
        Text("(pay 0 0)\n(pay 1 4)\n(verdict within (uplift 4) (over 1) (gap 4) (weight 2))"),
    ),
    ("(supply 0)", Text("(supply 0 0 0 10)")),
    ("(show 0)", Text("(show 0 (0 1))")),
];

// The same with unit 1 never off in the mixes, which bring 28 lots and not 24.
const NEVER_OFF: &[(&str, Reply)] = &[
    ("(day 1 2)", Nothing),
    (FIRST, Nothing),
    (SECOND, Nothing),
    ("(need 12)", Nothing),
    ("(price 1 6)", Nothing),
    ("(run 0 (0 8))", Nothing),
    ("(run 1 (0 4))", Nothing),
    ("(mix 0 2 (0 10))", Nothing),
    ("(mix 1 2 (0 4))", Nothing),
    ("(judge)", No("docket", 44, 0)),
];

// A judge after each step, over 2: the amounts are halves of a cent.
const JUDGES: &[(&str, Reply)] = &[
    ("(day 1 2)", Nothing),
    (FIRST, Nothing),
    (SECOND, Nothing),
    ("(need 12)", Nothing),
    ("(price 2 12)", Nothing),
    ("(judge)", No("docket", 41, 0)),
    ("(run 1 (0 4))", Nothing),
    ("(judge)", No("docket", 41, 0)),
    ("(run 0 (0 8))", Nothing),
    ("(judge)", No("docket", 43, 0)),
    ("(mix 0 2 (0 10))", Nothing),
    ("(judge)", No("docket", 43, 1)),
    ("(mix 1 1 (0 4))", Nothing),
    ("(mix 1 1 (1 0))", Nothing),
    (
        "(judge)",
        Text("(pay 0 4)\n(pay 1 0)\n(verdict least (uplift 4) (over 2) (gap 0) (weight 2))"),
    ),
    ("(mix 1 1 (1 0))", No("docket", 29, 1)),
    (
        "(judge)",
        Text("(pay 0 4)\n(pay 1 0)\n(verdict least (uplift 4) (over 2) (gap 0) (weight 2))"),
    ),
];

// Two periods on and two off at least, the one before the day counted.
const TIMES: &[(&str, Reply)] = &[
    ("(day 4 1)", Nothing),
    (
        "(steam (run 2 3) (rest 2 2 3) (start 10 30) (idle 1) (steps (2 5) (1 9)) (was off 1))",
        Nothing,
    ),
    ("(need 0 2 2 0)", Nothing),
    ("(price 1 12 12 12 12)", Nothing),
    ("(show 0)", Text("(show 0 (3 0) (0 3) (1 3) (1 3))")),
    ("(run 0 (0 2) (1 2) (1 2) (2 0))", No("docket", 27, 0)),
    ("(run 0 (3 0) (0 2) (2 0) (3 0))", No("docket", 27, 2)),
    ("(run 0 (3 0) (0 2) (1 2) (2 0))", Nothing),
    ("(mix 0 1 (3 0) (0 2) (1 2) (2 0))", Nothing),
    (
        "(judge)",
        Text("(pay 0 22)\n(verdict within (uplift 22) (over 1) (gap 22) (weight 1))"),
    ),
];

// From 20 lots to 25 and not to 26, and from 25 not off.
const RAMP: &[(&str, Reply)] = &[
    ("(day 2 1)", Nothing),
    (
        "(ramp (run 20 30) (rate 5 24) (start 7) (idle 3) (steps (20 2) (10 4)) (was 20))",
        Nothing,
    ),
    ("(buyer (steps (30 4)))", Nothing),
    ("(need 0 0)", Nothing),
    ("(price 1 4 4)", Nothing),
    ("(show 0)", Text("(show 0 (1 20) (1 20))")),
    ("(supply 0)", Text("(supply 0 74 40 55)")),
    ("(run 0 (7 26) (0 0))", No("docket", 27, 0)),
    ("(run 0 (6 25) (0 0))", No("docket", 27, 1)),
    ("(run 0 (6 25) (7 26))", Nothing),
    ("(run 1 (0 -25) (0 -26))", Nothing),
    ("(mix 0 1 (6 25) (7 26))", Nothing),
    ("(mix 1 1 (0 -25) (0 -26))", Nothing),
    (
        "(judge)",
        Text("(pay 0 0)\n(pay 1 0)\n(verdict least (uplift 0) (over 1) (gap 0) (weight 1))"),
    ),
];

// A lake that rises by 10 for 13 lots, and a unit and a buyer that are each out for a period.
const PUMPING: &[(&str, Reply)] = &[
    ("(day 2 1)", Nothing),
    (
        "(lake (full 20) (flow 13 10) (wear 1) (was 10) (end 10))",
        Nothing,
    ),
    (
        "(steam (run 13 13) (rest 1 1 1) (start 0 0) (idle 0) (steps (13 2)) (was on 1))",
        Nothing,
    ),
    ("(buyer (steps (10 8)))", Nothing),
    ("(out 1 1 1)", Nothing),
    ("(out 2 0 0)", Nothing),
    ("(need 0 0)", Nothing),
    ("(price 1 2 5)", Nothing),
    ("(run 0 (20 -13) (10 10))", Nothing),
    ("(run 1 (0 13) (1 0))", Nothing),
    ("(run 2 (0 0) (0 -10))", Nothing),
    ("(mix 0 1 (20 -13) (10 10))", Nothing),
    ("(mix 1 1 (0 13) (1 0))", Nothing),
    ("(mix 2 1 (0 0) (0 -10))", Nothing),
    (
        "(judge)",
        Text(
            "(pay 0 0)\n(pay 1 0)\n(pay 2 0)\n(verdict least (uplift 0) (over 1) (gap 0) (weight 1))",
        ),
    ),
];

// Two rises of 2 do not reach 5.
const LAKE: &[(&str, Reply)] = &[
    ("(day 2 1)", Nothing),
    (
        "(lake (full 10) (flow 2 2) (wear 0) (was 0) (end 5))",
        Nothing,
    ),
    ("(need 0 0)", Nothing),
    ("(price 1 0 0)", Nothing),
    ("(supply 0)", No("docket", 32, 0)),
    ("(show 0)", No("docket", 32, 0)),
    ("(run 0 (2 -3) (4 -3))", No("docket", 27, 2)),
    ("(judge)", No("docket", 41, 0)),
];

// Outages that name no unit, end before they begin or end after period 47, and one that stands.
const OUTAGE: &[(&str, Reply)] = &[
    ("(day 2 1)", Nothing),
    ("(out 0 0 0)", No("fleet", 14, 0)),
    (
        "(steam (run 1 4) (rest 1 1 1) (start 3 3) (idle 0) (steps (4 1)) (was on 1))",
        Nothing,
    ),
    ("(out 0 1 0)", No("fleet", 14, 0)),
    ("(out 0 0 48)", No("fleet", 14, 0)),
    ("(out 1 0 0)", No("fleet", 14, 0)),
    ("(out 0 1 47)", Nothing),
    ("(need 4 0)", Nothing),
    ("(price 1 3 3)", Nothing),
    ("(show 0)", Text("(show 0 (0 4) (1 0))")),
    ("(run 0 (0 4) (0 4))", No("docket", 27, 1)),
    ("(run 0 (0 4) (1 0))", Nothing),
    ("(mix 0 1 (0 4) (1 0))", Nothing),
    (
        "(judge)",
        Text("(pay 0 0)\n(verdict least (uplift 0) (over 1) (gap 0) (weight 1))"),
    ),
];

// A rise of 79 draws 103 lots.
const DRAW: &[(&str, Reply)] = &[
    ("(day 1 1)", Nothing),
    (
        "(lake (full 79) (flow 0 79) (wear 0) (was 0) (end 0))",
        Nothing,
    ),
    ("(need -103)", Nothing),
    ("(price 1 -1)", Nothing),
    ("(run 0 (79 -102))", No("docket", 27, 0)),
    ("(run 0 (79 -104))", No("docket", 27, 0)),
    ("(run 0 (80 -104))", No("docket", 27, 0)),
    ("(run 0 (79 -103))", Nothing),
    ("(mix 0 1 (79 -103))", Nothing),
    (
        "(judge)",
        Text("(pay 0 0)\n(verdict least (uplift 0) (over 1) (gap 0) (weight 1))"),
    ),
];

// Outages that overlap: the unit is out in both.
const UNION: &[(&str, Reply)] = &[
    ("(day 4 1)", Nothing),
    ("(buyer (steps (5 3)))", Nothing),
    ("(out 0 1 2)", Nothing),
    ("(out 0 0 1)", Nothing),
    ("(need 0 0 0 -5)", Nothing),
    ("(price 1 2 2 2 2)", Nothing),
    ("(supply 0)", Text("(supply 0 5 -5 -5)")),
    ("(show 0)", Text("(show 0 (0 0) (0 0) (0 0) (0 -5))")),
    ("(run 0 (0 0) (0 0) (0 -1) (0 -5))", No("docket", 27, 2)),
    ("(run 0 (0 0) (0 0) (0 0) (0 -4))", Nothing),
    ("(judge)", No("docket", 42, 3)),
];

#[test]
fn worked_days(rt: HostRuntime) -> Result<(), Fail> {
    settles(&rt, rt.alloc(), WORKED)?;
    settles(&rt, rt.alloc(), AT_FIVE)?;
    settles(&rt, rt.alloc(), NEVER_OFF)
}

#[test]
fn several_judges(rt: HostRuntime) -> Result<(), Fail> {
    settles(&rt, rt.alloc(), JUDGES)
}

#[test]
fn times_and_ramps(rt: HostRuntime) -> Result<(), Fail> {
    settles(&rt, rt.alloc(), TIMES)?;
    settles(&rt, rt.alloc(), RAMP)
}

#[test]
fn lakes_and_outages(rt: HostRuntime) -> Result<(), Fail> {
    settles(&rt, rt.alloc(), PUMPING)?;
    settles(&rt, rt.alloc(), LAKE)?;
    settles(&rt, rt.alloc(), OUTAGE)
}

#[test]
fn draws_and_overlaps(rt: HostRuntime) -> Result<(), Fail> {
    settles(&rt, rt.alloc(), DRAW)?;
    settles(&rt, rt.alloc(), UNION)
}
