// Forms in their places, and what opens a docket.
use crate::files::Reply::{No, Nothing, Text};
use crate::files::{Reply, settles};
use std::test::*;

const BUYER: &str = "(buyer (steps (5 3)))";

const RAMP: &str = "(ramp (run 2 2) (rate 1 2) (start 0) (idle 0) (steps (2 1)) (was 0))";

const LAKE: &str = "(lake (full 4) (flow 2 2) (wear 0) (was 2) (end 0))";

const STEAM: &str = "(steam (run 2 2) (rest 1 1 1) (start 0 0) (idle 0) (steps (2 1)) (was off 1))";

const OUT_OF_PLACE: Reply = No("reader", 9, 1);

// Nothing stands before the day, and a declined day is no day.
const BEFORE: &[(&str, Reply)] = &[
    (STEAM, OUT_OF_PLACE),
    (RAMP, OUT_OF_PLACE),
    (LAKE, OUT_OF_PLACE),
    (BUYER, OUT_OF_PLACE),
    ("(out 0 1 0)", OUT_OF_PLACE),
    ("(need 1)", OUT_OF_PLACE),
    ("(price 0 1)", OUT_OF_PLACE),
    ("(run 0 (0 1))", OUT_OF_PLACE),
    ("(mix 0 0 (0 1))", OUT_OF_PLACE),
    ("(supply 0)", OUT_OF_PLACE),
    ("(show 0)", OUT_OF_PLACE),
    ("(judge)", OUT_OF_PLACE),
    ("(day 0 1)", No("reader", 7, 6)),
    (BUYER, OUT_OF_PLACE),
    ("(day 1 1)", Nothing),
    ("(day 1 1)", OUT_OF_PLACE),
    ("(day 2 2)", OUT_OF_PLACE),
    ("(need 1)", No("fleet", 11, 0)),
];

// Before the docket is open only offers, outages and a need; after that only the docket's forms.
const OPENED: &[(&str, Reply)] = &[
    ("(day 1 1)", Nothing),
    ("(out 0 0 0)", No("fleet", 14, 0)),
    ("(need 1 1)", No("fleet", 11, 0)),
    ("(need 32001)", No("fleet", 11, 0)),
    (BUYER, Nothing),
    ("(price 1 3)", OUT_OF_PLACE),
    ("(run 0 (0 1))", OUT_OF_PLACE),
    ("(mix 0 0 (0 1))", OUT_OF_PLACE),
    ("(supply 0)", OUT_OF_PLACE),
    ("(show 0)", OUT_OF_PLACE),
    ("(judge)", OUT_OF_PLACE),
    ("(out 1 0 0)", No("fleet", 14, 0)),
    (LAKE, Nothing),
    ("(out 1 0 0)", Nothing),
    ("(out 0 1 0)", No("fleet", 14, 0)),
    ("(out 0 0 48)", No("fleet", 14, 0)),
    ("(out 0 47 47)", Nothing),
    ("(out 2147483647 0 0)", No("fleet", 14, 0)),
    ("(out 2147483648 0 0)", No("reader", 7, 6)),
    ("(need x)", No("reader", 6, 7)),
    (RAMP, Nothing),
    ("(need -5)", Nothing),
    (STEAM, OUT_OF_PLACE),
    (RAMP, OUT_OF_PLACE),
    (LAKE, OUT_OF_PLACE),
    (BUYER, OUT_OF_PLACE),
    ("(out 9 9 0)", OUT_OF_PLACE),
    ("(day 1 1)", OUT_OF_PLACE),
    (
        "(lake (full 4) (flow 2 2) (wear 0) (was 5) (end 0))",
        No("reader", 8, 1),
    ),
    ("(need -5)", No("docket", 21, 0)),
    ("(price 1 3)", Nothing),
    ("(supply 2)", Text("(supply 2 4 2 2)")),
    ("(supply 3)", No("docket", 24, 3)),
];

// The need that opens a docket is declined, and the docket stays open: by its length, and by a number.
const LONG_NEED: &[(&str, Reply)] = &[
    ("(day 1 1)", Nothing),
    (BUYER, Nothing),
    ("(need 1 1)", No("docket", 22, 0)),
    (BUYER, OUT_OF_PLACE),
    ("(out 0 0 0)", OUT_OF_PLACE),
    ("(price 1 3)", No("docket", 21, 0)),
    ("(judge)", No("docket", 21, 0)),
    ("(supply 7)", No("docket", 21, 7)),
    ("(need 0)", Nothing),
    ("(need 0)", No("docket", 21, 0)),
    ("(price 1 3)", Nothing),
    ("(show 0)", Text("(show 0 (0 -5))")),
];

const LARGE_NEED: &[(&str, Reply)] = &[
    ("(day 2 1)", Nothing),
    (BUYER, Nothing),
    ("(need 32000 -32001)", No("docket", 23, 1)),
    (BUYER, OUT_OF_PLACE),
    ("(price 1 3 3)", No("docket", 21, 0)),
    ("(need 32001 -32001)", No("docket", 23, 0)),
    ("(need 32000 -32000)", Nothing),
];

#[test]
fn before_and_after_the_opening(rt: HostRuntime) -> Result<(), Fail> {
    settles(&rt, rt.alloc(), BEFORE)?;
    settles(&rt, rt.alloc(), OPENED)
}

#[test]
fn needs_that_open_and_are_declined(rt: HostRuntime) -> Result<(), Fail> {
    settles(&rt, rt.alloc(), LONG_NEED)?;
    settles(&rt, rt.alloc(), LARGE_NEED)
}
