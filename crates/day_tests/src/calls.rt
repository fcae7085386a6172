// The docket's forms in a day file: each decline with its place, the lowest number first where several apply.
use crate::days::{FIRST, SECOND};
use crate::files::Reply::{No, Nothing, Text};
use crate::files::{Reply, settles};
use std::test::*;

// Two periods, two units, a weight of 3. State 0 is on, state 1 is off.
const ROWS: &[(&str, Reply)] = &[
    ("(day 2 3)", Nothing),
    (FIRST, Nothing),
    (SECOND, Nothing),
    ("(need -32000 32000)", Nothing),
    ("(need 0 0)", No("docket", 21, 0)),
    ("(run 9 (0 8))", No("docket", 21, 9)),
    ("(mix 9 0 (0 8))", No("docket", 21, 9)),
    ("(supply 2147483647)", No("docket", 21, 2_147_483_647)),
    ("(show 9)", No("docket", 21, 9)),
    ("(judge)", No("docket", 21, 0)),
    ("(price 0 1000000001)", No("docket", 22, 0)),
    ("(price 1 6 6 6)", No("docket", 22, 0)),
    ("(price 0 -1000000001 6)", No("docket", 23, 0)),
    ("(price 0 6 1000000001)", No("docket", 23, 1)),
    ("(price 0 6 6)", No("docket", 23, 2)),
    ("(price 1001 6 6)", No("docket", 23, 2)),
    ("(price 1000 -1000000000 1000000000)", Nothing),
    ("(price 1000 1 1)", No("docket", 21, 0)),
    ("(price 0 1)", No("docket", 21, 0)),
    ("(need 0 0)", No("docket", 21, 0)),
];

const RUNS: &[(&str, Reply)] = &[
    ("(day 2 3)", Nothing),
    (FIRST, Nothing),
    (SECOND, Nothing),
    ("(need 12 12)", Nothing),
    ("(price 1 6 6)", Nothing),
    ("(run 2 (9 9))", No("docket", 24, 2)),
    ("(run 0 (0 8))", No("docket", 26, 0)),
    ("(run 0 (0 8) (0 8) (0 8))", No("docket", 26, 0)),
    ("(run 0 (0 11) (0 8))", No("docket", 27, 0)),
    ("(run 0 (2 0) (0 8))", No("docket", 27, 0)),
    ("(run 0 (0 8) (1 8))", No("docket", 27, 1)),
    ("(run 0 (0 8) (0 0))", No("docket", 27, 1)),
    ("(run 0 (0 8) (2147483647 0))", No("docket", 27, 1)),
    ("(mix 0 0 (0 8) (0 8))", No("docket", 28, 0)),
    ("(run 0 (0 8) (0 8))", Nothing),
    ("(run 0 (9 9))", No("docket", 25, 0)),
    ("(run 0 (0 8) (0 8))", No("docket", 25, 0)),
    ("(mix 2 0 (9 9))", No("docket", 24, 2)),
    ("(mix 1 0 (9 9))", No("docket", 26, 1)),
    ("(mix 1 0 (9 9) (0 4))", No("docket", 27, 0)),
    ("(mix 1 0 (0 4) (0 4))", No("docket", 28, 1)),
    ("(mix 0 0 (0 8) (0 11))", No("docket", 27, 1)),
    ("(mix 0 0 (0 8) (0 8))", No("docket", 29, 0)),
    ("(mix 0 4 (0 8) (0 8))", No("docket", 29, 0)),
    ("(mix 0 2147483647 (0 8) (0 8))", No("docket", 29, 0)),
    ("(mix 0 2 (0 8) (0 8))", Nothing),
    ("(mix 0 2 (0 8) (0 8))", No("docket", 29, 0)),
    ("(mix 0 1 (0 8) (0 8))", Nothing),
    ("(mix 0 1 (0 8) (0 8))", No("docket", 29, 0)),
    ("(supply 2)", No("docket", 24, 2)),
    ("(show 2147483647)", No("docket", 24, 2_147_483_647)),
    ("(judge)", No("docket", 41, 1)),
];

// Runs that miss the second need; mixes that weigh too little, and then miss it.
const MISSED_BY_RUNS: &[(&str, Reply)] = &[
    ("(day 2 1)", Nothing),
    (FIRST, Nothing),
    (SECOND, Nothing),
    ("(need 12 8)", Nothing),
    ("(price 1 6 6)", Nothing),
    ("(judge)", No("docket", 41, 0)),
    ("(run 1 (0 4) (0 4))", Nothing),
    ("(judge)", No("docket", 41, 0)),
    ("(run 0 (0 8) (0 8))", Nothing),
    ("(judge)", No("docket", 42, 1)),
];

const MISSED_BY_MIXES: &[(&str, Reply)] = &[
    ("(day 2 2)", Nothing),
    (FIRST, Nothing),
    (SECOND, Nothing),
    ("(need 12 12)", Nothing),
    ("(price 1 6 6)", Nothing),
    ("(run 1 (0 4) (0 4))", Nothing),
    ("(run 0 (0 8) (0 8))", Nothing),
    ("(judge)", No("docket", 43, 0)),
    ("(mix 0 1 (0 8) (0 7))", Nothing),
    ("(judge)", No("docket", 43, 0)),
    ("(mix 0 1 (0 8) (0 8))", Nothing),
    ("(judge)", No("docket", 43, 1)),
    ("(mix 1 2 (0 4) (0 4))", Nothing),
    ("(judge)", No("docket", 44, 1)),
    ("(supply 1)", Text("(supply 1 16 8 8)")),
];

#[test]
fn rows_runs_and_mixes(rt: HostRuntime) -> Result<(), Fail> {
    settles(&rt, rt.alloc(), ROWS)?;
    settles(&rt, rt.alloc(), RUNS)
}

#[test]
fn evidence(rt: HostRuntime) -> Result<(), Fail> {
    settles(&rt, rt.alloc(), MISSED_BY_RUNS)?;
    settles(&rt, rt.alloc(), MISSED_BY_MIXES)
}
