// The offers, word by word, and their numbers against each other.
use crate::files::{Declined, declines, well_formed};
use std::test::*;

// (steam (run LO HI) (rest UP DOWN COLD) (start HOT FROST) (idle N) (steps (Q P) ..) (was on M)), or (was off M).
const STEAM: &[Declined] = &[
    ("(steam", 5, 7),
    ("(steam )", 5, 8),
    ("(steam 1", 5, 8),
    ("(steam (rate 1 10)", 5, 9),
    ("(steam (run lo 10)", 6, 13),
    ("(steam (run 0 10)", 7, 13),
    ("(steam (run 501 10)", 7, 13),
    ("(steam (run 1 )", 5, 15),
    ("(steam (run 1 501)", 7, 15),
    ("(steam (run 1 10 10)", 5, 18),
    ("(steam (run 1 10) )", 5, 19),
    ("(steam (run 1 10) (start", 5, 20),
    ("(steam (run 1 10) (rest 0 1 1)", 7, 25),
    ("(steam (run 1 10) (rest 25 1 1)", 7, 25),
    ("(steam (run 1 10) (rest 1 0 1)", 7, 27),
    ("(steam (run 1 10) (rest 1 25 48)", 7, 27),
    ("(steam (run 1 10) (rest 1 1 )", 5, 29),
    ("(steam (run 1 10) (rest 1 1 x)", 6, 29),
    ("(steam (run 1 10) (rest 1 1 0)", 7, 29),
    ("(steam (run 1 10) (rest 1 1 49)", 7, 29),
    ("(steam (run 1 10) (rest 1 1 1 1)", 5, 31),
    ("(steam (run 1 10) (rest 1 1 1) (start x 0)", 6, 39),
    ("(steam (run 1 10) (rest 1 1 1) (start -1 0)", 7, 39),
    ("(steam (run 1 10) (rest 1 1 1) (start 100000001 0)", 7, 39),
    ("(steam (run 1 10) (rest 1 1 1) (start 0 )", 5, 41),
    ("(steam (run 1 10) (rest 1 1 1) (start 0 100000001)", 7, 41),
    ("(steam (run 1 10) (rest 1 1 1) (start 0 0) (idle )", 5, 50),
    ("(steam (run 1 10) (rest 1 1 1) (start 0 0) (idle x)", 6, 50),
    (
        "(steam (run 1 10) (rest 1 1 1) (start 0 0) (idle -1)",
        7,
        50,
    ),
    (
        "(steam (run 1 10) (rest 1 1 1) (start 0 0) (idle 100000001)",
        7,
        50,
    ),
    (
        "(steam (run 1 10) (rest 1 1 1) (start 0 0) (idle 0 0)",
        5,
        52,
    ),
    (
        "(steam (run 1 10) (rest 1 1 1) (start 0 0) (idle 0) (steps (10 5)) (steps",
        5,
        69,
    ),
    (
        "(steam (run 1 10) (rest 1 1 1) (start 0 0) (idle 0) (steps (10 5)) (was 1)",
        5,
        73,
    ),
    (
        "(steam (run 1 10) (rest 1 1 1) (start 0 0) (idle 0) (steps (10 5)) (was in 1)",
        5,
        73,
    ),
    (
        "(steam (run 1 10) (rest 1 1 1) (start 0 0) (idle 0) (steps (10 5)) (was on )",
        5,
        76,
    ),
    (
        "(steam (run 1 10) (rest 1 1 1) (start 0 0) (idle 0) (steps (10 5)) (was on x)",
        6,
        76,
    ),
    (
        "(steam (run 1 10) (rest 1 1 1) (start 0 0) (idle 0) (steps (10 5)) (was on 0)",
        7,
        76,
    ),
    (
        "(steam (run 1 10) (rest 1 1 1) (start 0 0) (idle 0) (steps (10 5)) (was on 49)",
        7,
        76,
    ),
    (
        "(steam (run 1 10) (rest 1 1 1) (start 0 0) (idle 0) (steps (10 5)) (was off 0)",
        7,
        77,
    ),
    (
        "(steam (run 1 10) (rest 1 1 1) (start 0 0) (idle 0) (steps (10 5)) (was off 49)",
        7,
        77,
    ),
    (
        "(steam (run 1 10) (rest 1 1 1) (start 0 0) (idle 0) (steps (10 5)) (was off 1 1)",
        5,
        79,
    ),
    (
        "(steam (run 1 10) (rest 1 1 1) (start 0 0) (idle 0) (steps (10 5)) (was on 1)",
        5,
        78,
    ),
    (
        "(steam (run 1 10) (rest 1 1 1) (start 0 0) (idle 0) (steps (10 5)) (was on 1)) x",
        5,
        80,
    ),
];

// (buyer (steps (Q P) ..)), and the prices that a buyer may not have.
const STEPS: &[Declined] = &[
    ("(buyer", 5, 7),
    ("(buyer )", 5, 8),
    ("(buyer (flow", 5, 9),
    ("(buyer (steps )", 5, 15),
    ("(buyer (steps 1 1)", 5, 15),
    ("(buyer (steps ()", 5, 16),
    ("(buyer (steps (x 1)", 6, 16),
    ("(buyer (steps (0 1)", 7, 16),
    ("(buyer (steps (501 1)", 7, 16),
    ("(buyer (steps (1 )", 5, 18),
    ("(buyer (steps (1 x)", 6, 18),
    ("(buyer (steps (1 500001)", 7, 18),
    ("(buyer (steps (1 -1)", 7, 18),
    ("(buyer (steps (1 1 1)", 5, 20),
    ("(buyer (steps (1 1)", 5, 20),
    ("(buyer (steps (1 1) x", 5, 21),
    ("(buyer (steps (1 1) 7", 5, 21),
    ("(buyer (steps (1 1) (1 1) (1 1) (1 1) (1 1)))", 5, 39),
    ("(buyer (steps (1 1) (1 1) (1 1) (1 1) x", 5, 39),
    ("(buyer (steps (1 1))", 5, 21),
    ("(buyer (steps (1 1)) (steps", 5, 22),
    (
        "(steam (run 1 10) (rest 1 1 1) (start 0 0) (idle 0) (steps (10 500001))",
        7,
        64,
    ),
    (
        "(steam (run 1 10) (rest 1 1 1) (start 0 0) (idle 0) (steps (10 -500001))",
        7,
        64,
    ),
];

// (ramp (run LO HI) (rate V B) (start S) (idle N) (steps (Q P) ..) (was A))
const RAMP: &[Declined] = &[
    ("(ramp", 5, 6),
    ("(ramp x", 5, 7),
    ("(ramp (full", 5, 8),
    ("(ramp (run 20 30) (rest", 5, 20),
    ("(ramp (run 20 30) (rate 0 24)", 7, 25),
    ("(ramp (run 20 30) (rate 501 24)", 7, 25),
    ("(ramp (run 20 30) (rate 5 0)", 7, 27),
    ("(ramp (run 20 30) (rate 5 501)", 7, 27),
    ("(ramp (run 20 30) (rate 5 24 24)", 5, 30),
    ("(ramp (run 20 30) (rate 5 24) (start 7 7)", 5, 40),
    ("(ramp (run 20 30) (rate 5 24) (start 100000001)", 7, 38),
    ("(ramp (run 20 30) (rate 5 24) (start 7) (idle -1)", 7, 47),
    (
        "(ramp (run 20 30) (rate 5 24) (start 7) (idle 3) (steps (20 2) (10 4)) (was on 1)",
        6,
        77,
    ),
    (
        "(ramp (run 20 30) (rate 5 24) (start 7) (idle 3) (steps (20 2) (10 4)) (was )",
        5,
        77,
    ),
    (
        "(ramp (run 20 30) (rate 5 24) (start 7) (idle 3) (steps (20 2) (10 4)) (was -1)",
        7,
        77,
    ),
    (
        "(ramp (run 20 30) (rate 5 24) (start 7) (idle 3) (steps (20 2) (10 4)) (was 501)",
        7,
        77,
    ),
    (
        "(ramp (run 20 30) (rate 5 24) (start 7) (idle 3) (steps (20 2) (10 4)) (was 20 1)",
        5,
        80,
    ),
    (
        "(ramp (run 20 30) (rate 5 24) (start 7) (idle 3) (steps (20 2) (10 4)) (was 20)",
        5,
        80,
    ),
    (
        "(ramp (run 20 30) (rate 5 24) (start 7) (idle 3) (steps (20 2) (10 4)) (was 20) (end 1))",
        5,
        81,
    ),
];

// (lake (full C) (flow G R) (wear Y) (was L) (end E))
const LAKE: &[Declined] = &[
    ("(lake", 5, 6),
    ("(lake (run", 5, 8),
    ("(lake (full 0)", 7, 13),
    ("(lake (full 80)", 7, 13),
    ("(lake (full x)", 6, 13),
    ("(lake (full 10) (flow -1 2)", 7, 23),
    ("(lake (full 10) (flow 80 2)", 7, 23),
    ("(lake (full 10) (flow 2 80)", 7, 25),
    ("(lake (full 10) (flow 2 )", 5, 25),
    ("(lake (full 10) (flow 2 2) (wear 100001)", 7, 34),
    ("(lake (full 10) (flow 2 2) (wear -1)", 7, 34),
    ("(lake (full 10) (flow 2 2) (wear 0) (end 0)", 5, 38),
    ("(lake (full 10) (flow 2 2) (wear 0) (was 80)", 7, 42),
    ("(lake (full 10) (flow 2 2) (wear 0) (was on 1)", 6, 42),
    (
        "(lake (full 10) (flow 2 2) (wear 0) (was 0) (end 80)",
        7,
        50,
    ),
    ("(lake (full 10) (flow 2 2) (wear 0) (was 0))", 5, 44),
    ("(lake (full 10) (flow 2 2) (wear 0) (was 0) (end 5)", 5, 52),
];

// Every number at the ends of its range.
const WIDEST: &[&str] = &[
    "(steam (run 1 1) (rest 1 1 1) (start 0 0) (idle 0) (steps (1 -500000)) (was off 1))",
    "(steam (run 500 500) (rest 24 24 48) (start 100000000 100000000) (idle 100000000) (steps (500 500000)) (was on 48))",
    "(steam (run 1 500) (rest 1 24 24) (start 0 1) (idle 0) (steps (1 5) (1 5) (1 5) (497 5)) (was off 48))",
    "(ramp (run 422 500) (rate 1 500) (start 0) (idle 0) (steps (500 500000)) (was 500))",
    "(ramp (run 1 79) (rate 500 1) (start 100000000) (idle 100000000) (steps (79 -500000)) (was 0))",
    "(ramp (run 5 5) (rate 1 5) (start 0) (idle 0) (steps (5 0)) (was 5))",
    "(lake (full 1) (flow 0 0) (wear 0) (was 0) (end 0))",
    "(lake (full 79) (flow 79 79) (wear 100000) (was 79) (end 79))",
    "(lake (full 3) (flow 4 5) (wear 1) (was 3) (end 3))",
    "(buyer (steps (1 0)))",
    "(buyer (steps (500 500000)))",
    "(buyer (steps (1 1) (2 2) (3 3) (494 4)))",
];

// Numbers that disagree, with all in their ranges.
const DISAGREEING: &[Declined] = &[
    (
        "(steam (run 2 1) (rest 1 1 1) (start 0 0) (idle 0) (steps (1 5)) (was on 1))",
        8,
        1,
    ),
    (
        "(steam (run 1 10) (rest 1 2 1) (start 0 0) (idle 0) (steps (10 5)) (was on 1))",
        8,
        1,
    ),
    (
        "(steam (run 1 10) (rest 1 1 1) (start 0 0) (idle 0) (steps (9 5)) (was on 1))",
        8,
        1,
    ),
    (
        "(steam (run 1 10) (rest 1 1 1) (start 0 0) (idle 0) (steps (10 5) (1 5)) (was on 1))",
        8,
        1,
    ),
    (
        "(steam (run 1 10) (rest 1 1 1) (start 0 0) (idle 0) (steps (500 5) (500 5) (500 5) (500 5)) (was on 1))",
        8,
        1,
    ),
    (
        "(ramp (run 30 29) (rate 5 30) (start 0) (idle 0) (steps (29 1)) (was 0))",
        8,
        1,
    ),
    (
        "(ramp (run 1 80) (rate 5 30) (start 0) (idle 0) (steps (80 1)) (was 0))",
        8,
        1,
    ),
    (
        "(ramp (run 20 30) (rate 5 19) (start 0) (idle 0) (steps (30 1)) (was 0))",
        8,
        1,
    ),
    (
        "(ramp (run 20 30) (rate 5 20) (start 0) (idle 0) (steps (30 1)) (was 19))",
        8,
        1,
    ),
    (
        "(ramp (run 20 30) (rate 5 20) (start 0) (idle 0) (steps (30 1)) (was 31))",
        8,
        1,
    ),
    (
        "(ramp (run 20 30) (rate 5 20) (start 0) (idle 0) (steps (20 1)) (was 20))",
        8,
        1,
    ),
    ("(lake (full 9) (flow 2 2) (wear 0) (was 10) (end 5))", 8, 1),
    ("(lake (full 9) (flow 2 2) (wear 0) (was 5) (end 10))", 8, 1),
    ("(buyer (steps (500 1) (1 1)))", 8, 1),
];

// The words come first, and then 8, at place 1 even where blanks stand first.
const BEFORE_EIGHT: &[Declined] = &[
    (
        "(lake (full 9) (flow 2 2) (wear 0) (was 10) (end 5)) x",
        5,
        54,
    ),
    (
        "(lake (full 9) (flow 2 2) (wear 0) (was 10) (end 80))",
        7,
        50,
    ),
    ("(lake (full 9) (flow 2 2) (wear 0) (was 10) (end 5)", 5, 52),
];

const AFTER_BLANKS: &[Declined] = &[
    (
        "   (lake (full 9) (flow 2 2) (wear 0) (was 10) (end 5))",
        8,
        1,
    ),
    ("   (judge)", 9, 1),
];

#[test]
fn steam_and_steps(rt: HostRuntime) -> Result<(), Fail> {
    declines(&rt, rt.alloc(), STEAM)?;
    declines(&rt, rt.alloc(), STEPS)
}

#[test]
fn ramp_and_lake(rt: HostRuntime) -> Result<(), Fail> {
    declines(&rt, rt.alloc(), RAMP)?;
    declines(&rt, rt.alloc(), LAKE)
}

#[test]
fn ranges_and_agreement(rt: HostRuntime) -> Result<(), Fail> {
    well_formed(&rt, rt.alloc(), WIDEST)?;
    declines(&rt, rt.alloc(), DISAGREEING)?;
    declines(&rt, rt.alloc(), BEFORE_EIGHT)?;
    declines(&rt, rt.alloc(), AFTER_BLANKS)
}
