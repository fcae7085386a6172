// Offers: every decline with its place, the edges of every range, and numbers that disagree.
use crate::read::{FORM, Read, check};
use std::test::*;

// Steam units.
const STEAM: &[(&str, Read)] = &[
    (
        "(steam (run 1 10) (rest 1 1 1) (start 0 0) (idle 0) (steps (10 5)) (was on 1))",
        FORM,
    ),
    (
        "(steam (run 1 10) (rest 1 1 1) (start 0 0) (idle 0) (steps (10 5)) (was off 1))",
        FORM,
    ),
    (
        "(steam (run 1 10) (rest 1 1 1) (start 0 0) (idle 0) (steps (5 5) (5 -5)) (was on 1))",
        FORM,
    ),
    (
        "(steam (run 1 10) (rest 1 1 1) (start 0 0) (idle 0) (steps (4 1) (3 2) (2 3) (1 4)) (was on 1))",
        FORM,
    ),
    (
        "(steam (run 1 10) (rest 1 1 1) (start 0 0) (idle 0) (steps (4 1) (3 2) (2 3) (1 4) (1 5)) (was on 1))",
        Err((5, 84)),
    ),
    (
        "(steam (run 1 10) (rest 1 1 1) (start 0 0) (idle 0) (steps (4 1) (3 2) (2 3) (1 4) 5) (was on 1))",
        Err((5, 84)),
    ),
    (
        "(steam (run 1 10) (rest 1 1 1) (start 0 0) (idle 0) (steps ) (was on 1))",
        Err((5, 60)),
    ),
    (
        "(steam (run 1 10) (rest 1 1 1) (start 0 0) (idle 0) (steps 10 5) (was on 1))",
        Err((5, 60)),
    ),
    (
        "(steam (run 1 10) (rest 1 1 1) (start 0 0) (idle 0) (steps (11 5)) (was on 1))",
        Err((8, 1)),
    ),
    (
        "(steam (run 1 10) (rest 1 1 1) (start 0 0) (idle 0) (steps (0 5)) (was on 1))",
        Err((7, 61)),
    ),
    (
        "(steam (run 1 10) (rest 1 1 1) (start 0 0) (idle 0) (steps (501 5)) (was on 1))",
        Err((7, 61)),
    ),
    (
        "(steam (run 1 10) (rest 1 1 1) (start 0 0) (idle 0) (steps (10 500001)) (was on 1))",
        Err((7, 64)),
    ),
    (
        "(steam (run 1 10) (rest 1 1 1) (start 0 0) (idle 0) (steps (10 -500001)) (was on 1))",
        Err((7, 64)),
    ),
    (
        "(steam (run 1 10) (rest 1 1 1) (start 0 0) (idle 0) (steps (10 500000)) (was on 1))",
        FORM,
    ),
    (
        "(steam (run 1 10) (rest 1 1 1) (start 0 0) (idle 0) (steps (10 -500000)) (was on 1))",
        FORM,
    ),
    (
        "(steam (run 1 10) (rest 1 1 1) (start 0 0) (idle 0) (steps (x 5)) (was on 1))",
        Err((6, 61)),
    ),
    (
        "(steam (run 1 10) (rest 1 1 1) (start 0 0) (idle 0) (steps (10 x)) (was on 1))",
        Err((6, 64)),
    ),
    (
        "(steam (run 1 10) (rest 1 1 1) (start 0 0) (idle 0) (steps (10)) (was on 1))",
        Err((5, 63)),
    ),
    (
        "(steam (run 10 1) (rest 1 1 1) (start 0 0) (idle 0) (steps (10 5)) (was on 1))",
        Err((8, 1)),
    ),
    (
        "(steam (run 11 10) (rest 1 1 1) (start 0 0) (idle 0) (steps (10 5)) (was on 1))",
        Err((8, 1)),
    ),
    (
        "(steam (run 10 10) (rest 1 1 1) (start 0 0) (idle 0) (steps (10 5)) (was on 1))",
        FORM,
    ),
    (
        "(steam (run 0 10) (rest 1 1 1) (start 0 0) (idle 0) (steps (10 5)) (was on 1))",
        Err((7, 13)),
    ),
    (
        "(steam (run 1 501) (rest 1 1 1) (start 0 0) (idle 0) (steps (10 5)) (was on 1))",
        Err((7, 15)),
    ),
    (
        "(steam (run 1) (rest 1 1 1) (start 0 0) (idle 0) (steps (10 5)) (was on 1))",
        Err((5, 14)),
    ),
    (
        "(steam (run 1 2 3) (rest 1 1 1) (start 0 0) (idle 0) (steps (10 5)) (was on 1))",
        Err((5, 17)),
    ),
    (
        "(steam (rub 1 10) (rest 1 1 1) (start 0 0) (idle 0) (steps (10 5)) (was on 1))",
        Err((5, 9)),
    ),
    (
        "(steam run 1 10 (rest 1 1 1) (start 0 0) (idle 0) (steps (10 5)) (was on 1))",
        Err((5, 8)),
    ),
    (
        "(steam (run x 10) (rest 1 1 1) (start 0 0) (idle 0) (steps (10 5)) (was on 1))",
        Err((6, 13)),
    ),
    (
        "(steam (1 10) (rest 1 1 1) (start 0 0) (idle 0) (steps (10 5)) (was on 1))",
        Err((5, 9)),
    ),
    (
        "(steam (run 1 10) (rest 24 24 48) (start 0 0) (idle 0) (steps (10 5)) (was on 1))",
        FORM,
    ),
    (
        "(steam (run 1 10) (rest 25 1 1) (start 0 0) (idle 0) (steps (10 5)) (was on 1))",
        Err((7, 25)),
    ),
    (
        "(steam (run 1 10) (rest 1 25 1) (start 0 0) (idle 0) (steps (10 5)) (was on 1))",
        Err((7, 27)),
    ),
    (
        "(steam (run 1 10) (rest 1 1 49) (start 0 0) (idle 0) (steps (10 5)) (was on 1))",
        Err((7, 29)),
    ),
    (
        "(steam (run 1 10) (rest 0 1 1) (start 0 0) (idle 0) (steps (10 5)) (was on 1))",
        Err((7, 25)),
    ),
    (
        "(steam (run 1 10) (rest 1 0 1) (start 0 0) (idle 0) (steps (10 5)) (was on 1))",
        Err((7, 27)),
    ),
    (
        "(steam (run 1 10) (rest 1 1 0) (start 0 0) (idle 0) (steps (10 5)) (was on 1))",
        Err((7, 29)),
    ),
    (
        "(steam (run 1 10) (rest 1 2 1) (start 0 0) (idle 0) (steps (10 5)) (was on 1))",
        Err((8, 1)),
    ),
    (
        "(steam (run 1 10) (rest 1 2 2) (start 0 0) (idle 0) (steps (10 5)) (was on 1))",
        FORM,
    ),
    (
        "(steam (run 1 10) (rest 1 1) (start 0 0) (idle 0) (steps (10 5)) (was on 1))",
        Err((5, 28)),
    ),
    (
        "(steam (run 1 10) (rest 1 1 1 1) (start 0 0) (idle 0) (steps (10 5)) (was on 1))",
        Err((5, 31)),
    ),
    (
        "(steam (run 1 10) (rest 1 1 1) (start 100000000 100000000) (idle 0) (steps (10 5)) (was on 1))",
        FORM,
    ),
    (
        "(steam (run 1 10) (rest 1 1 1) (start 100000001 0) (idle 0) (steps (10 5)) (was on 1))",
        Err((7, 39)),
    ),
    (
        "(steam (run 1 10) (rest 1 1 1) (start 0 100000001) (idle 0) (steps (10 5)) (was on 1))",
        Err((7, 41)),
    ),
    (
        "(steam (run 1 10) (rest 1 1 1) (start -1 0) (idle 0) (steps (10 5)) (was on 1))",
        Err((7, 39)),
    ),
    (
        "(steam (run 1 10) (rest 1 1 1) (start 0) (idle 0) (steps (10 5)) (was on 1))",
        Err((5, 40)),
    ),
    (
        "(steam (run 1 10) (rest 1 1 1) (start 0 0) (idle 100000000) (steps (10 5)) (was on 1))",
        FORM,
    ),
    (
        "(steam (run 1 10) (rest 1 1 1) (start 0 0) (idle 100000001) (steps (10 5)) (was on 1))",
        Err((7, 50)),
    ),
    (
        "(steam (run 1 10) (rest 1 1 1) (start 0 0) (idle) (steps (10 5)) (was on 1))",
        Err((5, 49)),
    ),
    (
        "(steam (run 1 10) (rest 1 1 1) (start 0 0) (steps (10 5)) (was on 1))",
        Err((5, 45)),
    ),
    (
        "(steam (run 1 10) (rest 1 1 1) (start 0 0) (idle 0) (steps (10 5)) (was on 48))",
        FORM,
    ),
    (
        "(steam (run 1 10) (rest 1 1 1) (start 0 0) (idle 0) (steps (10 5)) (was on 49))",
        Err((7, 76)),
    ),
    (
        "(steam (run 1 10) (rest 1 1 1) (start 0 0) (idle 0) (steps (10 5)) (was on 0))",
        Err((7, 76)),
    ),
    (
        "(steam (run 1 10) (rest 1 1 1) (start 0 0) (idle 0) (steps (10 5)) (was off 48))",
        FORM,
    ),
    (
        "(steam (run 1 10) (rest 1 1 1) (start 0 0) (idle 0) (steps (10 5)) (was off 49))",
        Err((7, 77)),
    ),
    (
        "(steam (run 1 10) (rest 1 1 1) (start 0 0) (idle 0) (steps (10 5)) (was 1))",
        Err((5, 73)),
    ),
    (
        "(steam (run 1 10) (rest 1 1 1) (start 0 0) (idle 0) (steps (10 5)) (was on))",
        Err((5, 75)),
    ),
    (
        "(steam (run 1 10) (rest 1 1 1) (start 0 0) (idle 0) (steps (10 5)) (was on off 1))",
        Err((6, 76)),
    ),
    (
        "(steam (run 1 10) (rest 1 1 1) (start 0 0) (idle 0) (steps (10 5)) (was onn 1))",
        Err((5, 73)),
    ),
    (
        "(steam (run 1 10) (rest 1 1 1) (start 0 0) (idle 0) (steps (10 5)) (was on x))",
        Err((6, 76)),
    ),
    (
        "(steam (run 1 10) (rest 1 1 1) (start 0 0) (idle 0) (steps (10 5)) (was ))",
        Err((5, 73)),
    ),
    (
        "(steam (run 1 10) (rest 1 1 1) (start 0 0) (idle 0) (steps (10 5)) (was on 1)",
        Err((5, 78)),
    ),
    (
        "(steam (run 1 10) (rest 1 1 1) (start 0 0) (idle 0) (steps (10 5)) (was on 1",
        Err((5, 77)),
    ),
    (
        "(steam (run 1 10) (rest 1 1 1) (start 0 0) (idle 0) (steps (10 5)) (was on 1)))",
        Err((5, 79)),
    ),
    (
        "(steam (run 1 10) (rest 1 1 1) (start 0 0) (idle 0) (steps (10 5)) (was on 1)) 1",
        Err((5, 80)),
    ),
    (
        "(steam (run 10 1) (rest 1 1 1) (start 0 0) (idle 0) (steps (10 5)) (was on 1)",
        Err((5, 78)),
    ),
    ("(steam)", Err((5, 7))),
    ("(steam", Err((5, 7))),
    ("(steam (", Err((5, 9))),
];

// Ramp units.
const RAMP: &[(&str, Read)] = &[
    (
        "(ramp (run 20 40) (rate 5 30) (start 7) (idle 3) (steps (30 5) (10 6)) (was 0))",
        FORM,
    ),
    (
        "(ramp (run 40 20) (rate 5 30) (start 7) (idle 3) (steps (30 5) (10 6)) (was 0))",
        Err((8, 1)),
    ),
    (
        "(ramp (run 1 79) (rate 5 30) (start 7) (idle 3) (steps (79 5)) (was 0))",
        FORM,
    ),
    (
        "(ramp (run 1 80) (rate 5 30) (start 7) (idle 3) (steps (80 5)) (was 0))",
        Err((8, 1)),
    ),
    (
        "(ramp (run 422 500) (rate 500 500) (start 7) (idle 3) (steps (500 5)) (was 500))",
        FORM,
    ),
    (
        "(ramp (run 20 40) (rate 5 20) (start 7) (idle 3) (steps (30 5) (10 6)) (was 0))",
        FORM,
    ),
    (
        "(ramp (run 20 40) (rate 5 19) (start 7) (idle 3) (steps (30 5) (10 6)) (was 0))",
        Err((8, 1)),
    ),
    (
        "(ramp (run 20 40) (rate 1 500) (start 7) (idle 3) (steps (30 5) (10 6)) (was 0))",
        FORM,
    ),
    (
        "(ramp (run 20 40) (rate 0 30) (start 7) (idle 3) (steps (30 5) (10 6)) (was 0))",
        Err((7, 25)),
    ),
    (
        "(ramp (run 20 40) (rate 501 30) (start 7) (idle 3) (steps (30 5) (10 6)) (was 0))",
        Err((7, 25)),
    ),
    (
        "(ramp (run 20 40) (rate 5 501) (start 7) (idle 3) (steps (30 5) (10 6)) (was 0))",
        Err((7, 27)),
    ),
    (
        "(ramp (run 20 40) (rate 5 0) (start 7) (idle 3) (steps (30 5) (10 6)) (was 0))",
        Err((7, 27)),
    ),
    (
        "(ramp (run 20 40) (rate 5) (start 7) (idle 3) (steps (30 5) (10 6)) (was 0))",
        Err((5, 26)),
    ),
    (
        "(ramp (run 20 40) (rate 5 30 6 31) (start 7) (idle 3) (steps (30 5) (10 6)) (was 0))",
        Err((5, 30)),
    ),
    (
        "(ramp (run 20 40) (rate 5 30) (start 100000001) (idle 3) (steps (30 5) (10 6)) (was 0))",
        Err((7, 38)),
    ),
    (
        "(ramp (run 20 40) (rate 5 30) (start 7 7) (idle 3) (steps (30 5) (10 6)) (was 0))",
        Err((5, 40)),
    ),
    (
        "(ramp (run 20 40) (rate 5 30) (start 7) (idle -3) (steps (30 5) (10 6)) (was 0))",
        Err((7, 47)),
    ),
    (
        "(ramp (run 20 40) (rate 5 30) (start 7) (idle 3) (steps (30 5) (10 6)) (was 20))",
        FORM,
    ),
    (
        "(ramp (run 20 40) (rate 5 30) (start 7) (idle 3) (steps (30 5) (10 6)) (was 40))",
        FORM,
    ),
    (
        "(ramp (run 20 40) (rate 5 30) (start 7) (idle 3) (steps (30 5) (10 6)) (was 19))",
        Err((8, 1)),
    ),
    (
        "(ramp (run 20 40) (rate 5 30) (start 7) (idle 3) (steps (30 5) (10 6)) (was 41))",
        Err((8, 1)),
    ),
    (
        "(ramp (run 20 40) (rate 5 30) (start 7) (idle 3) (steps (30 5) (10 6)) (was 500))",
        Err((8, 1)),
    ),
    (
        "(ramp (run 20 40) (rate 5 30) (start 7) (idle 3) (steps (30 5) (10 6)) (was 501))",
        Err((7, 77)),
    ),
    (
        "(ramp (run 20 40) (rate 5 30) (start 7) (idle 3) (steps (30 5) (10 6)) (was -1))",
        Err((7, 77)),
    ),
    (
        "(ramp (run 20 40) (rate 5 30) (start 7) (idle 3) (steps (30 5) (10 6)) (was on 1))",
        Err((6, 77)),
    ),
    (
        "(ramp (run 20 40) (rate 5 30) (start 7) (idle 3) (steps (30 5) (9 6)) (was 0))",
        Err((8, 1)),
    ),
    (
        "(ramp (run 20 40) (rate 5 30) (start 7) (idle 3) (steps (30 5) (11 6)) (was 0))",
        Err((8, 1)),
    ),
    (
        "(ramp (run 20 40) (rate 5 30) (start 7) (idle 3) (steps (30 5)) (was 0))",
        Err((8, 1)),
    ),
    (
        "(ramp (run 20 40) (rate 5 30) (start 7) (idle 3) (steps (30 5) (10 6)) (was 0)",
        Err((5, 79)),
    ),
    (
        "(ramp (run 20 40) (rate 5 30) (start 7) (idle 3) (steps (30 5) (10 6)) (was 0))x",
        Err((5, 80)),
    ),
    ("(ramp)", Err((5, 6))),
];

// Lakes.
const LAKE: &[(&str, Read)] = &[
    ("(lake (full 79) (flow 5 2) (wear 3) (was 0) (end 5))", FORM),
    (
        "(lake (full 1) (flow 5 2) (wear 3) (was 0) (end 5))",
        Err((8, 1)),
    ),
    ("(lake (full 5) (flow 5 2) (wear 3) (was 0) (end 5))", FORM),
    (
        "(lake (full 4) (flow 5 2) (wear 3) (was 0) (end 5))",
        Err((8, 1)),
    ),
    (
        "(lake (full 0) (flow 5 2) (wear 3) (was 0) (end 5))",
        Err((7, 13)),
    ),
    (
        "(lake (full 80) (flow 5 2) (wear 3) (was 0) (end 5))",
        Err((7, 13)),
    ),
    (
        "(lake (full 79) (flow 79 79) (wear 3) (was 0) (end 5))",
        FORM,
    ),
    ("(lake (full 79) (flow 0 0) (wear 3) (was 0) (end 5))", FORM),
    (
        "(lake (full 79) (flow 80 2) (wear 3) (was 0) (end 5))",
        Err((7, 23)),
    ),
    (
        "(lake (full 79) (flow 5 80) (wear 3) (was 0) (end 5))",
        Err((7, 25)),
    ),
    (
        "(lake (full 79) (flow -1 2) (wear 3) (was 0) (end 5))",
        Err((7, 23)),
    ),
    (
        "(lake (full 79) (flow 5) (wear 3) (was 0) (end 5))",
        Err((5, 24)),
    ),
    (
        "(lake (full 79) (flow 5 2) (wear 100000) (was 0) (end 5))",
        FORM,
    ),
    (
        "(lake (full 79) (flow 5 2) (wear 100001) (was 0) (end 5))",
        Err((7, 34)),
    ),
    (
        "(lake (full 79) (flow 5 2) (wear 3) (was 79) (end 5))",
        FORM,
    ),
    (
        "(lake (full 79) (flow 5 2) (wear 3) (was 80) (end 5))",
        Err((7, 42)),
    ),
    (
        "(lake (full 4) (flow 5 2) (wear 3) (was 5) (end 0))",
        Err((8, 1)),
    ),
    (
        "(lake (full 79) (flow 5 2) (wear 3) (was 0) (end 79))",
        FORM,
    ),
    (
        "(lake (full 79) (flow 5 2) (wear 3) (was 0) (end 80))",
        Err((7, 50)),
    ),
    (
        "(lake (full 79) (flow 5 2) (wear 3) (was 0) (end))",
        Err((5, 49)),
    ),
    (
        "(lake (full 79) (flow 5 2) (wear 3) (was 0) (and 5))",
        Err((5, 46)),
    ),
    (
        "(lake (full 79) (flow 5 2) (wear 3) (was 0) (end 5)",
        Err((5, 52)),
    ),
    (
        "(lake (full 79) (flow 5 2) (wear 3) (was 0) (end 5))(",
        Err((5, 53)),
    ),
    ("(lake 1)", Err((5, 7))),
];

// Buyers.
const BUYER: &[(&str, Read)] = &[
    ("(buyer (steps (3 5) (2 4)))", FORM),
    ("(buyer (steps (3 -1) (2 4)))", Err((7, 18))),
    ("(buyer (steps (3 0) (2 4)))", FORM),
    ("(buyer (steps (3 500000) (2 4)))", FORM),
    ("(buyer (steps (3 500001) (2 4)))", Err((7, 18))),
    ("(buyer (steps (498 5) (2 4)))", FORM),
    ("(buyer (steps (499 5) (2 4)))", Err((8, 1))),
    ("(buyer (steps (200 1) (200 1) (100 1)))", FORM),
    ("(buyer (steps (200 1) (200 1) (100 1) (1 1)))", Err((8, 1))),
    (
        "(buyer (steps (1 1) (1 1) (1 1) (1 1) (1 1)))",
        Err((5, 39)),
    ),
    ("(buyer (steps))", Err((5, 14))),
    ("(buyer steps)", Err((5, 8))),
    ("(buyer (steps (1 1)))x", Err((5, 22))),
    ("(buyer (steps (1 1))", Err((5, 21))),
    ("(buyer", Err((5, 7))),
];

#[test]
fn steam(rt: HostRuntime) {
    check(&rt, STEAM);
}

#[test]
fn ramp(rt: HostRuntime) {
    check(&rt, RAMP);
}

#[test]
fn lake(rt: HostRuntime) {
    check(&rt, LAKE);
}

#[test]
fn buyer(rt: HostRuntime) {
    check(&rt, BUYER);
}
