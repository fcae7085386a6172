// The forms that are no offers: every decline with its place.
use crate::read::{FORM, Read, check};
use std::test::*;

// The day.
const DAYS: &[(&str, Read)] = &[
    ("(day 0 1)", Err((7, 6))),
    ("(day 1 1)", FORM),
    ("(day 48 1000)", FORM),
    ("(day 49 1)", Err((7, 6))),
    ("(day 1 0)", Err((7, 8))),
    ("(day 1 1001)", Err((7, 8))),
    ("(day 99 x", Err((7, 6))),
    ("(day x 1)", Err((6, 6))),
    ("(day 1 x)", Err((6, 8))),
    ("(day (1 2)", Err((5, 6))),
    ("(day 1 (2)", Err((5, 8))),
    ("(day 1)", Err((5, 7))),
    ("(day)", Err((5, 5))),
    ("(day -1 1)", Err((7, 6))),
    ("(day 1 2 3)", Err((5, 10))),
];

// Outages.
const OUTAGES: &[(&str, Read)] = &[
    ("(out 0 0 0)", FORM),
    ("(out 2147483647 2147483647 2147483647)", FORM),
    ("(out 2147483648 0 0)", Err((7, 6))),
    ("(out 0 2147483648 0)", Err((7, 8))),
    ("(out 0 0 2147483648)", Err((7, 10))),
    ("(out 0 1)", Err((5, 9))),
    ("(out 0 1 2 3)", Err((5, 12))),
    ("(out x 1 2)", Err((6, 6))),
    ("(out 0 x 2)", Err((6, 8))),
    ("(out 0 1 x)", Err((6, 10))),
    ("(out)", Err((5, 5))),
    ("(out 5 9 3)", FORM),
];

// Rows and schedules.
const ROWS: &[(&str, Read)] = &[
    ("(need)", Err((5, 6))),
    ("(need ", Err((5, 7))),
    ("(need 1", Err((5, 8))),
    ("(need 1 ", Err((5, 9))),
    ("(need 1)", FORM),
    ("(need 1 -2 3)", FORM),
    ("(need x)", Err((6, 7))),
    ("(need 1 x)", Err((6, 9))),
    ("(need 1 ()", Err((5, 9))),
    ("(need 1 2 3", Err((5, 12))),
    ("(need (1))", Err((5, 7))),
    ("(price)", Err((5, 7))),
    ("(price 1)", Err((5, 9))),
    ("(price 1", Err((5, 9))),
    ("(price 1 6)", FORM),
    ("(price 0 0)", FORM),
    ("(price 2147483647 -2147483648)", FORM),
    ("(price 2147483648 1)", Err((7, 8))),
    ("(price -1 6)", Err((7, 8))),
    ("(price 1 x)", Err((6, 10))),
    ("(price x 1)", Err((6, 8))),
    ("(price 1 6) 7", Err((5, 13))),
    ("(run)", Err((5, 5))),
    ("(run 0)", Err((5, 7))),
    ("(run 0 )", Err((5, 8))),
    ("(run 0 (0 8))", FORM),
    ("(run 0 (0 8)(1 -8))", FORM),
    ("(run 0 ( 0 8 ) ( 1 4 ) )", FORM),
    ("(run 0 0 8)", Err((5, 8))),
    ("(run 0 (0 8)", Err((5, 13))),
    ("(run 0 (0 8", Err((5, 12))),
    ("(run 0 (0 8) 5)", Err((5, 14))),
    ("(run 0 (0))", Err((5, 10))),
    ("(run 0 (0 8 1))", Err((5, 13))),
    ("(run 0 (-1 8))", Err((7, 9))),
    ("(run 0 (x 8))", Err((6, 9))),
    ("(run 0 (0 x))", Err((6, 11))),
    ("(run 0 (2147483647 2147483647))", FORM),
    ("(run 0 (2147483648 0))", Err((7, 9))),
    ("(run 0 (0 2147483648))", Err((7, 11))),
    ("(run x (0 8))", Err((6, 6))),
    ("(run 2147483648 (0 8))", Err((7, 6))),
    ("(run 0 ())", Err((5, 9))),
    ("(mix 0 1 (0 4))", FORM),
    ("(mix 0 (0 4))", Err((5, 8))),
    ("(mix 0)", Err((5, 7))),
    ("(mix 0 1)", Err((5, 9))),
    ("(mix 0 0 (0 4))", FORM),
    ("(mix 0 2147483647 (0 4))", FORM),
    ("(mix 0 2147483648 (0 4))", Err((7, 8))),
    ("(mix 0 -1 (0 4))", Err((7, 8))),
    ("(mix 0 x (0 4))", Err((6, 8))),
    ("(mix x 1 (0 4))", Err((6, 6))),
    ("(mix 0 1 (0 4)))", Err((5, 16))),
    ("(mix 0 1 (0 4)) 1", Err((5, 17))),
];

#[test]
fn days(rt: HostRuntime) {
    check(&rt, DAYS);
}

#[test]
fn outages(rt: HostRuntime) {
    check(&rt, OUTAGES);
}

#[test]
fn rows(rt: HostRuntime) {
    check(&rt, ROWS);
}
