// Words and numerals: what is declined at which place.
use crate::read::{BLANK, FORM, Read, check};
use std::test::*;

// Words, blanks and brackets.
const WORDS: &[(&str, Read)] = &[
    ("", BLANK),
    (" ", BLANK),
    ("   ", BLANK),
    ("(", Err((5, 2))),
    (" (", Err((5, 3))),
    ("( ", Err((5, 3))),
    ("(day", Err((5, 5))),
    ("(day ", Err((5, 6))),
    ("(day 1", Err((5, 7))),
    ("(day 1 ", Err((5, 8))),
    ("(day 1 2", Err((5, 9))),
    ("(day 1 2  ", Err((5, 11))),
    ("(day 1 2)", FORM),
    ("(day 1 2) ", FORM),
    ("  (day 1 2)", FORM),
    ("( day  1   2 )", FORM),
    ("(day 1 2))", Err((5, 10))),
    ("(day 1 2) (", Err((5, 11))),
    ("(day 1 2)x", Err((5, 10))),
    ("day 1 2", Err((5, 1))),
    (")", Err((5, 1))),
    ("1", Err((5, 1))),
    ("x", Err((5, 1))),
    ("()", Err((4, 2))),
    ("((day 1 2))", Err((4, 2))),
    ("(1 2)", Err((4, 2))),
    ("(-", Err((4, 2))),
    ("(days 1 2)", Err((4, 2))),
    ("(da y 1 2)", Err((4, 2))),
    ("(day(1 2)", Err((5, 5))),
    ("(day)1 2", Err((5, 5))),
    ("(judge)", FORM),
    ("(judge )", FORM),
    ("(judge", Err((5, 7))),
    ("(judge 1)", Err((5, 8))),
    ("(judge))", Err((5, 8))),
    ("(judge)(judge)", Err((5, 8))),
];

// Numerals where one may stand.
const NUMERALS: &[(&str, Read)] = &[
    ("(supply 0)", FORM),
    ("(supply 9)", FORM),
    ("(supply 10)", FORM),
    ("(supply 2147483647)", FORM),
    ("(supply 2147483648)", Err((7, 9))),
    ("(supply 9999999999)", Err((7, 9))),
    ("(supply 10000000000)", Err((6, 9))),
    ("(supply 00)", Err((6, 9))),
    ("(supply 01)", Err((6, 9))),
    ("(supply -0)", Err((6, 9))),
    ("(supply -1)", Err((7, 9))),
    ("(supply -2147483649)", Err((7, 9))),
    ("(supply -9999999999)", Err((7, 9))),
    ("(supply -10000000000)", Err((6, 9))),
    ("(supply -)", Err((6, 9))),
    ("(supply --1)", Err((6, 9))),
    ("(supply 1-)", Err((6, 9))),
    ("(supply 1a)", Err((6, 9))),
    ("(supply a1)", Err((6, 9))),
    ("(supply 1-1)", Err((6, 9))),
    ("(supply x)", Err((6, 9))),
    ("(supply ()", Err((5, 9))),
    ("(supply )", Err((5, 9))),
    ("(supply", Err((5, 8))),
    ("(supply  ", Err((5, 10))),
    ("(supply 1", Err((5, 10))),
    ("(supply 1 2)", Err((5, 11))),
    ("(show 0)", FORM),
    ("(show 2147483647)", FORM),
    ("(show -1)", Err((7, 7))),
    ("(show 2147483648)", Err((7, 7))),
    ("(show x)", Err((6, 7))),
    ("(show)", Err((5, 6))),
    ("(need 2147483647)", FORM),
    ("(need 2147483648)", Err((7, 7))),
    ("(need -2147483648)", FORM),
    ("(need -2147483649)", Err((7, 7))),
    ("(need -0)", Err((6, 7))),
    ("(need -9999999999)", Err((7, 7))),
];

#[test]
fn words(rt: HostRuntime) {
    check(&rt, WORDS);
}

#[test]
fn numerals(rt: HostRuntime) {
    check(&rt, NUMERALS);
}
