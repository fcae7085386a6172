// The words of a line: what a form begins and ends with, blanks, numerals, and bytes that no word has.
use crate::files::{Declined, declines, well_formed};
use std::test::*;

// A line has to begin with a bracket and the name of a form.
const BEGINNINGS: &[Declined] = &[
    ("day 1 2)", 5, 1),
    ("  ) 1", 5, 3),
    ("7", 5, 1),
    (" -", 5, 2),
    ("judge", 5, 1),
    ("(", 5, 2),
    (" (  ", 5, 5),
    ("((day 1 2))", 4, 2),
    ("()", 4, 2),
    ("( 7)", 4, 3),
    ("(days 1 2)", 4, 2),
    ("(da y 1 2)", 4, 2),
    ("(judge-)", 4, 2),
    ("(offer)", 4, 2),
    ("(verdict)", 4, 2),
];

// Nothing may follow a form, and no bracket may be missing.
const ENDS: &[Declined] = &[
    ("(judge", 5, 7),
    ("(judge   ", 5, 10),
    ("(judge judge)", 5, 8),
    ("(judge))", 5, 8),
    ("(judge) x", 5, 9),
    ("(judge) 7", 5, 9),
    ("(judge)(judge)", 5, 8),
    ("(judge (judge))", 5, 8),
    ("(day 1 2", 5, 9),
    ("(day 1 2 3)", 5, 10),
    ("(day 1 2))", 5, 10),
    ("(day (1) 2)", 5, 6),
];

// Blanks beside brackets may be left out, and several count as one.
const SPACED: &[&str] = &[
    "(judge)",
    "  (judge)",
    "( judge )",
    "(   judge   )   ",
    "(supply    0)",
    "(run 0(0 8)(0 8))",
    "(run 0 ( 0   8 ) )",
    "(buyer(steps(1 1)(2 2)))",
];

// Words that are no numerals, where one may stand.
const NUMERALS: &[Declined] = &[
    ("(supply -0)", 6, 9),
    ("(supply 00)", 6, 9),
    ("(supply 01)", 6, 9),
    ("(supply -)", 6, 9),
    ("(supply --1)", 6, 9),
    ("(supply 1-)", 6, 9),
    ("(supply 1a)", 6, 9),
    ("(supply a1)", 6, 9),
    ("(supply x)", 6, 9),
    ("(supply 12345678901)", 6, 9),
    ("(supply 00000000001)", 6, 9),
    ("(need -01)", 6, 7),
    ("(need -12345678901)", 6, 7),
    ("(need 1 -0 0)", 6, 9),
];

// Ten digits are a numeral, which has its range.
const TEN_DIGITS: &[Declined] = &[
    ("(supply 9999999999)", 7, 9),
    ("(supply 2147483648)", 7, 9),
    ("(supply -1)", 7, 9),
    ("(supply -9999999999)", 7, 9),
    ("(need 2147483648)", 7, 7),
    ("(need -2147483649)", 7, 7),
];

// The largest and the smallest numerals.
const LARGEST: &[&str] = &[
    "(supply 2147483647)",
    "(supply 0)",
    "(need 2147483647 -2147483648 0)",
    "(show 1000000000)",
];

// The first word that does not fit decides, and a byte that no word has comes before all words.
const FIRST_COME: &[Declined] = &[
    ("(day 99 x", 7, 6),
    ("(day x 9999", 6, 6),
    ("(day ( x", 5, 6),
    ("(days D", 3, 7),
    ("x X", 3, 3),
    ("(day 99 x.", 3, 10),
];

// Bytes that no word has.
const BYTES: &[Declined] = &[
    ("\t(judge)", 3, 1),
    ("(judge)\r", 3, 8),
    ("\r", 3, 1),
    ("  \r", 3, 3),
    ("(judge \0)", 3, 8),
    ("Judge", 3, 1),
    ("(Judge)", 3, 2),
    ("(judge);", 3, 8),
    ("(need +1)", 3, 7),
    ("(need 1.5)", 3, 8),
    ("(need 1_000)", 3, 8),
    ("(need 1,2)", 3, 8),
    ("'", 3, 1),
    ("(judge`", 3, 7),
    ("(judge{", 3, 7),
    ("(judge)/", 3, 8),
    ("(judge):", 3, 8),
    ("(judge)~", 3, 8),
    ("(é)", 3, 2),
    ("﻿(judge)", 3, 1),
];

#[test]
fn beginnings_and_ends(rt: HostRuntime) -> Result<(), Fail> {
    declines(&rt, rt.alloc(), BEGINNINGS)?;
    declines(&rt, rt.alloc(), ENDS)?;
    well_formed(&rt, rt.alloc(), SPACED)
}

#[test]
fn numerals(rt: HostRuntime) -> Result<(), Fail> {
    declines(&rt, rt.alloc(), NUMERALS)?;
    declines(&rt, rt.alloc(), TEN_DIGITS)?;
    well_formed(&rt, rt.alloc(), LARGEST)
}

#[test]
fn bytes_and_order(rt: HostRuntime) -> Result<(), Fail> {
    declines(&rt, rt.alloc(), FIRST_COME)?;
    declines(&rt, rt.alloc(), BYTES)
}
