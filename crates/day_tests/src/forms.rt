// The forms that are no offers, word by word.
use crate::files::{Declined, declines, well_formed};
use std::test::*;

// (day T W)
const DAY: &[Declined] = &[
    ("(day", 5, 5),
    ("(day )", 5, 6),
    ("(day (", 5, 6),
    ("(day x 2)", 6, 6),
    ("(day 0 1)", 7, 6),
    ("(day 49 1)", 7, 6),
    ("(day -1 1)", 7, 6),
    ("(day 1", 5, 7),
    ("(day 1 )", 5, 8),
    ("(day 1 x)", 6, 8),
    ("(day 1 0)", 7, 8),
    ("(day 1 1001)", 7, 8),
    ("(day 1 2 x", 5, 10),
];

// (out U FIRST LAST)
const OUT: &[Declined] = &[
    ("(out", 5, 5),
    ("(out )", 5, 6),
    ("(out x 0 0)", 6, 6),
    ("(out -1 0 0)", 7, 6),
    ("(out 2147483648 0 0)", 7, 6),
    ("(out 0 )", 5, 8),
    ("(out 0 x 0)", 6, 8),
    ("(out 0 -1 0)", 7, 8),
    ("(out 0 0 )", 5, 10),
    ("(out 0 0 x)", 6, 10),
    ("(out 0 0 2147483648)", 7, 10),
    ("(out 0 0 0 0)", 5, 12),
    ("(out 0 0 0", 5, 11),
];

// (need d ..)
const NEED: &[Declined] = &[
    ("(need", 5, 6),
    ("(need )", 5, 7),
    ("(need (1))", 5, 7),
    ("(need x)", 6, 7),
    ("(need 1", 5, 8),
    ("(need 1 x)", 6, 9),
    ("(need 1 (", 5, 9),
    ("(need 1 2147483648)", 7, 9),
    ("(need 1))", 5, 9),
];

// (price D n ..)
const PRICE: &[Declined] = &[
    ("(price", 5, 7),
    ("(price )", 5, 8),
    ("(price x 1)", 6, 8),
    ("(price -1 1)", 7, 8),
    ("(price 2147483648 1)", 7, 8),
    ("(price 1", 5, 9),
    ("(price 1 )", 5, 10),
    ("(price 1 x)", 6, 10),
    ("(price 1 -2147483649)", 7, 10),
    ("(price 1 2", 5, 11),
    ("(price 1 2 x)", 6, 12),
    ("(price 1 2 (", 5, 12),
];

// (run U (a q) ..)
const RUN: &[Declined] = &[
    ("(run", 5, 5),
    ("(run )", 5, 6),
    ("(run x (0 1))", 6, 6),
    ("(run -1 (0 1))", 7, 6),
    ("(run 0", 5, 7),
    ("(run 0 )", 5, 8),
    ("(run 0 0 1)", 5, 8),
    ("(run 0 x)", 5, 8),
    ("(run 0 ()", 5, 9),
    ("(run 0 (x 1))", 6, 9),
    ("(run 0 (-1 1))", 7, 9),
    ("(run 0 (2147483648 1))", 7, 9),
    ("(run 0 (0 ))", 5, 11),
    ("(run 0 (0 x))", 6, 11),
    ("(run 0 (0 2147483648))", 7, 11),
    ("(run 0 (0 -2147483649))", 7, 11),
    ("(run 0 (0 1 1))", 5, 13),
    ("(run 0 (0 1)", 5, 13),
    ("(run 0 (0 1) 1)", 5, 14),
    ("(run 0 (0 1) x)", 5, 14),
];

// (mix U w (a q) ..)
const MIX: &[Declined] = &[
    ("(mix", 5, 5),
    ("(mix )", 5, 6),
    ("(mix x 1 (0 1))", 6, 6),
    ("(mix -1 1 (0 1))", 7, 6),
    ("(mix 0 (0 1))", 5, 8),
    ("(mix 0 x (0 1))", 6, 8),
    ("(mix 0 -1 (0 1))", 7, 8),
    ("(mix 0 2147483648 (0 1))", 7, 8),
    ("(mix 0 1", 5, 9),
    ("(mix 0 1 )", 5, 10),
    ("(mix 0 1 2)", 5, 10),
    ("(mix 0 1 (x 1))", 6, 11),
    ("(mix 0 1 (0 1", 5, 14),
    ("(mix 0 1 (0 1) x)", 5, 16),
];

// (supply U), (show U), (judge)
const ASKS: &[Declined] = &[
    ("(supply", 5, 8),
    ("(supply )", 5, 9),
    ("(supply ()", 5, 9),
    ("(supply 0 0)", 5, 11),
    ("(show", 5, 6),
    ("(show )", 5, 7),
    ("(show x)", 6, 7),
    ("(show -1)", 7, 7),
    ("(show 2147483648)", 7, 7),
    ("(show 0 x)", 5, 9),
    ("(show 0", 5, 8),
    ("(judge 0)", 5, 8),
];

// Every numeral at the ends of its range.
const WIDEST: &[&str] = &[
    "(out 0 0 0)",
    "(out 2147483647 2147483647 2147483647)",
    "(price 0 -2147483648)",
    "(price 2147483647 2147483647)",
    "(run 2147483647 (2147483647 2147483647))",
    "(run 0 (0 -2147483648))",
    "(mix 0 0 (0 -2147483648))",
    "(mix 2147483647 2147483647 (2147483647 2147483647))",
    "(show 2147483647)",
];

#[test]
fn day_out_and_rows(rt: HostRuntime) -> Result<(), Fail> {
    declines(&rt, rt.alloc(), DAY)?;
    declines(&rt, rt.alloc(), OUT)?;
    declines(&rt, rt.alloc(), NEED)?;
    declines(&rt, rt.alloc(), PRICE)
}

#[test]
fn schedules_and_asks(rt: HostRuntime) -> Result<(), Fail> {
    declines(&rt, rt.alloc(), RUN)?;
    declines(&rt, rt.alloc(), MIX)?;
    declines(&rt, rt.alloc(), ASKS)?;
    well_formed(&rt, rt.alloc(), WIDEST)
}
