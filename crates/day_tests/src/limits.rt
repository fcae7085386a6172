// Lengths and counts at their limits.
use crate::files::answered;
use std::alloc::Global;
use std::process::Abort;
use std::test::*;

// A text of four parts, of which the second stands so many times; and what it is answered.
type Made = (
    &'static str,
    &'static str,
    usize,
    &'static str,
    &'static str,
);

fn all_answered(rt: &impl Abort, heap: Global, made: &[Made]) -> Result<(), Fail> {
    for (head, part, times, tail, text) in made {
        let parts = part.repeat(heap, *times)?;
        let file = format!(in heap; "{head}{parts}{tail}")?;
        answered(rt, heap, file.as_bytes(), text)?;
    }
    Ok(())
}

// 1,024 bytes are read, and one more is declined before its bytes and words are looked at.
const LINES: &[Made] = &[
    ("(day 1 2)", " ", 1_015, "", ""),
    ("(day 1 2)", " ", 1_016, "", "(no reader 2 1 1025)\n"),
    ("", " ", 1_024, "\n(judge)", "(no reader 9 2 1)\n"),
    (
        "",
        " ",
        1_025,
        "\n(judge)",
        "(no reader 2 1 1025)\n(no reader 9 2 1)\n",
    ),
    ("", " ", 1_017, "(judge)", "(no reader 9 1 1)\n"),
    ("(judge", " ", 1_018, "", "(no reader 5 1 1025)\n"),
    ("(judge)", " ", 1_016, "\r", "(no reader 3 1 1024)\n"),
    ("(judge)", " ", 1_017, "\r", "(no reader 2 1 1025)\n"),
    ("", "\t", 1_025, "", "(no reader 2 1 1025)\n"),
    ("", "(", 1_024, "", "(no reader 4 1 2)\n"),
    ("", "(", 1_025, "", "(no reader 2 1 1025)\n"),
    ("(", "x", 1_023, "", "(no reader 4 1 2)\n"),
    ("(supply ", "1", 1_015, ")", "(no reader 6 1 9)\n"),
];

// 65,536 bytes are read, and of one more nothing is.
const FILES: &[Made] = &[
    ("", "\n", 65_529, "(judge)", "(no reader 9 65530 1)\n"),
    ("", "\n", 65_530, "(judge)", "(no reader 1 1 1)\n"),
    ("(judge)\n", "\n", 65_528, "", "(no reader 9 1 1)\n"),
    ("(judge)\n", "\n", 65_529, "", "(no reader 1 1 1)\n"),
    ("", "\n", 65_536, "", ""),
    ("", "x", 65_536, "", "(no reader 2 1 1025)\n"),
    ("", "x", 65_537, "", "(no reader 1 1 1)\n"),
    ("(judge)\n", "x", 70_000, "", "(no reader 1 1 1)\n"),
    ("", "(", 65_535, "\n", "(no reader 2 1 1025)\n"),
];

// 48 numbers or entries are a form, and the 49th is declined, numeral or not.
const REPEATS: &[Made] = &[
    ("(need", " 1", 48, ")", "(no reader 9 1 1)\n"),
    ("(need", " 1", 49, ")", "(no reader 5 1 103)\n"),
    ("(need", " 1", 48, " x)", "(no reader 5 1 103)\n"),
    ("(need", " 1", 47, " x)", "(no reader 6 1 101)\n"),
    ("(need", " 1", 48, "", "(no reader 5 1 102)\n"),
    ("(price 1", " 1", 48, ")", "(no reader 9 1 1)\n"),
    ("(price 1", " 1", 49, ")", "(no reader 5 1 106)\n"),
    ("(price 1", " 1", 48, " -0)", "(no reader 5 1 106)\n"),
    ("(run 0", " (0 1)", 48, ")", "(no reader 9 1 1)\n"),
    ("(run 0", " (0 1)", 49, ")", "(no reader 5 1 296)\n"),
    ("(run 0", " (0 1)", 48, " 7)", "(no reader 5 1 296)\n"),
    ("(mix 0 1", " (0 1)", 48, ")", "(no reader 9 1 1)\n"),
    ("(mix 0 1", " (0 1)", 49, ")", "(no reader 5 1 298)\n"),
    ("(buyer (steps", " (1 1)", 4, "))", "(no reader 9 1 1)\n"),
    ("(buyer (steps", " (1 1)", 5, "))", "(no reader 5 1 39)\n"),
    ("(buyer (steps", " (1 1)", 4, " 1))", "(no reader 5 1 39)\n"),
];

// 64 offers are taken, and 16 outages, declined ones not counted.
const COUNTS: &[Made] = &[
    (
        "(day 1 1)\n",
        "(buyer (steps (1 1)))\n",
        64,
        "(out 63 0 0)\n(out 64 0 0)\n(need 0)\n(buyer (steps (1 1)))\n",
        "(no fleet 14 67 0)\n(no reader 9 69 1)\n",
    ),
    (
        "(day 1 1)\n(buyer (steps (0 1)))\n",
        "(buyer (steps (1 1)))\n",
        65,
        "(out 63 0 0)\n(out 64 0 0)\n(buyer (steps (500 1) (1 1)))\n",
        "(no reader 7 2 16)\n(no reader 10 67 1)\n(no fleet 14 69 0)\n(no reader 8 70 1)\n",
    ),
    (
        "(day 1 1)\n(buyer (steps (1 1)))\n(out 1 0 0)\n",
        "(out 0 0 0)\n",
        16,
        "(need 0)\n",
        "(no fleet 14 3 0)\n",
    ),
    (
        "(day 1 1)\n(buyer (steps (1 1)))\n",
        "(out 0 0 0)\n",
        17,
        "(out 7 1 0)\n(out 0 0 0 0)\n(need 0)\n(out 0 0 0)\n",
        "(no fleet 13 19 0)\n(no fleet 13 20 0)\n(no reader 5 21 12)\n(no reader 9 23 1)\n",
    ),
];

#[test]
fn lengths(rt: HostRuntime) -> Result<(), Fail> {
    all_answered(&rt, rt.alloc(), LINES)?;
    all_answered(&rt, rt.alloc(), FILES)
}

#[test]
fn repeats_and_counts(rt: HostRuntime) -> Result<(), Fail> {
    all_answered(&rt, rt.alloc(), REPEATS)?;
    all_answered(&rt, rt.alloc(), COUNTS)
}

// A file, byte by byte.
const BYTES: &[(&[u8], &str)] = &[
    (b"", ""),
    (b"\n", ""),
    (b"\n\n  \n", ""),
    (b" ", ""),
    (b"\0", "(no reader 3 1 1)\n"),
    (
        b"(judge)\r\n(judge)\r\n\r\n",
        "(no reader 3 1 8)\n(no reader 3 2 8)\n(no reader 3 3 1)\n",
    ),
    (b"(judge)\r(judge)", "(no reader 3 1 8)\n"),
    (b"(judge)\x7f", "(no reader 3 1 8)\n"),
    (b"(judge)\x80", "(no reader 3 1 8)\n"),
    (b"\xff\n(judge)", "(no reader 3 1 1)\n(no reader 9 2 1)\n"),
    (b"(judge)\xa0\n", "(no reader 3 1 8)\n"),
    (
        b"(judge)\n\n \n(judge)",
        "(no reader 9 1 1)\n(no reader 9 4 1)\n",
    ),
    (b"(judge)\n\0", "(no reader 9 1 1)\n(no reader 3 2 1)\n"),
    (b"(judge)\x0b", "(no reader 3 1 8)\n"),
    (
        b"(judge)\n(judge)\n",
        "(no reader 9 1 1)\n(no reader 9 2 1)\n",
    ),
];

#[test]
fn bytes(rt: HostRuntime) -> Result<(), Fail> {
    for (file, text) in BYTES {
        answered(&rt, rt.alloc(), file, text)?;
    }
    Ok(())
}
