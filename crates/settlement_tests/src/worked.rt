// The worked day: one period, two units, a need of 12 lots, evidence of weight 2.
use crate::calls::{Call, MARK};
use crate::day::{Day, opened, sums};
use decline_numbers::Said;
use fleet::SLOTS;
use settlement::Verdict;
use std::alloc::Global;
use std::process::Abort;
use std::test::*;
use terms::{Decline, Entry};

const RUNS: &[(Call<'static>, Said)] = &[
    (Call::Run(0, &[8], SLOTS), Ok(())),
    (Call::Run(1, &[4], SLOTS), Ok(())),
];

const MIXES: &[(Call<'static>, Said)] = &[
    (Call::Mix(0, 2, &[10]), Ok(())),
    (Call::Judge(2), Err((43, 1))),
    (Call::Mix(1, 1, &[4]), Ok(())),
    (Call::Judge(2), Err((43, 1))),
    (Call::Mix(1, 1, &[0]), Ok(())),
    (Call::Judge(2), Ok(())),
];

// Four lots too many.
const MISSING: &[(Call<'static>, Said)] = &[
    (Call::Mix(0, 2, &[10]), Ok(())),
    (Call::Mix(1, 2, &[4]), Ok(())),
    (Call::Judge(2), Err((44, 0))),
];

fn settled(
    rt: &impl Abort,
    heap: Global,
    over: u32,
    numerator: i32,
    mixes: &[(Call, Said)],
) -> Result<Day, Fail> {
    let mut day = opened(heap, 2, 1, 2)?;
    day.says(rt, Call::Need(&[12]), Ok(()))?;
    day.says(rt, Call::Price(over, &[numerator]), Ok(()))?;
    day.says_all(rt, RUNS)?;
    day.says_all(rt, mixes)?;
    Ok(day)
}

#[test]
fn verdicts(rt: HostRuntime) -> Result<(), Fail> {
    settled(&rt, rt.alloc(), 1, 6, MIXES)?.judges(&rt, sums(Verdict::Least, 2, 1, 0, [2, 0]))?;
    settled(&rt, rt.alloc(), 1, 5, MIXES)?.judges(&rt, sums(Verdict::Within, 4, 1, 4, [0, 4]))?;
    settled(&rt, rt.alloc(), 1, 6, MISSING)?.judges(&rt, Err((44, 0)))
}

// The same prices over 2: uplift, gap and pays are twice as large.
#[test]
fn over_two(rt: HostRuntime) -> Result<(), Fail> {
    settled(&rt, rt.alloc(), 2, 12, MIXES)?.judges(&rt, sums(Verdict::Least, 4, 2, 0, [4, 0]))?;
    settled(&rt, rt.alloc(), 2, 10, MIXES)?.judges(&rt, sums(Verdict::Within, 8, 2, 8, [0, 8]))
}

const OFF: Entry = Entry {
    state: 0,
    output: 0,
};

// At 5 cents all schedules of unit 0 gain 0, and the first is off.
fn asks(rt: &impl Abort, day: &Day) -> Result<(), Fail> {
    let mut fewer = [None; SLOTS];
    let mut more = [None; SLOTS];
    let mut table = [None; SLOTS];
    let mut out = [MARK; 2];
    assert_eq!(rt; day.docket.supply(0, &mut fewer, &mut more)?, (0, 0, 10));
    day.docket.show(0, &mut table, &mut out)?;
    assert_eq!(rt; out, [OFF, MARK]);
    Ok(())
}

const LATE: &[(Call<'static>, Said)] = &[
    (Call::Run(0, &[8], SLOTS), Err((25, 0))),
    (Call::Run(1, &[0], SLOTS), Err((25, 1))),
    (Call::Mix(0, 1, &[10]), Err((29, 0))),
    (Call::Mix(1, 1, &[0]), Err((29, 1))),
    (Call::Need(&[12]), Err((21, 0))),
    (Call::Price(1, &[5]), Err((21, 0))),
    (Call::Judge(1), Err((30, 0))),
    (Call::Judge(2), Ok(())),
];

// A verdict changes nothing: all may be asked again, and what was declined before it is declined after it.
#[test]
fn after_a_verdict(rt: HostRuntime) -> Result<(), Fail> {
    let mut day = settled(&rt, rt.alloc(), 1, 5, MIXES)?;
    let verdict = sums(Verdict::Within, 4, 1, 4, [0, 4]);
    asks(&rt, &day)?;
    day.judges(&rt, verdict)?;
    day.says_all(&rt, LATE)?;
    asks(&rt, &day)?;
    day.judges(&rt, verdict)
}
