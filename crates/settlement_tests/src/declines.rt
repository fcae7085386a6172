// Every decline of every call, the lowest number first where several apply.
use crate::calls::Call;
use crate::day::{UNWRITTEN, opened};
use decline_numbers::Said;
use fleet::SLOTS;
use settlement::{Judgement, Verdict};
use std::test::*;

// One slot too few.
const SHORT: usize = SLOTS - 1;

// Two periods. Blank takes need alone, and needed price alone; a declined row leaves the stage.
const ROWS: &[(Call<'static>, Said)] = &[
    (Call::Price(0, &[]), Err((21, 0))),
    (Call::Run(7, &[], 0), Err((21, 7))),
    (Call::Mix(7, 0, &[]), Err((21, 7))),
    (Call::Supply(7, 0, 0), Err((21, 7))),
    (Call::Show(7, 0, 0), Err((21, 7))),
    (Call::Judge(0), Err((21, 0))),
    (Call::Need(&[32_001]), Err((22, 0))),
    (Call::Need(&[12, 12, 12]), Err((22, 0))),
    (Call::Need(&[32_001, -32_001]), Err((23, 0))),
    (Call::Need(&[32_000, -32_001]), Err((23, 1))),
    (Call::Price(1, &[6, 6]), Err((21, 0))),
    (Call::Need(&[12, 12]), Ok(())),
    (Call::Need(&[12, 12]), Err((21, 0))),
    (Call::Need(&[32_001]), Err((21, 0))),
    (Call::Run(0, &[8, 8], SLOTS), Err((21, 0))),
    (Call::Mix(0, 1, &[8, 8]), Err((21, 0))),
    (Call::Supply(0, SLOTS, SLOTS), Err((21, 0))),
    (Call::Show(0, SLOTS, 2), Err((21, 0))),
    (Call::Judge(3), Err((21, 0))),
    (Call::Price(0, &[1_000_000_001]), Err((22, 0))),
    (Call::Price(1, &[6, 6, 6]), Err((22, 0))),
    (
        Call::Price(0, &[-1_000_000_001, 1_000_000_001]),
        Err((23, 0)),
    ),
    (Call::Price(0, &[6, 1_000_000_001]), Err((23, 1))),
    (Call::Price(0, &[6, 6]), Err((23, 2))),
    (Call::Price(1001, &[6, 6]), Err((23, 2))),
    (Call::Need(&[12, 12]), Err((21, 0))),
    (Call::Run(0, &[8, 8], SLOTS), Err((21, 0))),
    (Call::Price(1, &[6, 6]), Ok(())),
    (Call::Price(1, &[6, 6]), Err((21, 0))),
    (Call::Price(0, &[]), Err((21, 0))),
    (Call::Need(&[12, 12]), Err((21, 0))),
    (Call::Judge(3), Err((41, 0))),
];

// The largest numbers that rows may have.
const LARGEST: &[(Call<'static>, Said)] = &[
    (Call::Need(&[-32_000, 32_000]), Ok(())),
    (Call::Price(1000, &[1_000_000_000, -1_000_000_000]), Ok(())),
    (Call::Run(0, &[8, 8], SLOTS), Ok(())),
    (Call::Run(1, &[4, 4], SLOTS), Ok(())),
    (Call::Judge(3), Err((42, 0))),
];

// Two units, unit 0 with a run.
const RUNS: &[(Call<'static>, Said)] = &[
    (Call::Run(0, &[8, 8], SLOTS), Ok(())),
    (Call::Run(2, &[], 0), Err((24, 2))),
    (Call::Run(0, &[], 0), Err((25, 0))),
    (Call::Run(0, &[8, 8], SLOTS), Err((25, 0))),
    (Call::Run(1, &[5], 0), Err((26, 1))),
    (Call::Run(1, &[4, 4, 4], SLOTS), Err((26, 1))),
    (Call::Run(1, &[5, 5], 0), Err((27, 0))),
    (Call::Run(1, &[4, 5], SLOTS), Err((27, 1))),
    (Call::Run(1, &[4, 4], SHORT), Err((30, 1))),
    (Call::Judge(3), Err((41, 1))),
];

// The same two units; then unit 1 gets its run, and the weight of 1,000 is used up.
const MIXES: &[(Call<'static>, Said)] = &[
    (Call::Mix(2, 0, &[]), Err((24, 2))),
    (Call::Mix(1, 0, &[5]), Err((26, 1))),
    (Call::Mix(0, 0, &[10, 10, 10]), Err((26, 0))),
    (Call::Mix(1, 0, &[5, 5]), Err((27, 0))),
    (Call::Mix(0, 0, &[10, 11]), Err((27, 1))),
    (Call::Mix(1, 0, &[4, 4]), Err((28, 1))),
    (Call::Run(1, &[4, 4], SLOTS), Ok(())),
    (Call::Mix(0, 0, &[10, 10]), Err((29, 0))),
    (Call::Mix(0, 1001, &[10, 10]), Err((29, 0))),
    (Call::Mix(0, 4_294_967_295, &[10, 10]), Err((29, 0))),
    (Call::Mix(0, 600, &[10, 10]), Ok(())),
    (Call::Mix(0, 401, &[10, 10]), Err((29, 0))),
    (Call::Judge(3), Err((43, 0))),
    (Call::Mix(0, 400, &[10, 10]), Ok(())),
    (Call::Mix(0, 1, &[10, 10]), Err((29, 0))),
    (Call::Judge(3), Err((43, 1))),
    (Call::Mix(1, 500, &[4, 4]), Ok(())),
    (Call::Mix(1, 500, &[0, 0]), Ok(())),
];

// After all these declines the day is settled as if they had not been.
#[test]
fn rows_runs_and_mixes(rt: HostRuntime) -> Result<(), Fail> {
    let mut day = opened(rt.alloc(), 2, 2, 1000)?;
    day.says_all(&rt, ROWS)?;
    day.says_all(&rt, RUNS)?;
    day.says_all(&rt, MIXES)?;
    day.judges(
        &rt,
        Ok((
            Judgement {
                verdict: Verdict::Least,
                uplift: 4,
                over: 1,
                gap: 0,
                weight: 1000,
            },
            [4, 0, UNWRITTEN],
        )),
    )?;
    opened(rt.alloc(), 2, 2, 1)?.says_all(&rt, LARGEST)
}

// Two periods, three units, of which unit 2 has no schedule.
const ASKED: &[(Call<'static>, Said)] = &[
    (Call::Need(&[12, 12]), Ok(())),
    (Call::Price(1, &[6, 5]), Ok(())),
    (Call::Supply(3, 0, 0), Err((24, 3))),
    (Call::Supply(2, SHORT, SLOTS), Err((30, 2))),
    (Call::Supply(2, SLOTS, SHORT), Err((30, 2))),
    (Call::Supply(2, SLOTS, SLOTS), Err((32, 2))),
    (Call::Supply(0, SLOTS, SLOTS), Ok(())),
    (Call::Show(3, 0, 0), Err((24, 3))),
    (Call::Show(2, SHORT, 2), Err((30, 2))),
    (Call::Show(2, SLOTS, 1), Err((30, 2))),
    (Call::Show(2, SLOTS, 2), Err((32, 2))),
    (Call::Show(0, SLOTS, 2), Ok(())),
    (Call::Run(2, &[0, 0], SLOTS), Err((27, 0))),
];

#[test]
fn supply_and_show(rt: HostRuntime) -> Result<(), Fail> {
    opened(rt.alloc(), 3, 2, 1)?.says_all(&rt, ASKED)
}

// Three periods. The runs miss the second and the third need.
const MISSED_BY_RUNS: &[(Call<'static>, Said)] = &[
    (Call::Need(&[12, 11, 10]), Ok(())),
    (Call::Price(1, &[6, 6, 6]), Ok(())),
    (Call::Judge(1), Err((30, 0))),
    (Call::Judge(2), Err((41, 0))),
    (Call::Run(1, &[4, 4, 4], SLOTS), Ok(())),
    (Call::Judge(2), Err((41, 0))),
    (Call::Run(0, &[8, 8, 8], SLOTS), Ok(())),
    (Call::Judge(1), Err((30, 0))),
    (Call::Judge(2), Err((42, 1))),
];

// The mixes miss the second and the third.
const MISSED_BY_MIXES: &[(Call<'static>, Said)] = &[
    (Call::Need(&[12, 12, 12]), Ok(())),
    (Call::Price(1, &[6, 6, 6]), Ok(())),
    (Call::Run(0, &[8, 8, 8], SLOTS), Ok(())),
    (Call::Judge(2), Err((41, 1))),
    (Call::Run(1, &[4, 4, 4], SLOTS), Ok(())),
    (Call::Judge(2), Err((43, 0))),
    (Call::Mix(0, 1, &[10, 9, 10]), Ok(())),
    (Call::Judge(2), Err((43, 0))),
    (Call::Mix(0, 1, &[6, 8, 8]), Ok(())),
    (Call::Judge(2), Err((43, 1))),
    (Call::Mix(1, 2, &[4, 4, 4]), Ok(())),
    (Call::Judge(1), Err((30, 0))),
    (Call::Judge(2), Err((44, 1))),
];

#[test]
fn judge(rt: HostRuntime) -> Result<(), Fail> {
    opened(rt.alloc(), 2, 3, 2)?.says_all(&rt, MISSED_BY_RUNS)?;
    opened(rt.alloc(), 2, 3, 2)?.says_all(&rt, MISSED_BY_MIXES)
}
