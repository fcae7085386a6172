// The worked units, and a docket over them.
use decline_numbers::numbered;
use fleet_kinds::{ArcRow, ArcTable};
use settlement::{Docket, Judgement, Verdict};
use std::alloc::Global;
use std::process::Abort;
use std::test::*;
use terms::{Decline, Entry};
use worked_units::ROWS;

// A pay that no judge wrote.
pub(crate) const UNWRITTEN: i64 = -7;

// A schedule of these lots: state 0 is off, state 1 is on.
pub(crate) fn schedule(heap: Global, lots: &[i32]) -> Result<Vec<Entry>, Fail> {
    let steps = lots.iter().map(|output| Entry {
        state: usize::from(*output != 0),
        output: *output,
    });
    Ok(steps.collect(heap)?)
}

// The worked units, each from either state into either, for three periods. Further units have no arcs.
pub(crate) fn fleet(heap: Global, units: usize) -> Result<ArcTable, Fail> {
    let mut rows = Vec::new(heap);
    for period in 0..3 {
        for from in 0..2 {
            for row in ROWS {
                rows.push(ArcRow {
                    period,
                    from,
                    ..row
                })?;
            }
        }
    }
    Ok(ArcTable::new(units, rows))
}

// What a judge says: the verdict and the pays, or the number and place of the decline.
pub(crate) type Judged = Result<(Judgement, [i64; 3]), (u32, usize)>;

// The verdict and the sums of a day of weight 2 and two units.
pub(crate) fn sums(verdict: Verdict, uplift: i64, over: u32, gap: i64, pays: [i64; 2]) -> Judged {
    let [first, second] = pays;
    let judgement = Judgement {
        verdict,
        uplift,
        over,
        gap,
        weight: 2,
    };
    Ok((judgement, [first, second, UNWRITTEN]))
}

// The heap is for schedules.
#[derive(Drop)]
pub(crate) struct Day {
    pub(crate) docket: Docket<ArcTable>,
    pub(crate) heap: Global,
}

pub(crate) fn opened(heap: Global, units: usize, periods: usize, weight: u32) -> Result<Day, Fail> {
    let answer = Docket::open(fleet(heap, units)?, periods, weight);
    let docket = answer.map_err(|unopened| unopened.decline)?;
    Ok(Day { docket, heap })
}

impl Day {
    // A judge with room for three pays.
    pub(crate) fn judge(&self, rt: &impl Abort) -> Result<Judged, Fail> {
        let mut pays = [UNWRITTEN; 3];
        let answer = self.docket.judge(&mut pays);
        assert!(rt; answer.is_ok() || pays == [UNWRITTEN; 3]);
        let judged = answer.map(|judgement| (judgement, pays));
        Ok(judged.map_err(numbered))
    }

    pub(crate) fn judges(&self, rt: &impl Abort, wanted: Judged) -> Result<(), Fail> {
        assert_eq!(rt; self.judge(rt)?, wanted);
        Ok(())
    }
}
