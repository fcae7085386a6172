// A unit that has to be home at the end of the day: where only the end of a schedule is not allowed.
ghost use Rattle.settlement_tests.specs.HomingUnits.{homing_meaning};
ghost use Rattle.settlement_tests.specs.HomingSound.{homing_sound};

use decline_numbers::said;
use fleet::{Fleet, Range, SLOTS};
use settlement::Docket;
use std::process::Abort;
use std::test::*;
use terms::{Decline, Entry};

#[derive(Clone, Copy)]
pub(crate) struct Homing;

impl Fleet for Homing {
    ghost meaning = { λ _. homing_meaning };

    ghost sound = { λ s. homing_sound };

    fn units(&self) -> usize {
        1
    }

    fn states(&self, unit: usize) -> usize {
        if unit == 0 { 2 } else { 1 }
    }

    fn start(&self, unit: usize) -> usize {
        let _ = unit;
        0
    }

    fn arc(&self, unit: usize, period: usize, from: usize, to: usize) -> Option<Range> {
        let exists = unit == 0 && period < 48 && from < 2 && to < 2;
        exists.then_some(Range { lo: 0, hi: 9 })
    }

    fn cost(&self, unit: usize, period: usize, from: usize, to: usize, output: i32) -> i32 {
        let _ = (unit, period, from, to, output);
        0
    }

    fn may_end(&self, unit: usize, state: usize) -> bool {
        unit == 0 && state == 0
    }
}

const HOME: Entry = Entry {
    state: 0,
    output: 0,
};

const AWAY: Entry = Entry {
    state: 1,
    output: 0,
};

const FAR: Entry = Entry {
    state: 1,
    output: 10,
};

fn ends_away(rt: &impl Abort, docket: &mut Docket<Homing>) -> Result<(), Fail> {
    let mut table = [None; SLOTS];
    let mut pays = [7];
    docket.need(&[0, 0])?;
    docket.price(1, &[1, 1])?;
    assert_eq!(rt; said(docket.run(0, &[HOME, AWAY], &mut [])), Err((27, 2)));
    assert_eq!(rt; said(docket.run(0, &[HOME, FAR], &mut [])), Err((27, 1)));
    assert_eq!(rt; said(docket.mix(0, 0, &[AWAY, AWAY])), Err((27, 2)));
    assert_eq!(rt; said(docket.judge(&mut pays)), Err((41, 0)));
    docket.run(0, &[AWAY, HOME], &mut table)?;
    assert_eq!(rt; said(docket.mix(0, 1, &[AWAY, AWAY])), Err((27, 2)));
    docket.mix(0, 1, &[AWAY, HOME])?;
    let judgement = docket.judge(&mut pays)?;
    assert_eq!(rt; (judgement.uplift, judgement.gap), (18, 18));
    Ok(())
}

#[test]
fn home_at_the_end(rt: HostRuntime) -> Result<(), Fail> {
    let mut docket = Docket::open(Homing, 2, 1).map_err(|unopened| unopened.decline)?;
    ends_away(&rt, &mut docket)
}
