// Opening and closing.
use crate::day::fleet;
use decline_numbers::{Said, numbered};
use fleet::Fleet;
use settlement::{Docket, Unopened};
use std::alloc::Global;
use std::test::*;

// What opening says, and of the fleet that is given back, or closed, the units and what unit 0 asks for 10 lots.
fn open_and_close(
    heap: Global,
    units: usize,
    periods: usize,
    weight: u32,
) -> Result<(Said, usize, i32), Fail> {
    let (says, fleet) = match Docket::open(fleet(heap, units)?, periods, weight) {
        Ok(docket) => (Ok(()), docket.close()),
        Err(Unopened { fleet, decline }) => (Err(numbered(decline)), fleet),
    };
    Ok((says, fleet.units(), fleet.cost(0, 0, 0, 1, 10)))
}

// Units, periods and weight, and what opening says.
const OPENINGS: [(usize, usize, u32, Said); 8] = [
    (0, 1, 1, Err((11, 0))),
    (0, 49, 0, Err((11, 0))),
    (2, 0, 1, Err((12, 0))),
    (2, 49, 1, Err((12, 0))),
    (2, 1, 0, Err((12, 0))),
    (2, 1, 1001, Err((12, 0))),
    (1, 1, 1, Ok(())),
    (64, 48, 1000, Ok(())),
];

#[test]
fn openings(rt: HostRuntime) -> Result<(), Fail> {
    for (units, periods, weight, says) in OPENINGS {
        let cost = if units == 0 { 0 } else { 50 };
        let answer = open_and_close(rt.alloc(), units, periods, weight)?;
        assert_eq!(rt; answer, (says, units, cost));
    }
    Ok(())
}
