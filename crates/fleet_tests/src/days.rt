// Small fleets and what is asked of them.
#[cfg(test)]
mod tests {
    use decline_numbers::said;
    use fleet::{
        FewerLots, Fleet, Gain, MoreLots, NeedRow, Periods, PriceRow, SLOTS, best_gain,
        check_schedule, first_best, supply,
    };
    use fleet_kinds::{ArcRow, ArcTable, Outage, Outages};
    use std::alloc::{AllocError, Global};
    use std::test::Fail;
    use terms::{Cause, Decline, Entry};
    use worked_units::{EIGHT_LOTS, FOUR_LOTS, ROWS};

    fn arc(
        period: usize,
        from: usize,
        to: usize,
        lo: i32,
        hi: i32,
        base: i32,
        rate: i32,
    ) -> ArcRow {
        ArcRow {
            unit: 0,
            period,
            from,
            to,
            lo,
            hi,
            base,
            rate,
        }
    }

    fn entry(state: usize, output: i32) -> Entry {
        Entry { state, output }
    }

    fn outage(unit: usize, first: usize, last: usize) -> Outage {
        Outage { unit, first, last }
    }

    fn table(heap: Global, units: usize, rows: &[ArcRow]) -> Result<ArcTable, AllocError> {
        Ok(ArcTable::new(units, rows.to_vec(heap)?))
    }

    fn prices(over: u32, numerators: &[i32]) -> Result<PriceRow, Decline> {
        let periods = Periods::new(numerators.len()).ok_or(Cause::PeriodsOrWeight.at(0))?;
        PriceRow::new(periods, over, numerators)
    }

    const OFF: Entry = Entry {
        state: 0,
        output: 0,
    };

    // Unit 0 of the worked units: off, or on with 1 to 10 lots at 5 cents.
    fn first_worked(heap: Global) -> Result<ArcTable, AllocError> {
        table(heap, 1, &ROWS[..2])
    }

    #[test]
    fn worked_unit(rt: HostRuntime) -> Result<(), Fail> {
        let heap = rt.alloc();
        let fleet = first_worked(heap)?;
        let row = prices(1, &[6])?;
        let mut slots = [None; SLOTS];
        assert_eq!(rt; best_gain(&fleet, 0, &row, &mut slots)?, 10);
        let run = check_schedule(&fleet, 0, &row, &EIGHT_LOTS)?;
        assert_eq!(rt; run.gain, 8);
        assert_eq!(rt; run.cost, 40);
        assert_eq!(rt;
            said(check_schedule(&fleet, 0, &row, &[entry(1, 11)])),
            Err((27, 0))
        );
        assert_eq!(rt;
            said(check_schedule(&fleet, 0, &row, &[OFF, OFF])),
            Err((27, 1))
        );
        assert_eq!(rt; said(best_gain(&fleet, 1, &row, &mut slots)), Err((32, 1)));
        Ok(())
    }

    // Unit 1 is on for 4 lots alone, which cost 24 cents.
    #[test]
    fn both_worked_units(rt: HostRuntime) -> Result<(), Fail> {
        let fleet = worked_units::fleet(rt.alloc())?;
        let row = prices(1, &[7])?;
        let mut slots = [None; SLOTS];
        assert_eq!(rt; fleet.units(), 2);
        assert_eq!(rt; best_gain(&fleet, 0, &row, &mut slots)?, 20);
        assert_eq!(rt; best_gain(&fleet, 1, &row, &mut slots)?, 4);
        assert_eq!(rt; check_schedule(&fleet, 1, &row, &FOUR_LOTS)?.cost, 24);
        Ok(())
    }

    #[test]
    fn supply_at_the_margin(rt: HostRuntime) -> Result<(), Fail> {
        let heap = rt.alloc();
        let fleet = first_worked(heap)?;
        let row = prices(1, &[5])?;
        let mut fewer = [None; SLOTS];
        let mut more = [None; SLOTS];
        assert_eq!(rt; supply(&fleet, 0, &row, &mut fewer, &mut more)?, (0, 0, 10));
        Ok(())
    }

    #[test]
    fn reading_order(rt: HostRuntime) -> Result<(), Fail> {
        let heap = rt.alloc();
        // On alone, at 5 cents: at that price all outputs tie, and the lowest comes first.
        let fleet = table(
            heap,
            1,
            &[arc(0, 0, 7, -3, 10, 0, 5), arc(0, 0, 9, -4, 10, 0, 5)],
        )?;
        let row = prices(1, &[5])?;
        let mut slots = [None; SLOTS];
        let mut out = [OFF; 3];
        first_best(&fleet, 0, &row, &mut slots, &mut out)?;
        assert_eq!(rt; out[0], entry(7, -3));
        assert_eq!(rt; out[1].state, 0);
        Ok(())
    }

    #[test]
    fn no_arcs(rt: HostRuntime) -> Result<(), Fail> {
        let heap = rt.alloc();
        let fleet = table(heap, 100, &[])?;
        assert_eq!(rt; fleet.units(), 64);
        let row = prices(7, &[1, 2, 3])?;
        let mut slots = [None; SLOTS];
        assert_eq!(rt;
            said(best_gain(&fleet, 63, &row, &mut slots)),
            Err((32, 63))
        );
        let mut short = [None; 3919];
        assert_eq!(rt;
            said(best_gain(&fleet, 63, &row, &mut short)),
            Err((30, 63))
        );
        Ok(())
    }

    #[test]
    fn outage_without_schedule(rt: HostRuntime) -> Result<(), Fail> {
        let heap = rt.alloc();
        let mut fleet = Outages::new(table(
            heap,
            1,
            &[arc(0, 0, 0, 2, 3, 0, 1), arc(1, 0, 0, -1, 3, 7, 1)],
        )?);
        let row = prices(1, &[10, 10])?;
        let mut slots = [None; SLOTS];
        assert_eq!(rt; best_gain(&fleet, 0, &row, &mut slots)?, 47);
        fleet.add(outage(0, 1, 1))?;
        // The second period now puts out 0, and still costs 7.
        assert_eq!(rt; best_gain(&fleet, 0, &row, &mut slots)?, 20);
        assert_eq!(rt; said(fleet.add(outage(1, 0, 0))), Err((14, 0)));
        assert_eq!(rt; said(fleet.add(outage(0, 1, 0))), Err((14, 0)));
        assert_eq!(rt; said(fleet.add(outage(0, 0, 48))), Err((14, 0)));
        fleet.add(outage(0, 0, 0))?;
        assert_eq!(rt; said(best_gain(&fleet, 0, &row, &mut slots)), Err((32, 0)));
        Ok(())
    }

    #[test]
    fn seventeenth_outage(rt: HostRuntime) -> Result<(), Fail> {
        let mut fleet = Outages::new(table(rt.alloc(), 1, &[])?);
        for _ in 0..16 {
            fleet.add(outage(0, 0, 47))?;
        }
        assert_eq!(rt; said(fleet.add(outage(9, 3, 2))), Err((13, 0)));
        Ok(())
    }

    // 80 states over 48 periods: into state 32, and then one further in each period. All lots but the first period's
    // gain just what a period costs at 500 lots.
    #[test]
    fn largest_unit(rt: HostRuntime) -> Result<(), Fail> {
        let heap = rt.alloc();
        let mut rows = Vec::new(heap);
        rows.push(arc(0, 0, 32, 0, 500, 0, 0))?;
        for period in 1..48 {
            rows.push(arc(
                period,
                31 + period,
                32 + period,
                -500,
                500,
                250_000_000,
                500_000,
            ))?;
        }
        let fleet = ArcTable::new(1, rows);
        let row = prices(1000, &[1_000_000_000; 48])?;
        let mut slots = [None; SLOTS];
        let mut out = [OFF; 48];
        assert_eq!(rt; best_gain(&fleet, 0, &row, &mut slots)?, 500_000_000_000);
        first_best(&fleet, 0, &row, &mut slots, &mut out)?;
        assert_eq!(rt; out[47], entry(79, 500));
        Ok(())
    }

    #[test]
    fn rows_that_are_declined(rt: HostRuntime) -> Result<(), Fail> {
        assert_eq!(rt;
            said(prices(1000, &[1_000_000_000, -1_000_000_000])),
            Ok(())
        );
        assert_eq!(rt;
            said(prices(1, &[0, 1_000_000_001, -1_000_000_001])),
            Err((23, 1))
        );
        assert_eq!(rt; said(prices(0, &[0, 0])), Err((23, 2)));
        assert_eq!(rt; said(prices(1001, &[0, 0])), Err((23, 2)));
        assert_eq!(rt; said(prices(1, &[])), Err((12, 0)));
        let day = Periods::new(2).expect(&rt, "a day of two periods");
        assert_eq!(rt;
            said(PriceRow::new(day, 0, &[0, 0, 2_000_000_000])),
            Err((22, 0))
        );
        assert_eq!(rt; said(NeedRow::new(day, &[32_000, -32_000])), Ok(()));
        assert_eq!(rt; said(NeedRow::new(day, &[32_000, -32_001])), Err((23, 1)));
        assert_eq!(rt; said(NeedRow::new(day, &[0])), Err((22, 0)));
        Ok(())
    }
}
