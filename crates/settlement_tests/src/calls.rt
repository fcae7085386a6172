// Calls as tables of data, each with what it should say. Each decline is followed by a look that nothing changed.
use crate::day::{Day, schedule};
use decline_numbers::{Said, said};
use fleet::{FewerLots, Gain, MoreLots, SLOTS};
use std::process::Abort;
use std::test::*;
use terms::{Decline, Entry};

// Each with its arguments; the lengths of what it lends, tables and buffers, come last. No request of `requests`: it
// takes lots in place of entries, and so fits on a row of a table.
#[derive(Clone, Copy)]
pub(crate) enum Call<'a> {
    // The wanted lots.
    Need(&'a [i32]),
    // Denominator and numerators.
    Price(u32, &'a [i32]),
    // Unit and lots; the slots.
    Run(usize, &'a [i32], usize),
    // Unit, weight and lots.
    Mix(usize, u32, &'a [i32]),
    // Unit; the slots of each table.
    Supply(usize, usize, usize),
    // Unit; the slots and the buffer's entries.
    Show(usize, usize, usize),
    // The pay buffer's numbers.
    Judge(usize),
}

// Whether a table holds no scores.
fn is_free<S: Copy>(table: &[Option<S>]) -> bool {
    table.iter().all(|slot| slot.is_none())
}

// An entry that no schedule here has.
pub(crate) const MARK: Entry = Entry {
    state: 9,
    output: 99,
};

fn is_marked(out: &[Entry]) -> bool {
    out.iter().all(|step| *step == MARK)
}

// A table may be written into where there is an answer, and where there is no schedule.
fn may_write(says: Said) -> bool {
    matches!(says, Ok(()) | Err((32, _)))
}

// The calls that are lent tables have a function each: they take other buffers, and other things hold after them.
impl Day {
    fn run_in(
        &mut self,
        rt: &impl Abort,
        unit: usize,
        lots: &[i32],
        table: &mut [Option<Gain>],
    ) -> Result<Said, Fail> {
        let steps = schedule(self.heap, lots)?;
        let says = said(self.docket.run(unit, &steps, table));
        assert!(rt; may_write(says) || is_free(table));
        Ok(says)
    }

    fn supply_in(
        &self,
        rt: &impl Abort,
        unit: usize,
        fewer: &mut [Option<FewerLots>],
        more: &mut [Option<MoreLots>],
    ) -> Result<Said, Fail> {
        let says = said(self.docket.supply(unit, fewer, more));
        assert!(rt; may_write(says) || is_free(fewer) && is_free(more));
        Ok(says)
    }

    fn show_in(
        &self,
        rt: &impl Abort,
        unit: usize,
        table: &mut [Option<Gain>],
        out: &mut [Entry],
    ) -> Result<Said, Fail> {
        let says = said(self.docket.show(unit, table, out));
        assert!(rt; may_write(says) || is_free(table));
        assert!(rt; says.is_ok() || is_marked(out));
        Ok(says)
    }

    fn run(
        &mut self,
        rt: &impl Abort,
        unit: usize,
        lots: &[i32],
        slots: usize,
    ) -> Result<Said, Fail> {
        let mut table = [None; SLOTS];
        assert!(rt; slots <= SLOTS);
        self.run_in(rt, unit, lots, &mut table[..slots])
    }

    fn supply(
        &self,
        rt: &impl Abort,
        unit: usize,
        fewer: usize,
        more: usize,
    ) -> Result<Said, Fail> {
        let mut fewer_table = [None; SLOTS];
        let mut more_table = [None; SLOTS];
        assert!(rt; fewer <= SLOTS && more <= SLOTS);
        self.supply_in(rt, unit, &mut fewer_table[..fewer], &mut more_table[..more])
    }

    fn show(&self, rt: &impl Abort, unit: usize, slots: usize, room: usize) -> Result<Said, Fail> {
        let mut table = [None; SLOTS];
        let mut out = [MARK; 3];
        assert!(rt; slots <= SLOTS && room <= 3);
        self.show_in(rt, unit, &mut table[..slots], &mut out[..room])
    }

    fn judge_in(&self, rt: &impl Abort, room: usize) -> Result<Said, Fail> {
        let mut pays = [7; 3];
        assert!(rt; room <= 3);
        let says = said(self.docket.judge(&mut pays[..room]));
        assert!(rt; says.is_ok() || pays == [7; 3]);
        Ok(says)
    }

    fn ask(&mut self, rt: &impl Abort, call: Call) -> Result<Said, Fail> {
        // The calls are rows of constant tables, so each is a case and no closure.
        match call {
            Call::Need(wanted) => Ok(said(self.docket.need(wanted))),
            Call::Price(over, numerators) => Ok(said(self.docket.price(over, numerators))),
            Call::Run(unit, lots, slots) => self.run(rt, unit, lots, slots),
            Call::Mix(unit, weight, lots) => {
                let steps = schedule(self.heap, lots)?;
                Ok(said(self.docket.mix(unit, weight, &steps)))
            }
            Call::Supply(unit, fewer, more) => self.supply(rt, unit, fewer, more),
            Call::Show(unit, slots, room) => self.show(rt, unit, slots, room),
            Call::Judge(room) => self.judge_in(rt, room),
        }
    }

    // The call says this, and where that is a decline, a judge says the same as before. An answer that differs is told
    // with its row.
    fn says_at(&mut self, rt: &impl Abort, row: usize, call: Call, says: Said) -> Result<(), Fail> {
        let before = self.judge(rt)?;
        assert_eq!(rt; self.ask(rt, call)?, says, "row {row}");
        if says.is_ok() {
            return Ok(());
        }
        self.judges(rt, before)
    }

    pub(crate) fn says(&mut self, rt: &impl Abort, call: Call, says: Said) -> Result<(), Fail> {
        self.says_at(rt, 0, call, says)
    }

    pub(crate) fn says_all(&mut self, rt: &impl Abort, calls: &[(Call, Said)]) -> Result<(), Fail> {
        for (row, (call, says)) in calls.iter().enumerate() {
            self.says_at(rt, row, *call, *says)?;
        }
        Ok(())
    }
}
