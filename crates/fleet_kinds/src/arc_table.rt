// A fleet given by listed rows.
ghost use Rattle.std.specs.Prelude.{◌≡◌, ◌&&◌, true, min, IfSome};
ghost use Rattle.fleet_kinds.specs.ArcTables.{ranged, bounded, row_for, table_meaning, ArcTableLaw};
ghost use Rattle.fleet_kinds.specs.Heeded.{table_sound};

use crate::rows::{ArcKey, ArcRow};
use fleet::{Fleet, Range};

// A number of units, more than 64 counting as 64, and rows. Each unit has 80 states, starts in 0 and may end in every one.
// A question is answered from the row that counts for it: the first in the list of those that are heeded for it.
#[derive(Drop)]
pub struct ArcTable {
    count: usize,
    rows: Vec<ArcRow>,
}

impl ArcTable {
    #[tactic(auto, using(crate::proofs::TableLaws::arc_table_law))]
    pub fn new(count: usize, rows: Vec<ArcRow>) -> ArcTable
        ensures meaning { ⟦<ArcTable as Fleet>⟧.meaning result ≡ table_meaning count rows.items }
        ensures law { ArcTableLaw }
    {
        ArcTable { count, rows }
    }

    // The row that counts: the first heeded one for the unit, period and states.
    fn row(&self, unit: usize, period: usize, from: usize, to: usize) -> Option<ArcRow>
        ensures row { result ≡ row_for (min self.now.count 64) self.now.rows.items unit period from to }
        ensures within { IfSome result (λ row. (ranged row && bounded row) ≡ true) }
    {
        let units = self.units();
        let key = ArcKey {
            unit,
            period,
            from,
            to,
        };
        self.rows.iter().find(|row| row.is_for(units, key)).copied()
    }
}

impl Fleet for ArcTable {
    ghost meaning = { λ s. table_meaning s.count s.rows.items };

    ghost sound = { λ s. table_sound _ _ };

    fn units(&self) -> usize {
        self.count.min(64)
    }

    fn states(&self, unit: usize) -> usize {
        if unit < self.units() { 80 } else { 1 }
    }

    fn start(&self, unit: usize) -> usize {
        let _ = unit;
        0
    }

    fn arc(&self, unit: usize, period: usize, from: usize, to: usize) -> Option<Range> {
        self.row(unit, period, from, to).map(|row| row.range())
    }

    fn cost(&self, unit: usize, period: usize, from: usize, to: usize, output: i32) -> i32 {
        self.row(unit, period, from, to)
            .map_or(0, |row| row.cost(output))
    }

    fn may_end(&self, unit: usize, state: usize) -> bool {
        unit < self.units() && state < 80
    }
}
