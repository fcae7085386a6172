// The worked units, shared by all that settle them. State 0 is off, state 1 is on.
#![tactic(auto)]

ghost use Rattle.std.specs.Prelude.{◌≡◌, IfOk};
ghost use Rattle.fleet_kinds.specs.ArcTables.{table_meaning};

use fleet::Fleet;
use fleet_kinds::{ArcRow, ArcTable};
use std::alloc::{AllocError, Global};
use terms::Entry;

// One period. Unit 0 is off, or on with 1 to 10 lots at 5 cents; unit 1 is off, or on with 4 lots for 16 cents and 2 a
// lot.
pub const ROWS: [ArcRow; 4] = [
    ArcRow {
        unit: 0,
        period: 0,
        from: 0,
        to: 0,
        lo: 0,
        hi: 0,
        base: 0,
        rate: 0,
    },
    ArcRow {
        unit: 0,
        period: 0,
        from: 0,
        to: 1,
        lo: 1,
        hi: 10,
        base: 0,
        rate: 5,
    },
    ArcRow {
        unit: 1,
        period: 0,
        from: 0,
        to: 0,
        lo: 0,
        hi: 0,
        base: 0,
        rate: 0,
    },
    ArcRow {
        unit: 1,
        period: 0,
        from: 0,
        to: 1,
        lo: 4,
        hi: 4,
        base: 16,
        rate: 2,
    },
];

// Unit 1 on, for one period.
pub const FOUR_LOTS: [Entry; 1] = [Entry {
    state: 1,
    output: 4,
}];

// Unit 0 on, for one period.
pub const EIGHT_LOTS: [Entry; 1] = [Entry {
    state: 1,
    output: 8,
}];

// The two units.
pub fn fleet(heap: Global) -> Result<ArcTable, AllocError>
    ensures { IfOk result (λ table. ⟦<ArcTable as Fleet>⟧.meaning table ≡ table_meaning 2 ROWS) }
{
    let rows = ROWS.to_vec(heap)?;
    Ok(ArcTable::new(2, rows))
}
