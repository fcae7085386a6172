// What is asked of a unit at a price row: its best gain, its supply, and its first best schedule. Fleet, unit and row
// stay parameters here: a caller has the three by themselves, and would build a struct for one call.
ghost use Rattle.std.specs.Prelude.{◌≤◌, length};
ghost use Rattle.fleet.specs.Rows.{periods_of};
ghost use Rattle.fleet.specs.Gains.{BestGainLaw, SupplyLaw, FirstLaw};
ghost use Rattle.fleet.specs.Answers.{Room, Free, BestGainAnswer, SupplyAnswer, FirstBestAnswer};

use crate::fleets::Fleet;
use crate::rows::PriceRow;
use crate::scores::{FewerLots, Gain, MoreLots};
use crate::search::{SLOTS, UnitDay};
use terms::{Cause, Decline, Entry};

// The most that any allowed schedule gains. Declined with 30 where the table is too short, then 32 where no schedule
// is allowed.
#[tactic(auto, using(crate::proofs::BestGains::best_gain_law))]
pub fn best_gain<F: Fleet>(
    fleet: &F,
    unit: usize,
    row: &PriceRow,
    table: &mut [Option<Gain>],
) -> Result<i64, Decline>
    ensures best { BestGainAnswer (F.Fleet.meaning fleet.now) unit row.now (length table.old) result }
    ensures table { Free (Room (length table.old)) table.old table.new }
    ensures law { BestGainLaw }
{
    let best: Gain = UnitDay { fleet, unit, row }.search(table)?;
    Ok(best.gain)
}

// The best gain, with the fewest and the most lots among the schedules of that gain. Declined as the best gain is,
// with 30 where either table is too short.
pub fn supply<F: Fleet>(
    fleet: &F,
    unit: usize,
    row: &PriceRow,
    fewer: &mut [Option<FewerLots>],
    more: &mut [Option<MoreLots>],
) -> Result<(i64, i64, i64), Decline>
    ensures supply { SupplyAnswer (F.Fleet.meaning fleet.now) unit row.now (length fewer.old) (length more.old) result }
    ensures fewer { Free ((Room (length fewer.old)) × (Room (length more.old))) fewer.old fewer.new }
    ensures more { Free ((Room (length fewer.old)) × (Room (length more.old))) more.old more.new }
    ensures law { SupplyLaw }
{
    if more.len() < SLOTS {
        return Err(Cause::TooLittleRoom.at(unit));
    }
    let day = UnitDay { fleet, unit, row };
    let least = day.search(fewer)?;
    let most = day.search(more)?;
    Ok((least.gain, least.lots(), most.lots()))
}

// Writes the best schedule that comes first in reading order. Declined as the best gain is, with 30 where the table or
// the buffer is too short.
pub fn first_best<F: Fleet>(
    fleet: &F,
    unit: usize,
    row: &PriceRow,
    table: &mut [Option<Gain>],
    out: &mut [Entry],
) -> Result<(), Decline>
    ensures first { FirstBestAnswer (F.Fleet.meaning fleet.now) unit row.now (length table.old) out.old out.new result }
    ensures table { Free ((Room (length table.old)) × (periods_of row.now ≤ length out.old)) table.old table.new }
    ensures law { FirstLaw }
{
    if out.len() < row.periods() {
        return Err(Cause::TooLittleRoom.at(unit));
    }
    let day = UnitDay { fleet, unit, row };
    let best = day.search(table)?;
    day.trace(best, table, out);
    Ok(())
}
