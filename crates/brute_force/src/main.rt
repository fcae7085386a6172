// Small drawn fleets, with every schedule tried one by one and held against the searches' answers.
#![tactic(auto)]

ghost use Rattle.std.specs.Prelude.{◌<◌, max};

use fleet::{Fleet, Periods, PriceRow, SLOTS, best_gain, check_schedule, first_best, supply};
use fleet_kinds::{ArcRow, ArcTable, Outage, Outages};
use std::alloc::{AllocError, Global};
use std::cmp::Ordering;
use terms::Entry;

// Three states and the outputs -2 to 3, in reading order.
fn choices(heap: Global) -> Result<Vec<Entry>, AllocError> {
    let mut choices = Vec::new(heap);
    for state in 0..3 {
        for output in -2..=3 {
            choices.push(Entry { state, output })?;
        }
    }
    Ok(choices)
}

// The best of some schedules: the gain, the fewest and the most lots, and the first of them.
#[derive(Clone, Copy, PartialEq)]
struct Found {
    gain: i64,
    least: i64,
    most: i64,
    first: [Entry; 3],
}

impl Found {
    // One schedule alone.
    fn one(gain: i64, schedule: [Entry; 3]) -> Found {
        let lots = schedule.iter().fold(
            0i64,
            |lots, step| lots.saturating_add(i64::from(step.output)),
        );
        Found {
            gain,
            least: lots,
            most: lots,
            first: schedule,
        }
    }

    // Of both, where the other's schedules come later.
    fn with(self, later: Found) -> Found {
        match later.gain.cmp(&self.gain) {
            Ordering::Greater => later,
            Ordering::Less => self,
            Ordering::Equal => Found {
                least: self.least.min(later.least),
                most: self.most.max(later.most),
                ..self
            },
        }
    }
}

fn try_all<F: Fleet>(fleet: &F, row: &PriceRow, choices: &[Entry]) -> Option<Found> {
    let mut found: Option<Found> = None;
    for a in choices {
        for b in choices {
            for c in choices {
                let schedule = [*a, *b, *c];
                if let Ok(account) = check_schedule(fleet, 0, row, &schedule) {
                    let one = Found::one(account.gain, schedule);
                    found = Some(found.map_or(one, |found| found.with(one)));
                }
            }
        }
    }
    found
}

// The searches' answers for unit 0, or nothing where they are declined.
fn search_all<F: Fleet>(fleet: &F, row: &PriceRow) -> Option<Found> {
    let mut table = [None; SLOTS];
    let mut fewer = [None; SLOTS];
    let mut more = [None; SLOTS];
    let mut first = [Entry {
        state: 0,
        output: 0,
    }; 3];
    let (gain, least, most) = supply(fleet, 0, row, &mut fewer, &mut more).ok()?;
    first_best(fleet, 0, row, &mut table, &mut first).ok()?;
    Some(Found {
        gain,
        least,
        most,
        first,
    })
}

// The searches' answers, held against all schedules tried one by one.
fn agrees<F: Fleet>(fleet: &F, row: &PriceRow, choices: &[Entry]) -> bool {
    let mut table = [None; SLOTS];
    let best = best_gain(fleet, 0, row, &mut table).ok();
    let found = try_all(fleet, row, choices);
    search_all(fleet, row) == found && best == found.map(|found| found.gain)
}

// Drawn numbers, the same in each run.
#[derive(Drop)]
struct Draws {
    seed: u32,
}

impl Draws {
    // A number below n.
    fn below(&mut self, n: u32) -> u32
        ensures { result < max n 1 }
    {
        self.seed = self
            .seed
            .wrapping_mul(1_664_525)
            .wrapping_add(1_013_904_223);
        (self.seed >> 16) % n.max(1)
    }

    // One of the n numbers from low on. The casts narrow numbers that `below` has just bounded.
    fn number_from(&mut self, low: i8, n: u8) -> i32 {
        i32::from(low) + self.below(u32::from(n)) as i32
    }

    // One of the first three, from 0 on.
    fn of_three(&mut self) -> usize {
        self.below(3) as usize
    }

    fn row(&mut self) -> ArcRow {
        ArcRow {
            unit: 0,
            period: self.of_three(),
            from: self.of_three(),
            to: self.of_three(),
            lo: self.number_from(-2, 4),
            hi: self.number_from(-2, 6),
            base: self.number_from(-3, 7),
            rate: self.number_from(-2, 5),
        }
    }

    fn fleet(&mut self, heap: Global) -> Result<ArcTable, AllocError> {
        let mut rows = Vec::new(heap);
        for _ in 0..24 {
            rows.push(self.row())?;
        }
        Ok(ArcTable::new(1, rows))
    }

    fn prices(&mut self) -> Option<PriceRow> {
        let numerators = [
            self.number_from(-4, 9),
            self.number_from(-4, 9),
            self.number_from(-4, 9),
        ];
        let over = 1 + self.below(3);
        PriceRow::new(Periods::new(3)?, over, &numerators).ok()
    }

    fn outage(&mut self) -> Outage {
        Outage {
            unit: 0,
            first: self.of_three(),
            last: self.of_three(),
        }
    }
}

// How many fleets agree, and of how many.
#[derive(Drop, Default)]
struct Tally {
    agreed: u32,
    tried: u32,
}

impl Tally {
    fn count(&mut self, agrees: bool) {
        self.agreed = self.agreed.saturating_add(u32::from(agrees));
        self.tried = self.tried.saturating_add(1);
    }
}

// Each fleet is tried with and without an outage, where that is taken.
fn try_fleets(heap: Global, draws: &mut Draws, fleets: u32) -> Result<Tally, AllocError> {
    let choices = choices(heap)?;
    let mut tally = Tally::default();
    for _ in 0..fleets {
        let fleet = draws.fleet(heap)?;
        let Some(row) = draws.prices() else {
            continue;
        };
        tally.count(agrees(&fleet, &row, &choices));
        let mut under = Outages::new(fleet);
        let _ = under.add(draws.outage());
        tally.count(agrees(&under, &row, &choices));
    }
    Ok(tally)
}

fn main(rt: HostRuntime) -> anyhow::Result<()> {
    let mut draws = Draws { seed: 7 };
    let Tally { agreed, tried } = try_fleets(rt.alloc(), &mut draws, 100)?;
    println!(rt; "{agreed} of {tried} fleets agree")?;
    Ok(())
}
