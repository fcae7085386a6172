// Outages over any fleet.
ghost use Rattle.std.specs.Prelude.{◌≡◌, false, [], ◌∷◌, ◌++◌, length, is_ok, if◌then◌else◌};
ghost use Rattle.fleet_kinds.specs.OutageLists.{covers, out, only_zero, out_meaning, outage_fault, AddAnswer, OutageLaw, WhenOutLaw};
ghost use Rattle.std.proofs.Common.{rules};

use arrayvec::ArrayVec;
use fleet::{Fleet, Range};
use terms::{Cause, Decline};

// A unit is out from the first period to the last. The default fills the places of a list that are not used.
#[derive(Clone, Copy, PartialEq, Eq, Debug, Default)]
pub struct Outage {
    pub unit: usize,
    pub first: usize,
    pub last: usize,
}

impl Outage {
    fn does_cover(&self, unit: usize, period: usize) -> bool
        ensures { result ≡ covers unit period self.now }
    {
        self.unit == unit && (self.first..=self.last).contains(&period)
    }
}

// A fleet under up to 16 outages: a unit that is out keeps only the output 0, where an arc has it.
#[derive(Drop)]
pub struct Outages<F> {
    fleet: F,
    list: ArrayVec<Outage, 16>,
}

// The output 0 alone, where the arc has it.
fn only_zero(range: Option<Range>) -> Option<Range>
    ensures { result ≡ only_zero range }
{
    range
        .filter(|range| range.contains(0))
        .map(|_| Range { lo: 0, hi: 0 })
}

impl<F: Fleet> Outages<F> {
    ghost use Rattle.std.specs.Borrow.{sem};
    ghost use Rattle.fleet_kinds.specs.Lending.{lends_fleet};

    // The fleet without outages.
    #[tactic(auto, using(crate::proofs::OutageLaws::when_out_law))]
    pub fn new(fleet: F) -> Outages<F>
        ensures fleet { result.fleet ≡ fleet }
        ensures list { result.list.items ≡ [] }
        ensures meaning { ⟦<Outages<F> as Fleet>⟧.meaning result ≡ F.Fleet.meaning fleet }
        ensures law { WhenOutLaw }
    {
        Outages {
            fleet,
            list: ArrayVec::new(),
        }
    }

    // One outage more. Declined with 13 for a 17th, then 14 where there is no such unit, first > last or last > 47.
    #[tactic(auto, using(crate::proofs::OutageLaws::outage_law))]
    pub fn add(&mut self, outage: Outage) -> Result<(), Decline>
        ensures answer { AddAnswer (outage_fault (F.Fleet.meaning self.old.fleet).units (length self.old.list.items) outage) result }
        ensures list { self.new.list.items ≡ (if is_ok result then self.old.list.items ++ (outage ∷ []) else self.old.list.items) }
        ensures fleet { self.new.fleet ≡ self.old.fleet }
        ensures meaning { let meaning = ⟦<Outages<F> as Fleet>⟧.meaning in meaning self.new ≡ (if is_ok result then out_meaning (outage ∷ []) (meaning self.old) else meaning self.old) }
        ensures untouched { is_ok result ≡ false → self.new ≡ self.old }
        ensures law { OutageLaw }
    {
        if self.list.is_full() {
            return Err(Cause::TooManyOutages.at(0));
        }
        if outage.unit >= self.fleet.units() || outage.first > outage.last || outage.last > 47 {
            return Err(Cause::BadOutage.at(0));
        }
        self.list.push(outage);
        Ok(())
    }

    // The fleet below, which may still change. The listed outages stay: each was checked against the units that there
    // were when it was added.
    pub fn fleet_mut(&mut self) -> &mut F
        ensures* writes_back { sem 𝓛 (lends_fleet F.row self.entry result) }
        ensures value { result.now ≡ self.old.fleet }
        ensures meaning { (f : F) → ⟦<Outages<F> as Fleet>⟧.meaning (record { fleet = f; list = self.old.list }) ≡ out_meaning self.old.list.items (F.Fleet.meaning f) }
    {
        &mut self.fleet
    }

    fn is_out(&self, unit: usize, period: usize) -> bool
        ensures { result ≡ out self.now.list.items unit period }
    {
        self.list
            .iter()
            .any(|outage| outage.does_cover(unit, period))
    }
}

impl<F: Fleet> Fleet for Outages<F> {
    ghost meaning = { λ s. out_meaning s.list.items (F.Fleet.meaning s.fleet) };

    ghost sound = { Prim.search rules };

    fn units(&self) -> usize {
        self.fleet.units()
    }

    fn states(&self, unit: usize) -> usize {
        self.fleet.states(unit)
    }

    fn start(&self, unit: usize) -> usize {
        self.fleet.start(unit)
    }

    fn arc(&self, unit: usize, period: usize, from: usize, to: usize) -> Option<Range> {
        let below = self.fleet.arc(unit, period, from, to);
        if self.is_out(unit, period) {
            only_zero(below)
        } else {
            below
        }
    }

    fn cost(&self, unit: usize, period: usize, from: usize, to: usize, output: i32) -> i32 {
        let keeps = |range: Range| range.contains(output);
        if self.is_out(unit, period) && !self.arc(unit, period, from, to).is_some_and(keeps) {
            return 0;
        }
        self.fleet.cost(unit, period, from, to, output)
    }

    fn may_end(&self, unit: usize, state: usize) -> bool {
        self.fleet.may_end(unit, state)
    }
}
