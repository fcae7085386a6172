// The offer book.
ghost use Rattle.std.specs.Prelude.{◌≡◌, ◌≤◌, false, [], ◌∷◌, ◌++◌, length, if◌then◌else◌, nat_lt};
ghost use Rattle.std.specs.Bool.{MatchBool};
ghost use Rattle.std.specs.List.{slice_get};
ghost use Rattle.units.specs.Offers.{KeepsRule};
ghost use Rattle.offers.specs.Books.{book_meaning, no_units, AddsUnit};
ghost use Rattle.offers.specs.BookSound.{book_sound};

use arrayvec::ArrayVec;
use fleet::{Fleet, Range};
use reader::Offer;

// Up to 64 offers, the units of a fleet in the order in which they were added.
#[derive(Drop)]
pub struct Book {
    offers: ArrayVec<Offer, 64>,
    ghost few: { length offers.items ≤ 64 },
}

impl Book {
    // A book without offers.
    pub fn new() -> Book
        ensures offers { result.offers.items ≡ [] }
        ensures meaning { ⟦<Book as Fleet>⟧.meaning result ≡ no_units }
    {
        Book {
            offers: ArrayVec::new(),
        }
    }

    // One offer more, whose schedules are exactly those of the rule of its kind; whether there was room.
    #[tactic(auto, using(crate::proofs::Rules::added_keeps, crate::proofs::Adding::adds_unit))]
    pub fn add(&mut self, offer: Offer) -> bool
        ensures room { result ≡ nat_lt (length self.old.offers.items) 64 }
        ensures offers { self.new.offers.items ≡ (if result then self.old.offers.items ++ (offer ∷ []) else self.old.offers.items) }
        ensures meaning { let meaning = ⟦<Book as Fleet>⟧.meaning in MatchBool result (AddsUnit (meaning self.old) (meaning self.new) offer) (meaning self.new ≡ meaning self.old) }
        ensures untouched { result ≡ false → self.new ≡ self.old }
        ensures rule { KeepsRule offer }
    {
        if self.offers.is_full() {
            return false;
        }
        self.offers.push(offer);
        true
    }

    // The offer of a unit.
    fn find(&self, unit: usize) -> Option<Offer>
        ensures { result ≡ slice_get self.now.offers.items unit }
    {
        self.offers.get(unit).copied()
    }
}

impl Fleet for Book {
    ghost meaning = { λ s. book_meaning s.offers.items };

    ghost sound = { λ s. book_sound s.offers.items s.few };

    fn units(&self) -> usize {
        self.offers.len()
    }

    fn states(&self, unit: usize) -> usize {
        self.find(unit).map_or(1, |offer| units::states(&offer))
    }

    fn start(&self, unit: usize) -> usize {
        self.find(unit).map_or(0, |offer| units::start(&offer))
    }

    fn arc(&self, unit: usize, period: usize, from: usize, to: usize) -> Option<Range> {
        units::arc(&self.find(unit)?, period, from, to)
    }

    fn cost(&self, unit: usize, period: usize, from: usize, to: usize, output: i32) -> i32 {
        self.find(unit)
            .map_or(0, |offer| units::cost(&offer, period, from, to, output))
    }

    fn may_end(&self, unit: usize, state: usize) -> bool {
        self.find(unit)
            .is_some_and(|offer| units::may_end(&offer, state))
    }
}
