// What is tried, and what comes of it.
use crate::draws::Draws;
use crate::kinds::Kind;
use crate::lists::{advance, count, wider};
use crate::paths::paths;
use crate::rules::rule_cost;
use offers::Book;
use reader::Offer;
use std::alloc::{AllocError, Global};

#[derive(Drop, Default)]
pub(crate) struct Tally {
    pub(crate) offers: u32,
    pub(crate) lists: u32,
    pub(crate) allowed: u32,
    pub(crate) disagree: u32,
}

impl Tally {
    // One list of outputs: what the rule says, and the costs of the paths. They agree on one path at the rule's cost, or
    // on none.
    fn count(&mut self, rule: Option<i64>, costs: &[i64]) {
        let agrees = match rule {
            Some(cost) => costs == [cost].as_slice(),
            None => costs.is_empty(),
        };
        self.lists = self.lists.saturating_add(1);
        self.allowed = self.allowed.saturating_add(u32::from(rule.is_some()));
        self.disagree = self.disagree.saturating_add(u32::from(!agrees));
    }
}

// All lists over a day.
fn try_offer(
    heap: Global,
    book: &Book,
    unit: usize,
    offer: &Offer,
    outputs: &mut [i32],
    tally: &mut Tally,
) -> Result<(), AllocError> {
    let range = wider(offer);
    outputs.fill(range.lo);
    let periods = u32::try_from(outputs.len()).unwrap_or(0);
    for _ in 0..count(range, periods) {
        let paths = paths(heap, book, unit, outputs)?;
        let costs: Vec<i64> = paths.iter().map(|path| path.cost).collect(heap)?;
        tally.count(rule_cost(offer, outputs), &costs);
        advance(range, outputs);
    }
    tally.offers = tally.offers.saturating_add(1);
    Ok(())
}

// As many drawn offers as a book has room for, each over a day of three or four periods.
fn try_book(
    heap: Global,
    draws: &mut Draws,
    kind: Kind,
    tally: &mut Tally,
) -> Result<(), AllocError> {
    let mut book = Book::new();
    for unit in 0..64 {
        let Some(offer) = kind.drawn(draws) else {
            break;
        };
        if !book.add(offer) {
            break;
        }
        let mut outputs = [0; 4];
        let periods = draws.periods(3, 4);
        if let Some(outputs) = outputs.get_mut(..periods) {
            try_offer(heap, &book, unit, &offer, outputs, tally)?;
        }
    }
    Ok(())
}

// Four books of offers of a kind.
pub(crate) fn try_offers(heap: Global, draws: &mut Draws, kind: Kind) -> Result<Tally, AllocError> {
    let mut tally = Tally::default();
    for _ in 0..4 {
        try_book(heap, draws, kind, &mut tally)?;
    }
    Ok(tally)
}
