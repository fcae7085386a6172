// Offers that the tests share, and what they ask of a book.
use decline_numbers::numbered;
use fleet::{Periods, PriceRow, check_schedule};
use offers::Book;
use reader::{
    Flow, Lake, LakeNumbers, Offer, Ramp, RampNumbers, Rate, Rest, Run, StartCosts, Steam,
    SteamNumbers, Step, Steps, Was,
};
use std::test::*;
use terms::{Cause, Decline, Entry};

pub(crate) fn step(lots: u32, price: i32) -> Step {
    Step { lots, price }
}

// Two steps, the second at a lower price.
pub(crate) fn steps() -> Option<Steps> {
    Steps::new(&[step(6, 5), step(4, -7)])
}

// A steam unit of 4 to 10 lots that was on for one period.
pub(crate) fn steam_numbers() -> Option<SteamNumbers> {
    Some(SteamNumbers {
        run: Run { lo: 4, hi: 10 },
        rest: Rest {
            up: 2,
            down: 2,
            cold: 3,
        },
        start: StartCosts {
            hot: 100,
            frost: 1000,
        },
        idle: 3,
        steps: steps()?,
        was: Was::On(1),
    })
}

// A ramp unit of 4 to 10 lots that was off.
pub(crate) fn ramp_numbers() -> Option<RampNumbers> {
    Some(RampNumbers {
        run: Run { lo: 4, hi: 10 },
        rate: Rate { step: 3, edge: 6 },
        start: 100,
        idle: 3,
        steps: steps()?,
        was: 0,
    })
}

// A lake of 8 lots that is half full and ends so at least.
pub(crate) const LAKE: LakeNumbers = LakeNumbers {
    full: 8,
    flow: Flow { fall: 3, rise: 2 },
    wear: 10,
    was: 4,
    end: 4,
};

pub(crate) fn steam(numbers: SteamNumbers) -> Result<Offer, &'static str> {
    Ok(Offer::Steam(Steam::new(numbers).ok_or("no steam unit")?))
}

pub(crate) fn ramp(numbers: RampNumbers) -> Result<Offer, &'static str> {
    Ok(Offer::Ramp(Ramp::new(numbers).ok_or("no ramp unit")?))
}

pub(crate) fn lake(numbers: LakeNumbers) -> Result<Offer, &'static str> {
    Ok(Offer::Lake(Lake::new(numbers).ok_or("no lake")?))
}

// A book of these offers.
pub(crate) fn book(offers: &[Offer]) -> Result<Book, &'static str> {
    let mut book = Book::new();
    for offer in offers {
        if !book.add(*offer) {
            return Err("no room");
        }
    }
    Ok(book)
}

// A row of prices of zero.
fn no_prices(periods: usize) -> Result<PriceRow, Decline> {
    let zeros = [0; 48];
    let day = Periods::new(periods).ok_or(Cause::PeriodsOrWeight.at(0))?;
    PriceRow::new(day, 1, zeros.get(..periods).ok_or(Cause::RowLength.at(0))?)
}

// What a day of these entries costs, or the number and place of the decline.
pub(crate) type Costs = Result<i64, (u32, usize)>;

// Of a book of the offer alone.
pub(crate) fn cost(offer: Offer, schedule: &[Entry]) -> Result<Costs, Fail> {
    let book = book(&[offer])?;
    let row = no_prices(schedule.len())?;
    let account = check_schedule(&book, 0, &row, schedule);
    Ok(account.map(|account| account.cost).map_err(numbered))
}

pub(crate) fn entry(state: usize, output: i32) -> Entry {
    Entry { state, output }
}
