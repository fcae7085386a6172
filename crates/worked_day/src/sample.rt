// The built-in day: one period, two steam units, a price of 6 cents a lot, and the evidence that it is least.
use fleet::SLOTS;
use offers::Book;
use reader::{Offer, Rest, Run, StartCosts, Steam, SteamNumbers, Step, Steps, Was};
use requests::Request;
use terms::Entry;

pub const PERIODS: usize = 1;

pub const WEIGHT: u32 = 2;

const NEED: [i32; 1] = [12];

const PRICE: [i32; 1] = [6];

// State 0 is on for a period or more, state 1 off.
const OFF: [Entry; 1] = [Entry {
    state: 1,
    output: 0,
}];

const EIGHT_LOTS: [Entry; 1] = [Entry {
    state: 0,
    output: 8,
}];

const FOUR_LOTS: [Entry; 1] = [Entry {
    state: 0,
    output: 4,
}];

const TEN_LOTS: [Entry; 1] = [Entry {
    state: 0,
    output: 10,
}];

// A unit that may go on and off in every period.
fn free(run: Run, start: u32, step: Step, was: Was) -> Option<Offer> {
    let rest = Rest {
        up: 1,
        down: 1,
        cold: 1,
    };
    let start = StartCosts {
        hot: start,
        frost: start,
    };
    let steam = Steam::new(SteamNumbers {
        run,
        rest,
        start,
        idle: 0,
        steps: Steps::new(&[step])?,
        was,
    })?;
    Some(Offer::Steam(steam))
}

// Unit 0 runs with 1 to 10 lots at 5 cents and was on; unit 1 runs with 4 lots for 16 cents and 2 cents a lot and was
// off.
pub fn book() -> Option<Book> {
    let ten = Run { lo: 1, hi: 10 };
    let four = Run { lo: 4, hi: 4 };
    let five = Step { lots: 10, price: 5 };
    let two = Step { lots: 4, price: 2 };
    let mut book = Book::new();
    let both = book.add(free(ten, 0, five, Was::On(1))?)
        && book.add(free(four, 16, two, Was::Off(1))?);
    both.then_some(book)
}

fn run<'a>(unit: usize, schedule: &'a [Entry]) -> Request<'a> {
    Request::Run {
        unit,
        schedule,
        slots: SLOTS,
    }
}

fn mix<'a>(unit: usize, weight: u32, schedule: &'a [Entry]) -> Request<'a> {
    Request::Mix {
        unit,
        weight,
        schedule,
    }
}

// The dispatch runs unit 0 with 8 lots and unit 1 with 4; the evidence mixes unit 0 at 10 lots, and unit 1 half at 4
// lots and half off.
pub fn requests<'a>() -> [Request<'a>; 7] {
    [
        Request::Need(&NEED),
        Request::Price(1, &PRICE),
        run(0, &EIGHT_LOTS),
        run(1, &FOUR_LOTS),
        mix(0, 2, &TEN_LOTS),
        mix(1, 1, &FOUR_LOTS),
        mix(1, 1, &OFF),
    ]
}
