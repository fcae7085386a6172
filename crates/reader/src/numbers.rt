// The numbers of the offers, as they are written. Lots are whole, money is in cents.
use crate::steps::Steps;

// The lots of a unit that is on: from the lowest to the highest.
#[derive(Clone, Copy, PartialEq, Eq, Debug)]
pub struct Run {
    pub lo: u32,
    pub hi: u32,
}

// How many periods a unit stays on, how many it stays off, and after how many off it is cold.
#[derive(Clone, Copy, PartialEq, Eq, Debug)]
pub struct Rest {
    pub up: usize,
    pub down: usize,
    pub cold: usize,
}

// What a start costs: of a unit that is not cold, and of one that is.
#[derive(Clone, Copy, PartialEq, Eq, Debug)]
pub struct StartCosts {
    pub hot: u32,
    pub frost: u32,
}

// On or off before the day, for so many periods.
#[derive(Clone, Copy, PartialEq, Eq, Debug)]
pub enum Was {
    On(usize),
    Off(usize),
}

#[derive(Clone, Copy, PartialEq, Eq, Debug)]
pub struct SteamNumbers {
    pub run: Run,
    pub rest: Rest,
    pub start: StartCosts,
    // The cost of a period on, beside that of its lots.
    pub idle: u32,
    pub steps: Steps,
    pub was: Was,
}

// How far the output moves between two periods on, and the most that it is beside a period off.
#[derive(Clone, Copy, PartialEq, Eq, Debug)]
pub struct Rate {
    pub step: u32,
    pub edge: u32,
}

#[derive(Clone, Copy, PartialEq, Eq, Debug)]
pub struct RampNumbers {
    pub run: Run,
    pub rate: Rate,
    // The cost of each start.
    pub start: u32,
    // The cost of a period on, beside that of its lots.
    pub idle: u32,
    pub steps: Steps,
    // The output before the day, 0 where it was off.
    pub was: u32,
}

// How far a lake's level may fall and rise in a period.
#[derive(Clone, Copy, PartialEq, Eq, Debug)]
pub struct Flow {
    pub fall: usize,
    pub rise: usize,
}

#[derive(Clone, Copy, PartialEq, Eq, Debug)]
pub struct LakeNumbers {
    // The highest level.
    pub full: usize,
    pub flow: Flow,
    // The cost of each lot of level moved.
    pub wear: u32,
    // The level before the day.
    pub was: usize,
    // The lowest level at the end of the day.
    pub end: usize,
}
