// The offer book: offers as the units of a fleet.
#![tactic(auto)]

mod book;

pub use book::Book;
