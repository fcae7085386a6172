// The bytes and words of a line, and the small readers that every form is made of.
#![tactic(auto)]

mod classes;
mod cursor;
mod line;
mod numerals;
mod readers;
mod word;

pub use classes::check_bytes;
pub use line::Words;
pub use readers::Bounds;
pub use word::{PlacedWord, Word};
