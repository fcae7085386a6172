// What a line of a day file is answered, and its text.
#![tactic(auto)]

mod reply;
mod texts;

pub use reply::Reply;
