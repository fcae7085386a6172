// A whole day file, and the text that it is answered with.
#![tactic(auto)]

mod begun;
mod cutting;
mod known;
mod lining;
mod open;
mod reading;
mod session;
mod settling;
mod tables;

pub use reading::answer_file;
pub use settling::settle;
