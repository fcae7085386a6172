// A whole list of requests on a fresh docket.
#![tactic(auto)]

mod desk;
mod making;
mod request;
mod settling;

pub use desk::Desk;
pub use request::{Answer, Request};
pub use settling::{Closed, settle};
