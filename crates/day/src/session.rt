// What a file has said so far.
use crate::known::Known;
use fleet_kinds::Outages;
use offers::Book;
use settlement::Docket;

// A day with its offers and outages, before its docket is open.
#[derive(Drop)]
pub(crate) struct BegunDay {
    pub(crate) periods: usize,
    pub(crate) weight: u32,
    pub(crate) fleet: Outages<Book>,
}

// A day whose docket is open, with the number of its periods and units, and the answers of the docket that last.
#[derive(Drop)]
pub(crate) struct OpenDay {
    pub(crate) periods: usize,
    pub(crate) units: usize,
    pub(crate) docket: Docket<Outages<Book>>,
    pub(crate) known: Known,
}

#[derive(Drop)]
pub(crate) enum Session {
    Before,
    Begun(BegunDay),
    Open(OpenDay),
}
