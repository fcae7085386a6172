// Small drawn offers of each kind. Of every list of outputs, what the rule of the kind says in words is held against all
// paths of the unit in an offer book.
#![tactic(auto)]

mod draws;
mod kinds;
mod lists;
mod lots;
mod moving;
mod paths;
mod rules;
mod steam;
mod trials;

use crate::draws::Draws;
use crate::kinds::Kind;
use crate::trials::{Tally, try_offers};

fn main(rt: HostRuntime) -> anyhow::Result<()> {
    let mut draws = Draws { seed: 7 };
    for kind in [Kind::Steam, Kind::Ramp, Kind::Lake, Kind::Buyer] {
        let name = kind.name();
        let Tally {
            offers,
            lists,
            allowed,
            disagree,
        } = try_offers(rt.alloc(), &mut draws, kind)?;
        println!(rt;
            "{name}: {offers} offers, {lists} lists, {allowed} allowed, {disagree} disagree"
        )?;
    }
    Ok(())
}
