// The worked day as a list of calls, from opening to verdict.
#![tactic(auto)]

mod sample;

use anyhow::anyhow;
use fleet::SLOTS;
use requests::{Closed, Desk, settle};
use settlement::Judgement;
use terms::Entry;

fn print_pays(rt: &HostRuntime, pays: &[i64]) -> anyhow::Result<()> {
    for (unit, pay) in pays.iter().enumerate() {
        println!(rt; "(pay {unit} {pay})")?;
    }
    Ok(())
}

// A line of this program's output, and no type's text.
fn print_verdict(rt: &HostRuntime, judgement: Judgement) -> anyhow::Result<()> {
    let Judgement {
        verdict,
        uplift,
        over,
        gap,
        weight,
    } = judgement;
    println!(rt;
        "(verdict {verdict} (uplift {uplift}) (over {over}) (gap {gap}) (weight {weight}))"
    )?;
    Ok(())
}

// The pays of the sample's two units, and the verdict.
fn settle_sample() -> anyhow::Result<([i64; 2], Judgement)> {
    let book = sample::book().ok_or_else(|| anyhow!("the sample's offers disagree"))?;
    let mut gains = [None; SLOTS];
    let mut schedule = [Entry {
        state: 0,
        output: 0,
    }; 1];
    let mut pays = [0; 2];
    let desk = Desk {
        gains: &mut gains,
        fewer: &mut [],
        more: &mut [],
        schedule: &mut schedule,
        pays: &mut pays,
    };
    let mut answers = [None; 7];
    let Closed { fleet: _, judged } = settle(
        book,
        sample::PERIODS,
        sample::WEIGHT,
        &sample::requests(),
        desk,
        &mut answers,
    );
    let judgement = judged.map_err(|_| anyhow!("the sample is declined"))?;
    Ok((pays, judgement))
}

fn main(rt: HostRuntime) -> anyhow::Result<()> {
    let (pays, judgement) = settle_sample()?;
    print_pays(&rt, &pays)?;
    print_verdict(&rt, judgement)
}
