// What lots cost by steps.
ghost use Rattle.std.specs.Prelude.{◌≡◌, ◌≤◌, pos, ◌+ℤ◌, ◌*ℤ◌};
ghost use Rattle.terms.specs.Numbers.{Near};
ghost use Rattle.units.specs.Fill.{fill, FilledInOrder};

use reader::{Step, Steps};

// Some of a step's lots.
fn part_cost(step: &Step, lots: u32) -> i32
    requires price { Near 500000 step.now.price }
    requires few { lots ≤ 500 }
    ensures { result ≡ step.now.price *ℤ pos lots }
{
    step.price * lots as i32
}

// The first lots at the first price each, and so on.
#[tactic(auto, using(crate::proofs::Fills::filled))]
pub(crate) fn lots_cost(steps: &Steps, lots: u32) -> i32
    requires { lots ≤ 500 }
    ensures order { FilledInOrder }
    ensures is { result ≡ fill steps.now.places lots }
    ensures near { Near 250000000 result }
{
    let mut rest = lots;
    let mut cost = 0;
    for step in &steps.places {
        let part = step.lots.min(rest);
        cost += part_cost(step, part);
        rest -= part;
    }
    cost
}

// The cost of a period on: a fixed amount, and its lots.
pub(crate) fn running_cost(fixed: u32, steps: &Steps, lots: u32) -> i32
    requires fixed { fixed ≤ 200000000 }
    requires few { lots ≤ 500 }
    ensures { result ≡ pos fixed +ℤ fill steps.now.places lots }
{
    fixed as i32 + lots_cost(steps, lots)
}
