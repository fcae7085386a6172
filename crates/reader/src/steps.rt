// Steps: what lots cost, the first lots at the first price each, and so on.
ghost use Rattle.std.specs.Prelude.{◌≡◌, ◌≤◌, ◌++◌, ◌-◌, true, false, length, replicate, MatchOption};
ghost use Rattle.reader.specs.Steps.{fair_step, fair_steps, fair_list, fair_places, lots_in, no_step};

use terms::is_near;

// Some lots at one price each, in cents.
#[derive(Clone, Copy, PartialEq, Eq, Debug, Default)]
pub struct Step {
    pub lots: u32,
    pub price: i32,
}

// One to four steps, in order. Places that are not used are zero, so equal steps are equal values.
#[derive(Clone, Copy, PartialEq, Eq, Debug)]
pub struct Steps {
    pub places: [Step; 4],
    ghost four: { length places ≡ 4 },
    ghost fair: { fair_places places ≡ true },
}

impl Step {
    fn is_fair(&self) -> bool
        ensures { result ≡ fair_step self.now }
    {
        (1..=500).contains(&self.lots) && is_near(500_000, self.price)
    }
}

fn are_fair(steps: &[Step]) -> bool
    ensures { result ≡ fair_steps steps.now }
{
    steps.iter().all(|step| step.is_fair())
}

// One to four, each in its range.
fn is_fair_list(steps: &[Step]) -> bool
    ensures { result ≡ fair_list steps.now }
{
    (1..=4).contains(&steps.len()) && are_fair(steps)
}

fn padded(steps: &[Step]) -> [Step; 4]
    requires { length steps.now ≤ 4 }
    ensures long { length result ≡ 4 }
    ensures padded { result ≡ steps.now ++ replicate (4 - length steps.now) no_step }
{
    let mut places = [Step::default(); 4];
    places[..steps.len()].copy_from_slice(steps);
    places
}

impl Steps {
    // The steps, unless they are none or more than four, or one is out of range.
    pub fn new(steps: &[Step]) -> Option<Steps>
        ensures { MatchOption result (fair_list steps.now ≡ false) (λ made. (fair_list steps.now ≡ true) × (made.places ≡ steps.now ++ replicate (4 - length steps.now) no_step)) }
    {
        if is_fair_list(steps) {
            let places = padded(steps);
            Some(Steps { places })
        } else {
            None
        }
    }

    // All their lots.
    pub fn lots(&self) -> u32
        ensures { result ≡ lots_in self.now.places }
    {
        let mut lots = 0;
        for step in &self.places {
            lots += step.lots;
        }
        lots
    }
}
