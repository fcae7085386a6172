// The length of a day.
ghost use Rattle.std.specs.Prelude.{◌≡◌, ◌<◌, ◌≤◌, ◌⊎◌, MatchOption};

// The number of periods of a day, 1 to 48.
#[derive(Clone, Copy, PartialEq, Eq, Debug)]
pub struct Periods {
    count: usize,
    ghost some: { 1 ≤ count },
    ghost few: { count ≤ 48 },
}

impl Periods {
    // A day of this many periods, or nothing where there are none or more than 48.
    pub fn new(count: usize) -> Option<Periods>
        ensures { MatchOption result ((count < 1) ⊎ (48 < count)) (λ p. (1 ≤ count) × (count ≤ 48) × (p.count ≡ count)) }
    {
        if !(1..=48).contains(&count) {
            return None;
        }
        Some(Periods { count })
    }

    // How many they are.
    pub fn count(self) -> usize
        ensures { result ≡ self.count }
    {
        self.count
    }
}
