// What the docket keeps of a unit.
ghost use Rattle.std.specs.Prelude.{◌≡◌, ◌+◌, ◌≤◌, true, pos, ◌-ℤ◌, ◌*ℤ◌, Some};
ghost use Rattle.terms.specs.Numbers.{near, Near};

// A unit that has a run: what the run gains, the most that any of its schedules gains, and the weight of its mixes.
#[derive(Clone, Copy, PartialEq, Eq, Debug)]
pub struct Standing {
    pub gain: i64,
    pub best: i64,
    pub mixed: u32,
    ghost gain_near: { near 48000000000000 gain ≡ true },
    ghost best_near: { near 48000000000000 best ≡ true },
    ghost light: { mixed ≤ 1000 },
}

impl Standing {
    // A unit whose run is entered has no mixes yet.
    pub(crate) fn begun(gain: i64, best: i64) -> Standing
        requires gain { Near 48000000000000 gain }
        requires best { Near 48000000000000 best }
        ensures gain { result.gain ≡ gain }
        ensures best { result.best ≡ best }
        ensures mixed { result.mixed ≡ 0 }
    {
        Standing {
            gain,
            best,
            mixed: 0,
        }
    }

    // The same with the weight of one more mix.
    pub(crate) fn heavier(self, weight: u32) -> Standing
        requires { self.mixed + weight ≤ 1000 }
        ensures gain { result.gain ≡ self.gain }
        ensures best { result.best ≡ self.best }
        ensures mixed { result.mixed ≡ self.mixed + weight }
    {
        // Field by field: `..self` is refused beside ghost fields.
        Standing {
            gain: self.gain,
            best: self.best,
            mixed: self.mixed + weight,
        }
    }

    // A weight times what a mix of this gain lacks of the best gain.
    pub(crate) fn lacking(self, gain: i64, weight: u32) -> i64
        requires light { weight ≤ 1000 }
        requires gain { Near 48000000000000 gain }
        ensures { result ≡ pos weight *ℤ (self.best -ℤ gain) }
    {
        i64::from(weight) * (self.best - gain)
    }

    // What the unit is due for its run. Signed 64 bits always hold it.
    pub(crate) fn pay(self) -> Option<i64>
        ensures { result ≡ Some (self.best -ℤ self.gain) }
    {
        self.best.checked_sub(self.gain)
    }
}
