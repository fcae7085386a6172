// The plain record of an arc.
ghost use Rattle.std.specs.Prelude.{◌≡◌};
ghost use Rattle.fleet.specs.Units.{among};

// The outputs of an arc: from the lowest to the highest. A `RangeInclusive` is no `Copy`, and also says how much of it
// was gone through.
#[derive(Clone, Copy, PartialEq, Eq, Debug)]
pub struct Range {
    pub lo: i32,
    pub hi: i32,
}

impl Range {
    // Whether an output is one of the arc's.
    pub fn contains(self, output: i32) -> bool
        ensures { result ≡ among self output }
    {
        (self.lo..=self.hi).contains(&output)
    }
}
