// Entering runs and mixes into the sums.
ghost use Rattle.std.specs.Prelude.{◌≡◌, ℕ, ◌+◌, ◌<◌, ◌≤◌, pos, ◌+ℤ◌, ◌*ℤ◌, Some, None, slice_index_or};
ghost use Rattle.terms.specs.Numbers.{Near};
ghost use Rattle.settlement.specs.Evidence.{lots_at};
ghost use Rattle.settlement.specs.Sheets.{RunNoted, MixNoted};

use crate::counted::Counted;
use crate::sheet::Sheet;
use crate::standing::Standing;

// A weight times a number of lots.
pub(super) fn times(weight: u32, lots: i32) -> i64
    ensures { result ≡ pos weight *ℤ lots }
{
    i64::from(weight) * i64::from(lots)
}

// Adds a schedule's lots, by weight, to the sums of the periods.
fn add_lots(sums: &mut [i64; 48], weight: u32, counted: Counted)
    requires light { weight ≤ 1000 }
    requires sums { (t : ℕ) → Near 32000000 (slice_index_or sums.old t (pos 0)) }
    ensures { (t : ℕ) → slice_index_or sums.new t (pos 0) ≡ slice_index_or sums.old t (pos 0) +ℤ (pos weight *ℤ lots_at counted.entry.schedule.now t) }
{
    // By place: no clause says what a slice holds after writes through a zip.
    for (period, entry) in counted.schedule.iter().enumerate() {
        sums[period] += times(weight, entry.output);
    }
}

impl Sheet {
    // A unit's run, and the best gain.
    pub(crate) fn note_run(&mut self, unit: usize, run: Counted, best: i64)
        requires unit { unit < 64 }
        requires first { slice_index_or self.old.units unit None ≡ None }
        requires best { Near 48000000000000 best }
        ensures { RunNoted unit run.entry.gain best run.entry.schedule.now self.old self.new }
    {
        add_lots(&mut self.runs, 1, run);
        self.units[unit] = Some(Standing::begun(run.gain, best));
    }

    // A mix of a unit that has a run.
    pub(crate) fn note_mix(&mut self, unit: usize, standing: Standing, weight: u32, mix: Counted)
        requires unit { unit < 64 }
        requires stands { slice_index_or self.old.units unit None ≡ Some standing }
        requires light { standing.mixed + weight ≤ 1000 }
        ensures { MixNoted unit standing weight mix.entry.gain mix.entry.schedule.now self.old self.new }
    {
        add_lots(&mut self.mixes, weight, mix);
        self.gap += standing.lacking(mix.gain, weight);
        self.units[unit] = Some(standing.heavier(weight));
    }
}
