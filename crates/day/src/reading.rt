// A day file that is read, and its text written.
ghost use Rattle.std.specs.Prelude.{OnOk};
ghost use Rattle.day.specs.Settling.{WritesText};

use crate::settling::{LONGEST, settle};
use std::alloc::Global;
use std::io::{self, Read, Write};

// One byte more than a file may have is enough to see that it is too long.
const ENOUGH: u64 = LONGEST as u64 + 1;

// Reads a file, as far as its length matters, and writes the text that it is answered with. The error is the reader's, the
// writer's or the allocator's.
pub fn answer_file<R: Read + Drop, W: Write>(
    alloc: Global,
    input: R,
    output: &mut W,
) -> io::Result<()>
    ensures { OnOk result (WritesText (R.Read.remaining input) (W.Write.contents output.old) (W.Write.contents output.new)) }
{
    let mut file = Vec::new(alloc);
    input.take(ENOUGH).read_to_end(&mut file)?;
    let text = settle(alloc, &file)?;
    output.write_all(text.as_bytes())
}
