// The settlement program: a day file on standard input, its replies on standard output.
#![tactic(auto)]

use std::io;

fn main(rt: HostRuntime) -> io::Result<()> {
    day::answer_file(rt.alloc(), rt.stdin(), &mut rt.stdout())
}
