// A cursor over the words of a line.
ghost use Rattle.std.specs.Prelude.{◌+◌, ◌^◌, ◌<◌, length};

// What is left of a line, and the place of its first byte.
#[derive(Clone, Copy)]
pub struct Words<'a> {
    pub(crate) rest: &'a [u8],
    pub(crate) place: usize,
    ghost short: { place + length rest.now < 2 ^ 64 },
}
