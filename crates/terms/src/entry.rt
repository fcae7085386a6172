// The plain record of a schedule.

// One period of a schedule: the state that the unit goes into, and its output. The default fills the
// places of a list that are not used.
#[derive(Clone, Copy, PartialEq, Eq, Debug, Default)]
pub struct Entry {
    pub state: usize,
    pub output: i32,
}
