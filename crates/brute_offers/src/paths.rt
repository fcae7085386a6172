// All paths of a unit with given outputs, by a fleet's answers.
use fleet::Fleet;
use std::alloc::{AllocError, Global};

// A path so far: the state that it has come to, and its cost.
#[derive(Clone, Copy, PartialEq, Eq, Debug)]
pub(crate) struct Path {
    state: usize,
    pub(crate) cost: i64,
}

// The path with one more period, where an arc into the state has the output.
fn stepped<F: Fleet>(
    fleet: &F,
    unit: usize,
    period: usize,
    path: Path,
    to: usize,
    output: i32,
) -> Option<Path> {
    let range = fleet.arc(unit, period, path.state, to)?;
    if !range.contains(output) {
        return None;
    }
    let paid = fleet.cost(unit, period, path.state, to, output);
    Some(Path {
        state: to,
        cost: path.cost.saturating_add(i64::from(paid)),
    })
}

// The paths that go on from these.
fn longer<F: Fleet>(
    heap: Global,
    fleet: &F,
    unit: usize,
    period: usize,
    output: i32,
    paths: &[Path],
) -> Result<Vec<Path>, AllocError> {
    let mut longer = Vec::new(heap);
    for path in paths {
        for to in 0..fleet.states(unit) {
            if let Some(path) = stepped(fleet, unit, period, *path, to, output) {
                longer.push(path)?;
            }
        }
    }
    Ok(longer)
}

// The paths of whole days.
pub(crate) fn paths<F: Fleet>(
    heap: Global,
    fleet: &F,
    unit: usize,
    outputs: &[i32],
) -> Result<Vec<Path>, AllocError> {
    let mut paths = Vec::new(heap);
    paths.push(Path {
        state: fleet.start(unit),
        cost: 0,
    })?;
    for (period, output) in outputs.iter().enumerate() {
        paths = longer(heap, fleet, unit, period, *output, &paths)?;
    }
    paths.retain(|path| fleet.may_end(unit, path.state));
    Ok(paths)
}
