//! Neighbours in a sorted list of paths: those that begin with the same steps.
use crate::path::{Path, Step, compared};
use std::cmp::Ordering;

/// The paths from one index up to another.
#[derive(Clone, Copy, Debug, Drop)]
pub struct Part {
    pub start: usize,
    pub end: usize,
}

impl Part {
    /// No path.
    pub const NONE: Part = Part { start: 0, end: 0 };
}

/// The paths of a part that have this step at this depth.
pub fn narrowed(paths: &[Path<'_>], part: Part, depth: usize, step: Step<'_>) -> Part {
    let start = first_index(
        paths,
        part,
        |path| compared(path, depth, step) == Ordering::Less,
    );
    let end = first_index(
        paths,
        Part {
            start,
            end: part.end,
        },
        |path| compared(path, depth, step) != Ordering::Greater,
    );
    Part { start, end }
}

/// The index of the first path of a part that fails a test which those before it pass.
fn first_index<F: FnMut(&Path<'_>) -> bool>(paths: &[Path<'_>], part: Part, test: F) -> usize
    requires { F.IsAlwaysCallable test }
{
    match paths.get(part.start..part.end) {
        Some(paths) => part.start + paths.partition_point(test),
        None => part.end,
    }
}
