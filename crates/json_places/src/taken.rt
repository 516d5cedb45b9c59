//! Where the steps of sorted paths were taken last.
use crate::path::{Path, is_same_step};
use std::alloc::{AllocError, Global};

/// The steps of a path that the path before it does not begin with.
#[derive(Drop)]
struct Own {
    /// How many steps come before them.
    shared: usize,
    /// For each of them the offset of what it led to last.
    offsets: Vec<Option<usize>>,
}

/// Where the steps of each path were taken last. Of paths that begin with the same steps only the first one has them.
#[derive(Drop)]
pub struct Taken {
    own: Vec<Own>,
}

impl Taken {
    /// No step is taken.
    pub fn new(alloc: Global, paths: &[Path<'_>]) -> Result<Taken, AllocError> {
        let mut own = Vec::new(alloc);
        for (index, path) in paths.iter().enumerate() {
            let shared = shared_steps(paths, index);
            own.push(Own {
                shared,
                offsets: vec![in alloc; None; path.steps.len().saturating_sub(shared)]?,
            })?;
        }
        Ok(Taken { own })
    }

    /// Takes the step at this depth of the path at an index.
    pub fn take(&mut self, index: usize, depth: usize, offset: usize) {
        if let Some(own) = self.own.get_mut(index)
            && let Some(taken) = own.offsets.get_mut(depth.saturating_sub(own.shared))
        {
            *taken = Some(offset);
        }
    }

    /// Goes the way of the path at an index, after that of the path before it: for each step the offset where it led last, if the
    /// step before it led around that offset.
    ///
    /// A step into an earlier member of a name, which does not count, led to an offset before the later member.
    pub fn follow(&self, way: &mut Vec<Option<usize>>, index: usize) -> Result<(), AllocError> {
        let Some(own) = self.own.get(index) else {
            return Ok(());
        };
        way.truncate(own.shared);
        for offset in &own.offsets {
            let next = inside(way.last().copied(), *offset);
            way.push(next)?;
        }
        Ok(())
    }
}

/// The offset of a step, if it is after that of the step before.
fn inside(before: Option<Option<usize>>, offset: Option<usize>) -> Option<usize> {
    match (before, offset) {
        (None, offset) => offset,
        (Some(Some(before)), Some(offset)) if before < offset => Some(offset),
        _ => None,
    }
}

/// The path before the one at an index.
fn before<'p, 'a>(paths: &'p [Path<'a>], index: usize) -> Option<&'p Path<'a>> {
    if index == 0 {
        None
    } else {
        paths.get(index - 1)
    }
}

/// How many of its first steps the path at an index has from the one before.
fn shared_steps(paths: &[Path<'_>], index: usize) -> usize {
    let (Some(path), Some(before)) = (paths.get(index), before(paths, index)) else {
        return 0;
    };
    for depth in 0..path.steps.len() {
        match (path.steps.get(depth), before.steps.get(depth)) {
            (Some(step), Some(other)) if is_same_step(*step, *other) => {}
            _ => return depth,
        }
    }
    path.steps.len()
}

/// Whether the path at an index and the one before have the same steps.
pub fn is_repeated(paths: &[Path<'_>], index: usize) -> bool {
    match (paths.get(index), before(paths, index)) {
        (Some(path), Some(before)) => {
            path.steps.len() == before.steps.len() && shared_steps(paths, index) == path.steps.len()
        }
        _ => false,
    }
}
