//! Places that are reached from the root.

use crate::Result;
use crate::builder::Builder;

impl<'v> Builder<'v> {
    /// Returns for each place whether it is reached from the root.
    pub(crate) fn reached(&self) -> Result<Vec<bool>> {
        let mut is_reached = Vec::with_capacity(self.known.alloc, self.tree.places.len())?;
        for _ in &self.tree.places {
            is_reached.push(false)?;
        }
        let mut waiting = Vec::new(self.known.alloc);
        waiting.push(0)?;
        for _ in 0..u64::MAX {
            let Some(number) = waiting.pop() else {
                return Ok(is_reached);
            };
            if !is_new(&mut is_reached, number) {
                continue;
            }
            let place = self.tree.place(number);
            if let Some(up) = place.up {
                waiting.push(up)?;
            }
            if let Some(link) = place.link {
                waiting.push(link)?;
            }
            for at in place.from..place.to {
                let ask = self.tree.ask(at);
                if let Some(seen) = self.tree.seen(ask) {
                    if !ask.is_bundled {
                        waiting.push(seen)?;
                    }
                }
            }
        }
        Ok(is_reached)
    }
}

/// Marks a place. Returns `true` if it was not marked before.
fn is_new(marks: &mut Vec<bool>, number: usize) -> bool {
    match marks.get_mut(number) {
        Some(mark) => {
            let is_new = !*mark;
            *mark = true;
            is_new
        }
        None => false,
    }
}

/// Returns `true` if a place is marked.
pub(crate) fn is_marked(marks: &[bool], number: usize) -> bool {
    match marks.get(number) {
        Some(mark) => *mark,
        None => false,
    }
}
