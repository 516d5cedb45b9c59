//! The places that wait to be settled.

use crate::Result;
use crate::tree::{Tree, Turn};

impl Tree {
    /// Marks a place and what stands below it as gone, or as back.
    pub(crate) fn mark_gone(&mut self, number: usize, is_gone: bool) -> Result<()> {
        let mut waiting = Vec::new(self.alloc);
        waiting.push(number)?;
        for _ in 0..u64::MAX {
            let Some(number) = waiting.pop() else {
                return Ok(());
            };
            if let Some(place) = self.places.get_mut(number) {
                place.is_gone = is_gone;
            }
            if is_gone {
                self.leave_queue(number)?;
            } else {
                self.join_queue(number)?;
            }
            if let Some(kids) = self.kids.get(number) {
                waiting.extend_from_slice(kids)?;
            }
        }
        Ok(())
    }

    /// Lets a place wait to be settled.
    pub(crate) fn join_queue(&mut self, number: usize) -> Result<()> {
        let place = self.place(number);
        if !place.is_settled && place.link.is_none() {
            let turn = self.turn_of(number)?;
            self.queue.insert(turn, number)?;
        }
        Ok(())
    }

    pub(crate) fn leave_queue(&mut self, number: usize) -> Result<()> {
        if !self.place(number).is_settled {
            let turn = self.turn_of(number)?;
            self.queue.remove(&turn);
        }
        Ok(())
    }

    fn turn_of(&self, number: usize) -> Result<Turn> {
        Ok(Turn {
            depth: self.place(number).depth,
            folder: String::from_str(self.alloc, self.folder(number))?,
        })
    }
}
