//! Packages that are not needed where they stand.

use crate::Result;
use crate::builder::Builder;
use crate::growth::remove_last;
use crate::place::Spot;

impl<'v> Builder<'v> {
    /// Removes each package where all that see it would be met by the one above, of the same or a higher version.
    pub(crate) fn prune(&mut self) -> Result<()> {
        for _ in 0..u64::MAX {
            let order = self.inner_first()?;
            let mut is_new = false;
            for number in &order {
                if self.is_needless(*number) {
                    self.remove(*number)?;
                    is_new = true;
                }
            }
            if !is_new {
                return Ok(());
            }
        }
        Ok(())
    }

    /// The packages in folders of packages below the root, those inside others first.
    fn inner_first(&self) -> Result<Vec<usize>> {
        let mut order = Vec::new(self.known.alloc);
        let mut waiting = Vec::new(self.known.alloc);
        waiting.push((0, false))?;
        for _ in 0..u64::MAX {
            let Some((number, is_open)) = waiting.pop() else {
                return Ok(order);
            };
            if is_open {
                order.push(number)?;
                continue;
            }
            if number != 0 {
                waiting.push((number, true))?;
            }
            if let Some(kids) = self.tree.kids.get(number) {
                for kid in kids.iter().rev() {
                    if !self.tree.place(*kid).is_top {
                        waiting.push((*kid, false))?;
                    }
                }
            }
        }
        Ok(order)
    }

    /// Returns `true` if all that see a package would be met by the one above.
    fn is_needless(&self, number: usize) -> bool {
        let place = self.tree.place(number);
        let Some(folder) = place.up else {
            return false;
        };
        let Some(up) = self.tree.see(self.tree.place(folder).up, place.name) else {
            return false;
        };
        let above = self.tree.place(up);
        if above.link.unwrap_or(up) == number || self.tree.is_within(up, number) {
            return false;
        }
        let package = self.known.package_name(place.version);
        if above.is_top
            || self.known.package_name(above.version) != package
            || self.known.is_below(above.version, place.version)
        {
            return false;
        }
        self.all_met_by(number, up)
    }

    /// Returns `true` if all that see a package would be met by another one.
    fn all_met_by(&self, number: usize, other: usize) -> bool {
        let Some(askers) = self.tree.askers.get(self.tree.place(number).name) else {
            return true;
        };
        for asker in askers {
            let ask = self.tree.ask(*asker);
            if !self.tree.place(ask.from).is_gone
                && !self.tree.is_within(ask.from, number)
                && self.tree.seen(ask) == Some(number)
                && !self.meets(ask, other)
            {
                return false;
            }
        }
        true
    }

    /// Removes a package and what stands below it.
    fn remove(&mut self, number: usize) -> Result<()> {
        let place = self.tree.place(number);
        if let Some(folder) = place.up {
            self.tree.stands.remove(&Spot {
                folder,
                name: place.name,
            });
            if let Some(kids) = self.tree.kids.get_mut(folder) {
                remove_last(kids, number);
            }
        }
        self.tree.mark_gone(number, true)
    }
}
