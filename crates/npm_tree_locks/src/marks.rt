//! Marks of packages: `dev`, `optional`, `devOptional` and `peer`.

use crate::Result;
use crate::reach::{Groups, reached};
use crate::seen::Sights;
use crate::writer::Writer;
use npm_trees::Tree;
use std::alloc::Global;

/// The places that are reached without some groups of dependencies.
#[derive(Drop)]
pub(crate) struct Marks {
    without_dev: Vec<bool>,
    without_optional: Vec<bool>,
    without_both: Vec<bool>,
    without_peers: Vec<bool>,
}

impl Marks {
    pub(crate) fn of(alloc: Global, tree: &Tree<'_>) -> Result<Marks> {
        let sights = Sights::of(alloc, tree)?;
        Ok(Marks {
            without_dev: reached(alloc, tree, &sights, without(true, false, false))?,
            without_optional: reached(alloc, tree, &sights, without(false, true, false))?,
            without_both: reached(alloc, tree, &sights, without(true, true, false))?,
            without_peers: reached(alloc, tree, &sights, without(false, false, true))?,
        })
    }

    /// Adds the mark of this name, if a place has it.
    pub(crate) fn put(&self, writer: &mut Writer, number: usize, name: &str) -> Result<()> {
        if self.has(number, name) {
            writer.put_word(name, "true")
        } else {
            Ok(())
        }
    }

    fn has(&self, number: usize, name: &str) -> bool {
        let dev = !has(&self.without_dev, number);
        let optional = !has(&self.without_optional, number);
        match name {
            "dev" => dev,
            "optional" => optional,
            "devOptional" => !dev && !optional && !has(&self.without_both, number),
            "peer" => !has(&self.without_peers, number),
            _ => false,
        }
    }
}

/// These groups.
fn without(dev: bool, optional: bool, peer: bool) -> Groups {
    Groups {
        dev,
        optional,
        peer,
    }
}

fn has(is_reached: &[bool], number: usize) -> bool {
    is_reached.get(number).copied().unwrap_or(false)
}
