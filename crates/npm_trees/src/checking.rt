//! The check of a tree.
ghost use Rattle.std.specs.Prelude.{IfOk};
ghost use Rattle.npm_trees.specs.Trees.{Says};

use crate::Result;
use crate::left_out::are_left_out;
use crate::met::are_met;
use crate::reached::are_reached;
use crate::tree::{Document, Tree};
use crate::whole::whole_folders;
use std::alloc::Global;

/// Whether a tree is one, and if not, which part of it is wrong.
#[derive(Clone, Copy, Debug, PartialEq, Eq, Drop)]
pub enum Verdict {
    IsTree,
    /// A place does not hold what it may, or is not where it may be.
    NotWhole,
    /// A dependency is not met.
    NotMet,
    /// A place is there that no dependency leads to.
    NotReached,
    /// An optional dependency is left out and not told, or told and not left out.
    NotLeftOut,
}

/// Returns whether this is a tree of packages of these documents.
///
/// # Errors
///
/// An allocation failed.
///
/// # Memory
///
/// Allocates an entry for each place and for each dependency.
#[tactic(auto, using(crate::proofs::Walking::upward))]
pub fn check<'d>(alloc: Global, tree: &Tree<'d>, documents: &[Document<'d>]) -> Result<Verdict>
    ensures { IfOk result (Says tree.now documents.now) }
{
    let places = tree.places.as_slice();
    let asks = tree.asks.as_slice();
    let Some(folders) = whole_folders(alloc, places, documents, asks)? else {
        return Ok(Verdict::NotWhole);
    };
    let met = are_met(alloc, &folders, places, asks)?;
    if !met {
        return Ok(Verdict::NotMet);
    }
    let reached = are_reached(alloc, &folders, places, documents, asks)?;
    if !reached {
        return Ok(Verdict::NotReached);
    }
    let told = are_left_out(alloc, &folders, places, asks, &tree.left_out)?;
    if !told {
        return Ok(Verdict::NotLeftOut);
    }
    Ok(Verdict::IsTree)
}
