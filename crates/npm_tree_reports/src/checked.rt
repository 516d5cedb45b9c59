//! The tree of packages, which is checked.
ghost use Rattle.std.specs.Prelude.{◌≡◌, IfOk, IfSome, IsTrue};
ghost use Rattle.npm_trees.specs.Trees.{IsTree};
ghost use Rattle.npm_tree_reports.specs.Checked.{IsChecked};
ghost use Rattle.npm_tree_reports.specs.Told.{AreTold};

use crate::Result;
use crate::names::are_named;
use crate::told::are_told;
use npm_tree_building::{Answer, Manifest, Options, build};
use npm_trees::{Document, Tree, Verdict, check};
use serde_json::Value;
use std::alloc::Global;

/// Builds the tree of packages for manifests, of which the first is the root's, or says why there is none. A tree that the check refuses
/// is built once more, so that no package gives way to a higher version. Returns `None` if the check refuses that one too.
///
/// # Errors
///
/// An allocation failed.
///
/// # Memory
///
/// Allocates what `build` allocates, the tree, and an entry for each place and for each dependency while it is checked.
///
/// # Examples
///
/// A root that asks for `a` by `^1`, where `a` has the version 1.2.0 alone, gets a tree with the place `a` in the root's folder.
pub fn checked_tree<'d>(
    alloc: Global,
    manifests: &'d [Manifest<'d>],
    documents: &'d [Document<'d>],
    lock: Option<&'d Value>,
    options: Options<'d>,
) -> Result<Option<Answer<'d>>>
    ensures { IfOk result (λ found. IfSome found (IsChecked documents.now)) }
{
    match accepted(alloc, manifests, documents, lock, options)? {
        Some(answer) => Ok(Some(answer)),
        None => accepted(alloc, manifests, documents, lock, kept(options)),
    }
}

/// The same options, by which no package gives way to a higher version.
fn kept<'d>(options: Options<'d>) -> Options<'d> {
    let mut options = options;
    options.keeps = true;
    options
}

/// Returns what is answered, or `None` if the check refuses the tree.
fn accepted<'d>(
    alloc: Global,
    manifests: &'d [Manifest<'d>],
    documents: &'d [Document<'d>],
    lock: Option<&'d Value>,
    options: Options<'d>,
) -> Result<Option<Answer<'d>>>
    ensures { IfOk result (λ found. IfSome found (IsChecked documents.now)) }
{
    match build(alloc, manifests, documents, lock, options)? {
        Answer::Tree(tree) => {
            if is_accepted(alloc, documents, &tree)? {
                Ok(Some(Answer::Tree(tree)))
            } else {
                Ok(None)
            }
        }
        Answer::Conflict(conflict) => Ok(Some(Answer::Conflict(conflict))),
        Answer::Overridden(name) => Ok(Some(Answer::Overridden(name))),
        Answer::SameName(name) => Ok(Some(Answer::SameName(name))),
        Answer::Undecided => Ok(Some(Answer::Undecided)),
    }
}

/// Returns `true` if a tree has folders with names of packages and what its manifests ask for, and is one.
fn is_accepted<'d>(alloc: Global, documents: &[Document<'d>], tree: &Tree<'d>) -> Result<bool>
    ensures tree { IfOk result (λ is. IsTrue is → IsTree tree.now documents.now) }
    ensures told { IfOk result (λ is. IsTrue is → AreTold documents.now tree.now) }
{
    if !are_named(&tree.places) {
        return Ok(false);
    }
    let are_told = are_told(alloc, documents, tree)?;
    let verdict = check(alloc, tree, documents)?;
    Ok(are_told && is_yes(verdict))
}

fn is_yes(verdict: Verdict) -> bool
    ensures { IsTrue result → verdict ≡ Verdict.IsTree }
{
    matches!(verdict, Verdict::IsTree)
}
