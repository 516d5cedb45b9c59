//! What of a conflict is to blame.

use crate::Result;
use crate::exclusion::{excluded_lines, named_in};
use crate::question::Question;
use crate::smallest::smallest;
use crate::tree_error::TreeError;
use npm_resolve_reports::LoadError;
use npm_tree_building::{Conflict, Options, Unmet};
use npm_trees::Document;
use serde_json::Value;
use std::alloc::Global;

/// What the root or a package asks for that cannot be met.
#[derive(Drop)]
pub(crate) struct Blame<'d> {
    /// The folder of the package. That of the root is empty.
    pub(crate) at: String,
    pub(crate) asks: Vec<Unmet<'d>>,
    /// Lines that say why these exclude each other, if that is known.
    pub(crate) said: Option<String>,
}

/// Returns what of a conflict is to blame: what no version meets, or else what excludes each other by peers, or else the smallest part that
/// cannot be met together.
pub(crate) fn blame_of<'d, F: Fn(&str) -> Result<Option<Value>, LoadError>>(
    alloc: Global,
    question: Question<'_>,
    documents: &[Document<'_>],
    options: Options<'_>,
    conflict: Conflict<'d>,
    load: &F,
) -> Result<Blame<'d>, TreeError>
    requires { F.IsAlwaysCallable load.now }
{
    let Conflict { at, asks } = conflict;
    let alone = without_pick(alloc, &asks)?;
    if !alone.is_empty() {
        return Ok(Blame {
            at,
            asks: alone,
            said: None,
        });
    }
    if at.is_empty() {
        if let Some(root) = question.manifests.first() {
            if let Some(said) = excluded_lines(alloc, question, root.value, load)? {
                return Ok(Blame {
                    at,
                    asks: named_in(alloc, &asks, said.as_str())?,
                    said: Some(said),
                });
            }
        }
    }
    let asks = smallest(
        alloc,
        question.manifests,
        documents,
        options,
        at.as_str(),
        asks,
    )?;
    Ok(Blame {
        at,
        asks,
        said: None,
    })
}

/// Those that no version meets.
fn without_pick<'d>(alloc: Global, asks: &[Unmet<'d>]) -> Result<Vec<Unmet<'d>>> {
    let mut alone = Vec::new(alloc);
    for ask in asks {
        if ask.pick.is_none() {
            alone.push(*ask)?;
        }
    }
    Ok(alone)
}
