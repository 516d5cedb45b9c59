//! The reply to a question, and how the program ends.

use crate::Result;
use crate::blame::{Blame, blame_of};
use crate::checked::checked_tree;
use crate::conflict::conflict_lines;
use crate::documents::{all_loaded, documents_of};
use crate::json::{conflict_json, tree_json, undecided_json};
use crate::lines::tree_lines;
use crate::notes::{REFUSED, SPENT, tree_notes};
use crate::question::Question;
use crate::tree_error::TreeError;
use npm_pick_reports::PackageName;
use npm_resolve_reports::{Done, Ending, Format, LoadError, RunError};
use npm_tree_building::{Answer, Options};
use npm_tree_locks::tree_lock;
use npm_trees::{Document, Tree};
use serde_json::Value;
use std::alloc::Global;
use std::io::Write;

/// So many packages are placed at most in the search for one dependency.
const STEPS_OF_A_SEARCH: u64 = 500;

/// The lines for standard output, and the rest of the reply.
#[derive(Drop)]
struct Reply {
    lines: Vec<u8>,
    done: Done,
}

/// Writes the lines of the reply to a question. `load` returns the document of a package, if there is one. Returns how the program
/// ends, and the lines for standard error.
///
/// # Errors
///
/// - `Overridden`, `SameName`: npm stops too. Nothing was written, and so for the next two.
/// - `Run(Load)`: what `load` returned for a package.
/// - `Run(Memory)`: an allocation failed.
/// - `Run(Write)`: a write failed. A beginning of the lines may have been written.
///
/// # Memory
///
/// Allocates all documents, what `checked_tree` allocates, and all lines.
///
/// # Examples
///
/// Where `a` has the version 1.0.0 alone, it writes `node_modules/a a@1.0.0` for a manifest that asks for `a` by `^1`.
pub fn run<W: Write, F: Fn(&str) -> Result<Option<Value>, LoadError>>(
    alloc: Global,
    question: Question<'_>,
    format: Format,
    load: F,
    writer: &mut W,
) -> Result<Done, TreeError>
    requires { F.IsAlwaysCallable load }
{
    let all = match all_loaded(alloc, question.manifests, &load) {
        Ok(all) => all,
        Err(LoadError::Memory) => return Err(TreeError::Run(RunError::Memory)),
        Err(error) => return Err(TreeError::Run(RunError::Load(error))),
    };
    let documents = documents_of(alloc, &all)?;
    let reply = reply_of(alloc, question, &documents, format, &load)?;
    match writer.write_all(reply.lines.as_slice()) {
        Ok(()) => Ok(reply.done),
        Err(_) => Err(TreeError::Run(RunError::Write)),
    }
}

/// The reply to a question.
fn reply_of<'d, F: Fn(&str) -> Result<Option<Value>, LoadError>>(
    alloc: Global,
    question: Question<'d>,
    documents: &'d [Document<'d>],
    format: Format,
    load: &F,
) -> Result<Reply, TreeError>
    requires { F.IsAlwaysCallable load.now }
{
    let options = options_of(question);
    match checked_tree(alloc, question.manifests, documents, question.lock, options)? {
        Some(Answer::Tree(tree)) => Ok(tree_reply(alloc, &tree, documents, format)?),
        Some(Answer::Conflict(conflict)) => {
            let blame = blame_of(alloc, question, documents, options, conflict, load)?;
            Ok(conflict_reply(alloc, &blame, format)?)
        }
        Some(Answer::Overridden(name)) => Err(TreeError::Overridden(named(alloc, name)?)),
        Some(Answer::SameName(name)) => Err(TreeError::SameName(named(alloc, name)?)),
        Some(Answer::Undecided) => Ok(undecided_reply(alloc, format, SPENT)?),
        None => Ok(undecided_reply(alloc, format, REFUSED)?),
    }
}

fn options_of(question: Question<'_>) -> Options<'_> {
    Options {
        default_tag: question.default_tag,
        before: question.before,
        node: question.node,
        keeps: false,
        steps: STEPS_OF_A_SEARCH,
        total_steps: question.steps,
    }
}

/// A name, for the line of an error.
fn named(alloc: Global, name: &str) -> Result<PackageName> {
    Ok(PackageName {
        text: String::from_str(alloc, name)?,
    })
}

/// The reply with a tree.
fn tree_reply<'d>(
    alloc: Global,
    tree: &Tree<'d>,
    documents: &[Document<'d>],
    format: Format,
) -> Result<Reply> {
    let lines = match format {
        Format::Text => tree_lines(alloc, tree, documents)?,
        Format::Json => tree_json(alloc, tree, documents)?,
        Format::Lock => tree_lock(alloc, tree, documents)?,
    };
    let notes = tree_notes(alloc, tree)?;
    Ok(Reply {
        lines,
        done: Done {
            ending: Ending::Selected,
            notes,
        },
    })
}

/// The reply with what cannot be met.
fn conflict_reply(alloc: Global, blame: &Blame<'_>, format: Format) -> Result<Reply> {
    let lines = match format {
        Format::Text | Format::Lock => conflict_lines(alloc, blame)?,
        Format::Json => conflict_json(alloc, blame)?,
    };
    Ok(Reply {
        lines,
        done: Done {
            ending: Ending::NoSelection,
            notes: Vec::new(alloc),
        },
    })
}

/// The reply without a tree.
fn undecided_reply(alloc: Global, format: Format, note: &str) -> Result<Reply> {
    let lines = match format {
        Format::Text | Format::Lock => Vec::new(alloc),
        Format::Json => undecided_json(alloc)?,
    };
    let mut notes = Vec::new(alloc);
    notes.extend_from_slice(note.as_bytes())?;
    Ok(Reply {
        lines,
        done: Done {
            ending: Ending::Undecided,
            notes,
        },
    })
}
