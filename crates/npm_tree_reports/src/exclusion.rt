//! Which dependencies of the root exclude each other by their peers, and why: npm_resolve's answer without folders.

use crate::Result;
use crate::question::Question;
use node_semver::VersionRef;
use npm_resolve::{Omits, Options, Reach};
use npm_resolve_reports::{Ending, Format, LoadError, Piece, Platform, RunError, push_pieces, run};
use npm_texts::filled;
use npm_tree_building::Unmet;
use serde_json::Value;
use std::alloc::Global;
use std::slice;

/// So many steps are done at most, and so many again for the reasons.
const STEPS: u64 = 100_000;

/// Returns lines that say which dependencies of the root exclude each other, and why. `None`: they do not, since one version of each
/// package fits, or it is not known. Optional dependencies do not count: they are left out before.
///
/// # Errors
///
/// - `Load`: what `load` returned for a package.
/// - `Memory`: an allocation failed.
pub(crate) fn excluded_lines<F: Fn(&str) -> Result<Option<Value>, LoadError>>(
    alloc: Global,
    question: Question<'_>,
    root: &Value,
    load: F,
) -> Result<Option<String>, RunError>
    requires { F.IsAlwaysCallable load }
{
    let version = match question.node {
        Some(node) => VersionRef::parse(node).ok(),
        None => None,
    };
    let manifests = slice::from_ref(root);
    let selection = selection_of(question, manifests, version.as_ref());
    let mut lines = Vec::new(alloc);
    let done = run(alloc, selection, Format::Text, load, &mut lines)?;
    if done.ending != Ending::NoSelection || has_unread(done.notes.as_slice()) {
        return Ok(None);
    }
    Ok(String::from_utf8(lines).ok())
}

/// Which versions fit together, one of each package.
fn selection_of<'q>(
    question: Question<'q>,
    manifests: &'q [Value],
    node: Option<&'q VersionRef<'q>>,
) -> npm_resolve_reports::Question<'q> {
    npm_resolve_reports::Question {
        manifests,
        options: Options {
            default_tag: question.default_tag,
            before: question.before,
            node,
            is_lowest: false,
            lock: None,
        },
        reach: Reach::Peers,
        omits: Omits {
            dev: false,
            optional: true,
            peer: false,
        },
        platform: Platform {
            os: None,
            cpu: None,
            libc: None,
        },
        steps: STEPS,
    }
}

/// Returns `true` if a rule in `overrides` is not read. It could change the answer.
fn has_unread(notes: &[u8]) -> bool {
    match str::from_utf8(notes) {
        Ok(notes) => notes.contains("npm_resolve: overrides are not read: "),
        Err(_) => true,
    }
}

/// Those that the lines name.
pub(crate) fn named_in<'d>(
    alloc: Global,
    asks: &[Unmet<'d>],
    lines: &str,
) -> Result<Vec<Unmet<'d>>> {
    let mut named = Vec::new(alloc);
    for ask in asks {
        if is_named_in(alloc, *ask, lines)? {
            named.push(*ask)?;
        }
    }
    Ok(named)
}

/// Returns `true` if a line names a dependency.
fn is_named_in(alloc: Global, ask: Unmet<'_>, lines: &str) -> Result<bool> {
    let mut line = Vec::new(alloc);
    let pieces = [
        Piece::Fixed("\n  "),
        Piece::Shown(ask.name),
        Piece::Fixed(" "),
        Piece::Shown(filled(ask.spec)),
        Piece::Fixed(", "),
    ];
    push_pieces(alloc, &mut line, &pieces)?;
    match str::from_utf8(line.as_slice()) {
        Ok(line) => Ok(lines.contains(line)),
        Err(_) => Ok(false),
    }
}

/// The lines that follow those with the names: why, and what would fit.
pub(crate) fn reasons_in(lines: &str) -> &str {
    match lines.find("because\n") {
        Some(at) => lines.get(at..).unwrap_or(""),
        None => "",
    }
}
