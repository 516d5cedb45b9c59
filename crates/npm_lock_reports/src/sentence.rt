//! A problem, a dependency that is not checked, or a mismatch, as a sentence for a person.

use crate::piece::{Piece, Reading, before, push_pieces, text_or_empty};
use npm_lock::{Dependency, Kind, Mismatch, Problem, Reason, Unchecked};
use std::alloc::AllocError;

/// Adds the sentence of a problem: `a 1.0.0 does not satisfy ^2, which b 3.0.0 asks for (node_modules/b)`.
pub fn push_sentence(
    line: &mut Vec<u8>,
    reading: Reading,
    problem: &Problem,
) -> Result<(), AllocError> {
    push_said(
        line,
        reading,
        verdict(problem.kind),
        &problem.dependency,
        "",
    )
}

/// Adds the sentence of a dependency that is not checked: `a 1.0.0 is not checked against latest, which the root asks for: a tag`.
pub fn push_unchecked_sentence(
    line: &mut Vec<u8>,
    reading: Reading,
    unchecked: &Unchecked,
) -> Result<(), AllocError> {
    let reason = reason(unchecked.reason);
    push_said(
        line,
        reading,
        " is not checked against ",
        &unchecked.dependency,
        reason,
    )
}

/// Adds the sentence of a dependency that is needed and left out:
/// `a 1.0.0 is left out, though the root asks for it by ^1: the lock file marks it (node_modules/a)`.
pub fn push_left_out_sentence(
    line: &mut Vec<u8>,
    reading: Reading,
    dependency: &Dependency,
) -> Result<(), AllocError> {
    let version = dependency.version.as_ref();
    let asker = asker_of(dependency);
    let pieces = [
        Piece::First(dependency.name.as_str()),
        Piece::Fixed(before(version, " ")),
        Piece::Text(text_or_empty(version)),
        Piece::Fixed(" is left out, though "),
        asker.name,
        Piece::Fixed(before(asker.version, " ")),
        Piece::Text(text_or_empty(asker.version)),
        Piece::Fixed(asker.open),
        Piece::Text(asker.folder),
        Piece::Fixed(asker.close),
        Piece::Fixed(" asks for it by "),
        spec_piece(dependency.spec.as_str()),
        Piece::Fixed(": the lock file marks it ("),
        Piece::Text(text_or_empty(dependency.to.as_ref())),
        Piece::Fixed(")"),
    ];
    push_pieces(line, reading, &pieces)
}

/// Adds the sentence of a mismatch: `a in dependencies is "^2" in package.json, and "^1" in the lock file`.
pub fn push_mismatch_sentence(
    line: &mut Vec<u8>,
    reading: Reading,
    mismatch: &Mismatch,
) -> Result<(), AllocError> {
    let spec = mismatch.spec.as_ref();
    let locked = mismatch.locked.as_ref();
    let folder = mismatch.from.as_str();
    let pieces = [
        Piece::First(mismatch.name.as_str()),
        Piece::Fixed(" in "),
        Piece::Fixed(mismatch.group.as_str()),
        Piece::Fixed(" is "),
        Piece::Fixed(opening(spec)),
        Piece::Text(text_or_empty(spec)),
        Piece::Fixed(before(spec, "\"")),
        Piece::Fixed(" in "),
        Piece::Text(folder),
        Piece::Fixed(manifest_words(folder)),
        Piece::Fixed(", and "),
        Piece::Fixed(opening(locked)),
        Piece::Text(text_or_empty(locked)),
        Piece::Fixed(before(locked, "\"")),
        Piece::Fixed(" in the lock file"),
    ];
    push_pieces(line, reading, &pieces)
}

/// What stands before the spec of one side, or that there is none.
fn opening(spec: Option<&String>) -> &'static str {
    match spec {
        Some(_) => "\"",
        None => "absent",
    }
}

/// The manifest in a folder: `package.json` of the root, and `w/package.json`.
fn manifest_words(folder: &str) -> &'static str {
    if folder.is_empty() {
        "package.json"
    } else {
        "/package.json"
    }
}

/// Adds a dependency, this verdict on the version that is installed, and what stands at the end.
fn push_said(
    line: &mut Vec<u8>,
    reading: Reading,
    verdict: &'static str,
    dependency: &Dependency,
    end: &'static str,
) -> Result<(), AllocError> {
    let version = dependency.version.as_ref();
    let asker = asker_of(dependency);
    let pieces = [
        Piece::First(dependency.name.as_str()),
        Piece::Fixed(before(version, " ")),
        Piece::Text(text_or_empty(version)),
        Piece::Fixed(verdict),
        spec_piece(dependency.spec.as_str()),
        Piece::Fixed(", which "),
        asker.name,
        Piece::Fixed(before(asker.version, " ")),
        Piece::Text(text_or_empty(asker.version)),
        Piece::Fixed(" asks for"),
        Piece::Fixed(asker.open),
        Piece::Text(asker.folder),
        Piece::Fixed(asker.close),
        Piece::Fixed(end),
    ];
    push_pieces(line, reading, &pieces)
}

/// A spec, which is written `""` if it is empty.
fn spec_piece(spec: &str) -> Piece<'_> {
    if spec.is_empty() {
        Piece::Fixed("\"\"")
    } else {
        Piece::Text(spec)
    }
}

/// Who asks: the root, a package of a name with its folder, or a folder alone.
#[derive(Clone, Copy, Drop)]
struct Asker<'a> {
    name: Piece<'a>,
    version: Option<&'a String>,
    open: &'static str,
    folder: &'a str,
    close: &'static str,
}

/// The package that asks.
fn asker_of(dependency: &Dependency) -> Asker<'_> {
    let folder = dependency.from.as_str();
    if folder.is_empty() {
        return alone(Piece::Fixed("the root"), None);
    }
    let version = dependency.from_version.as_ref();
    match last_name(folder) {
        Some(name) => Asker {
            name: Piece::Text(name),
            version,
            open: " (",
            folder,
            close: ")",
        },
        None => alone(Piece::Text(folder), version),
    }
}

/// A package that is told by this piece alone.
fn alone<'a>(name: Piece<'a>, version: Option<&'a String>) -> Asker<'a> {
    Asker {
        name,
        version,
        open: "",
        folder: "",
        close: "",
    }
}

/// The words for a kind of problem.
fn verdict(kind: Kind) -> &'static str {
    match kind {
        Kind::Missing => " is not installed, so nothing satisfies ",
        Kind::Invalid | Kind::Engine => " does not satisfy ",
        Kind::PeerLocal => " is installed inside the package that has it as a peer: ",
    }
}

/// The words for why a dependency is not checked.
fn reason(reason: Reason) -> &'static str {
    match reason {
        Reason::Tag => ": a tag",
        Reason::Location => ": a URL, a repository, a file or a folder",
        Reason::Workspace => ": a pattern of workspaces that is not read",
        Reason::Override => ": overrides that are not read",
    }
}

/// The part of a folder after the last `node_modules/`.
pub fn last_name(folder: &str) -> Option<&str> {
    match folder.rsplit_once("node_modules/") {
        Some((_, name)) => Some(name),
        None => None,
    }
}
