//! What a resolver answers.
ghost use Rattle.std.specs.Prelude.{◌≡◌, IfOk};
ghost use Rattle.serde_json.specs.View.{view};
ghost use Rattle.npm_calls.specs.Resolved as Resolving;
ghost use Rattle.npm_calls.specs.Resolved.{IsFileOr, IsTextFor, IsTextOf};

use crate::Result;
use crate::outdated::packument_of;
use crate::text::{joined, json_list, json_string};
use npm_resolve::{
    Answer, Chosen, Document, Omits, Options, Reach, Resolution, documents_for, resolved,
};
use npm_resolve_reports::{lock_lines, resolution_text, unread_text};
use serde_json::Value;
use std::alloc::{AllocError, Global};
use std::slice;

/// What a search is asked beside its texts.
#[derive(Clone, Copy, Drop)]
pub(crate) struct Marks {
    pub(crate) omits: Omits,
    /// The dependencies of versions count.
    pub(crate) flat: bool,
    /// The lowest versions are preferred.
    pub(crate) lowest: bool,
    /// The answer has a lock file, if versions fit together.
    pub(crate) lockfile: bool,
}

/// The text of what is answered.
#[derive(Drop)]
pub(crate) enum Text {
    /// A lock file.
    Lock(Vec<u8>),
    /// A JSON object.
    Object(String),
}

/// What is answered, and members with the names that it is about.
#[derive(Drop)]
pub(crate) struct Said {
    text: Text,
    names: String,
}

impl Said {
    /// The JSON object of the answer.
    pub(crate) fn object(&self, alloc: Global) -> Result<String> {
        match &self.text {
            Text::Lock(lines) => lock_object(alloc, lines, self.names.as_str()),
            Text::Object(object) => {
                let front = object.as_str().strip_suffix('}').unwrap_or("");
                joined(alloc, &[front, self.names.as_str()])
            }
        }
    }
}

/// The JSON object of a lock file.
fn lock_object(alloc: Global, lines: &[u8], names: &str) -> Result<String> {
    let text = String::from_utf8_lossy(alloc, lines)?;
    let string = json_string(alloc, text.as_str())?;
    let pieces = [
        "{\"lockfile\":",
        string.as_str(),
        ",\"outcome\":\"selected\"",
        names,
    ];
    joined(alloc, &pieces)
}

/// What counts of a version.
fn reach_of(marks: Marks) -> Reach
    ensures { result ≡ Resolving.reach_of marks }
{
    if marks.flat {
        Reach::Dependencies
    } else {
        Reach::Peers
    }
}

/// What a resolver answers for a manifest and documents.
pub(crate) fn answer_text(
    alloc: Global,
    manifest: &Value,
    documents: &Value,
    options: &Options<'_>,
    marks: Marks,
    steps: u64,
) -> Result<Said>
    ensures { IfOk result (λ said. IsTextFor manifest.now (view documents.now) options.now marks said.text) }
{
    let manifests = slice::from_ref(manifest);
    let reach = reach_of(marks);
    let load = |name: &str| packument_of(documents, name);
    let found = match documents_for(alloc, manifests, options, reach, marks.omits, load) {
        Ok(found) => found,
        Err(_) => return Err(AllocError),
    };
    let answer = resolved(alloc, manifests, &found, options, reach, marks.omits, steps)?;
    said_of(alloc, manifests, &found, &answer, marks.lockfile)
}

/// The text of an answer, and the names that it is about.
fn said_of<'v>(
    alloc: Global,
    manifests: &'v [Value],
    documents: &'v [Document],
    answer: &Answer<'v>,
    lockfile: bool,
) -> Result<Said>
    ensures { IfOk result (λ said. IsTextOf lockfile manifests.now documents.now answer.now said.text) }
{
    let names = names_text(alloc, answer)?;
    let text = text_of(alloc, manifests, documents, answer, lockfile)?;
    Ok(Said { text, names })
}

/// The text of an answer: of the JSON object, or of a lock file if one is asked for and versions are selected.
fn text_of<'v>(
    alloc: Global,
    manifests: &'v [Value],
    documents: &'v [Document],
    answer: &Answer<'v>,
    lockfile: bool,
) -> Result<Text>
    ensures { IfOk result (λ text. IsTextOf lockfile manifests.now documents.now answer.now text) }
{
    match &answer.resolution {
        Resolution::Selected(chosen) if lockfile => {
            file_or(alloc, manifests, documents, chosen, &answer.unread)
        }
        resolution => Ok(Text::Object(resolution_text(alloc, documents, resolution)?)),
    }
}

/// The text of the lock file for what is selected, or of the JSON object if rules in `overrides` are not read.
fn file_or<'v>(
    alloc: Global,
    manifests: &'v [Value],
    documents: &'v [Document],
    chosen: &[Chosen<'v>],
    unread: &[&str],
) -> Result<Text>
    ensures { IfOk result (λ text. IsFileOr manifests.now documents.now chosen.now unread.now text) }
{
    if unread.is_empty() {
        Ok(Text::Lock(lock_lines(alloc, manifests, documents, chosen)?))
    } else {
        Ok(Text::Object(unread_text(alloc, unread)?))
    }
}

/// The members with the names that an answer is about, and the end of the object.
fn names_text(alloc: Global, answer: &Answer<'_>) -> Result<String> {
    let left_out = json_list(alloc, &answer.unmet)?;
    let missing = json_list(alloc, &answer.missing)?;
    let refused = refused_names(alloc, answer)?;
    let unread = json_list(alloc, &answer.unread)?;
    let pieces = [
        ",\"left_out\":",
        left_out.as_str(),
        ",\"missing\":",
        missing.as_str(),
        ",\"refused\":",
        refused.as_str(),
        ",\"unread\":",
        unread.as_str(),
        "}",
    ];
    joined(alloc, &pieces)
}

/// The names that are asked for at no registry.
fn refused_names(alloc: Global, answer: &Answer<'_>) -> Result<String> {
    let mut names = Vec::new(alloc);
    for ask in &answer.left_out {
        names.push(ask.name)?;
    }
    json_list(alloc, &names)
}
