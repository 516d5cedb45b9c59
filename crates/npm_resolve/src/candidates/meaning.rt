//! Which candidates a version, a range or a tag allows.
ghost use Rattle.std.specs.Prelude.{◌↔◌, IfOk, IsTrue};
ghost use Rattle.serde_json.specs.View.{view};
ghost use Rattle.npm_resolve.specs.Meanings.{IsAdmitted, IsRead, IsReadByTag, IsReadByText, MeaningValue, Means};

use crate::Result;
use crate::candidates::candidate::Candidate;
use node_semver::Range;
use npm_pick::wanted::{is_tag, text_of, up_to};
use npm_pick::{is_published, tagged};
use npm_texts::{OF_DEPENDENCIES, filled, installed_version, is_plain, range_of};
use serde_json::Value;
use std::alloc::Global;

/// What a version, a range or a tag allows.
#[derive(Drop)]
pub enum Meaning {
    /// The version with this key alone.
    Only(String),
    /// The versions in a range.
    Inside(Range),
    /// The versions in the range `*`, and the version of the default tag, also if it is a prerelease.
    Any(Range),
    Nothing,
}

impl Meaning {
    /// Returns `true` if the candidate is allowed.
    pub fn allows(&self, candidate: &Candidate<'_>) -> bool
        ensures { (value : MeaningValue) → Means self.now value → IsTrue result ↔ IsAdmitted value candidate.now }
    {
        match self {
            Meaning::Only(key) => key.as_str() == candidate.key,
            Meaning::Inside(range) => range.satisfies(&candidate.version),
            Meaning::Any(range) => candidate.is_default || range.satisfies(&candidate.version),
            Meaning::Nothing => false,
        }
    }
}

/// Returns what a version, a range or a tag allows, by the document of the package. The empty text is `*`.
///
/// # Errors
///
/// An allocation failed.
///
/// # Memory
///
/// Allocates the range, or the text of the version.
///
/// # Examples
///
/// - `=v1.2.3+a`: the version 1.2.3 alone.
/// - `next`: the version of that tag or, if it was published too late, those at and below it.
/// - `foo bar`, `npm:a@1` and `1.0.0 || a.tgz`: nothing.
pub fn meaning_of(
    alloc: Global,
    packument: &Value,
    before: Option<i128>,
    text: &str,
) -> Result<Meaning>
    ensures { IfOk result (IsRead (view packument.now) before text.now) }
{
    let text = filled(text);
    if is_plain(text) {
        meaning_by_text(alloc, packument, before, text)
    } else {
        Ok(Meaning::Nothing)
    }
}

/// What a text allows that is neither a location nor an alias.
fn meaning_by_text(
    alloc: Global,
    packument: &Value,
    before: Option<i128>,
    text: &str,
) -> Result<Meaning>
    ensures { IfOk result (IsReadByText (view packument.now) before text.now) }
{
    if let Some(version) = installed_version(text) {
        return Ok(Meaning::Only(text_of(alloc, &version)?));
    }
    match range_of(alloc, text, OF_DEPENDENCIES)? {
        Some(range) if text == "*" => Ok(Meaning::Any(range)),
        Some(range) => Ok(Meaning::Inside(range)),
        None if is_tag(text) => meaning_by_tag(alloc, packument, before, text),
        None => Ok(Meaning::Nothing),
    }
}

/// What a tag allows.
fn meaning_by_tag(
    alloc: Global,
    packument: &Value,
    before: Option<i128>,
    tag: &str,
) -> Result<Meaning>
    ensures { IfOk result (IsReadByTag (view packument.now) before tag.now) }
{
    let Some(key) = tagged(packument, tag) else {
        return Ok(Meaning::Nothing);
    };
    if is_published(packument, before, key) {
        return Ok(Meaning::Only(String::from_str(alloc, key)?));
    }
    let text = up_to(alloc, key)?;
    match range_of(alloc, text.as_str(), OF_DEPENDENCIES)? {
        Some(range) => Ok(Meaning::Inside(range)),
        None => Ok(Meaning::Nothing),
    }
}
