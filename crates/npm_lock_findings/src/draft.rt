//! A finding without its place.
ghost use Rattle.std.specs.Prelude.{◌≡◌, IfOk, is_some, map};

use crate::finding::{Finding, Level};
use crate::forms::visible;
use json_places::{Path, Place, chosen_places};
use std::alloc::{AllocError, Global};

/// A finding without its place.
#[derive(Drop)]
pub struct Draft<'f, 'n> {
    /// Its kind: the `id` of its rule, or a word for several rules.
    pub rule: &'f str,
    /// The place of the rule in the tool's list, counted from 0.
    pub rule_index: usize,
    pub level: Level,
    /// A text in UTF-8.
    pub message: Vec<u8>,
    /// The paths of members that it is about, each from the outermost object inwards. The first path that names a member is the one
    /// that counts.
    pub paths: Vec<Vec<&'n str>>,
    /// Why it does not count, in UTF-8, if it does not.
    pub suppression: Option<Vec<u8>>,
}

/// Returns a finding for each draft, in their order, in this file with this JSON text. Of the draft's paths, the first one that leads
/// to a member gives the line and the column: those of the member's name. If no path does, they are those of the beginning of the
/// text. The text is read once, and not at all if there is no draft. In the messages, control characters and those that are not seen are
/// written by their numbers.
///
/// # Errors
///
/// An allocation failed.
///
/// # Memory
///
/// Allocates the findings, a copy of each path, and what [`chosen_places`](json_places::chosen_places) does.
pub fn findings_in<'f>(
    alloc: Global,
    text: &str,
    file: &'f str,
    drafts: &[Draft<'f, '_>],
) -> Result<Vec<Finding<'f>>, AllocError>
    ensures { IfOk result (λ findings. map (λ finding. is_some finding.suppression) findings.items
        ≡ map (λ draft. is_some draft.suppression) drafts.now) }
{
    let mut findings = Vec::new(alloc);
    let places = places_in(alloc, text, drafts)?;
    for index in 0..drafts.len() {
        findings.push(finding_at(alloc, file, &drafts[index], &places, index)?)?;
    }
    Ok(findings)
}

/// The places of drafts in the text.
fn places_in(
    alloc: Global,
    text: &str,
    drafts: &[Draft<'_, '_>],
) -> Result<Vec<Place>, AllocError> {
    if drafts.is_empty() {
        return Ok(Vec::new(alloc));
    }
    let paths = paths_of(alloc, drafts)?;
    chosen_places(alloc, text, &paths, drafts.len())
}

/// The paths of all drafts, sorted.
fn paths_of<'n>(alloc: Global, drafts: &[Draft<'_, 'n>]) -> Result<Vec<Path<'n>>, AllocError> {
    let mut paths = Vec::new(alloc);
    for subject in 0..drafts.len() {
        push_paths(alloc, &mut paths, &drafts[subject], subject)?;
    }
    paths.sort()?;
    Ok(paths)
}

/// Adds the paths of one draft.
fn push_paths<'n>(
    alloc: Global,
    paths: &mut Vec<Path<'n>>,
    draft: &Draft<'_, 'n>,
    subject: usize,
) -> Result<(), AllocError> {
    for rank in 0..draft.paths.len() {
        paths.push(Path::of_members(alloc, &draft.paths[rank], subject, rank)?)?;
    }
    Ok(())
}

/// The finding of a draft, at its place.
fn finding_at<'f>(
    alloc: Global,
    file: &'f str,
    draft: &Draft<'f, '_>,
    places: &[Place],
    index: usize,
) -> Result<Finding<'f>, AllocError>
    ensures { IfOk result (λ finding. is_some finding.suppression ≡ is_some draft.now.suppression) }
{
    let place = match places.get(index) {
        Some(place) => *place,
        None => Place::START,
    };
    Ok(Finding {
        rule: draft.rule,
        rule_index: draft.rule_index,
        level: draft.level,
        message: visible(alloc, &draft.message)?,
        file,
        line: place.line,
        column: place.column,
        suppression: reason_of(alloc, draft)?,
    })
}

/// Why a draft does not count, if it does not.
fn reason_of(alloc: Global, draft: &Draft<'_, '_>) -> Result<Option<Vec<u8>>, AllocError>
    ensures { IfOk result (λ reason. is_some reason ≡ is_some draft.now.suppression) }
{
    match &draft.suppression {
        Some(reason) => Ok(Some(visible(alloc, reason)?)),
        None => Ok(None),
    }
}
