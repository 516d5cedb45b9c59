//! The candidates of a document.
ghost use Rattle.std.specs.Prelude.{◌≡◌, ◌↔◌, IfNone, IfOk, IfSome, IsTrue, OnOk, option_map};
ghost use Rattle.std.specs.List.Sorted.{IsPermutation, IsSorted, IsStable};
ghost use Rattle.serde_json.specs.View.{members_view, view};
ghost use Rattle.npm_resolve.specs.Candidates as Documents;
ghost use Rattle.npm_resolve.specs.Candidates.{AreCandidates, AreListed, IsCandidate, IsEligible};
ghost use Rattle.npm_resolve.specs.Preference.{order_of};
ghost use Rattle.npm_pick.specs.Packument.{releases_among, releases_in, versions_of};
ghost use Rattle.npm_pick.specs.Rank.{Fits};

use crate::Result;
use crate::candidates::candidate::Candidate;
use crate::candidates::options::Options;
use node_semver::VersionRef;
use npm_pick::{engine_of, is_engine_for, is_published, is_restricted, tagged, versions_of};
use npm_texts::{has_true, installed_version};
use serde_json::{Map, Value};
use std::alloc::Global;

/// Returns the versions of a document that can be chosen, in the order in which npm prefers them: the version of the default tag, if
/// it is not deprecated and fits the version of Node, and then the others by their ranks. These count, the first most: not to be
/// deprecated and to fit; to fit; not to be deprecated; to be the greater version. With `is_lowest` the tag does not count, and it is
/// the lesser version that is first. Equal versions stay in the order of the document.
///
/// A key that is no version, and a version that was published too late or that a policy restricts, cannot be chosen.
///
/// # Errors
///
/// An allocation failed.
///
/// # Memory
///
/// Allocates the list. It borrows the document.
///
/// # Examples
///
/// Of 1.0.0, 1.2.0, 1.3.0 and 2.0.0, where `latest` is 1.2.0 and 1.0.0 is deprecated: 1.2.0, 2.0.0, 1.3.0, 1.0.0; and with `is_lowest`
/// 1.2.0, 1.3.0, 2.0.0, 1.0.0.
pub fn candidates_of<'v>(
    alloc: Global,
    packument: &'v Value,
    options: &Options<'_>,
) -> Result<Vec<Candidate<'v>>>
    ensures { IfOk result (λ candidates. AreCandidates (view packument.now) options.now candidates.items) }
{
    let mut candidates = listed_of(alloc, packument, options)?;
    put_in_order(&mut candidates, options.is_lowest)?;
    Ok(candidates)
}

/// Puts what is preferred first.
fn put_in_order(candidates: &mut Vec<Candidate<'_>>, is_lowest: bool) -> Result<()>
    ensures same { IsPermutation candidates.old.items candidates.new.items }
    ensures sorted { OnOk result (IsSorted (order_of is_lowest) candidates.new.items) }
    ensures stable { IsStable (order_of is_lowest) candidates.old.items candidates.new.items }
{
    if is_lowest {
        candidates.sort_by(|one, other| one.cmp_lowest(other))
    } else {
        candidates.sort()
    }
}

/// The candidates in the order of the document.
fn listed_of<'v>(
    alloc: Global,
    packument: &'v Value,
    options: &Options<'_>,
) -> Result<Vec<Candidate<'v>>>
    ensures { IfOk result (λ listed. AreListed (view packument.now) options.now
        (releases_in (versions_of (view packument.now))) listed.items) }
{
    match versions_of(packument) {
        Some(versions) => listed_among(alloc, packument, options, versions),
        None => Ok(Vec::new(alloc)),
    }
}

/// The candidates among these versions.
fn listed_among<'v>(
    alloc: Global,
    packument: &'v Value,
    options: &Options<'_>,
    versions: &'v Map<String, Value>,
) -> Result<Vec<Candidate<'v>>>
    ensures { IfOk result (λ listed. AreListed (view packument.now) options.now
        (releases_among (members_view versions.now.entries)) listed.items) }
{
    let mut listed = Vec::new(alloc);
    for (key, manifest) in versions.iter() {
        if let Some(candidate) = candidate_of(alloc, packument, options, key.as_str(), manifest)? {
            listed.push(candidate)?;
        }
    }
    Ok(listed)
}

/// The candidate of a key of the document, if it can be chosen.
fn candidate_of<'v>(
    alloc: Global,
    packument: &Value,
    options: &Options<'_>,
    key: &'v str,
    manifest: &'v Value,
) -> Result<Option<Candidate<'v>>>
    ensures found { IfOk result (λ found. IfSome found (IsCandidate (view packument.now) options.now
        (record { key = key.now; manifest = view manifest.now }))) }
    ensures none { IfOk result (λ found. IfNone found (IsEligible (view packument.now) options.now key.now → ⊥)) }
{
    let Some(version) = installed_version(key) else {
        return Ok(None);
    };
    if !is_published(packument, options.before, key) {
        return Ok(None);
    }
    if is_restricted(packument, key) {
        return Ok(None);
    }
    let is_deprecated = has_true(manifest, "deprecated");
    let fits = fits_node(alloc, options, manifest)?;
    let is_sound = !is_deprecated && fits;
    Ok(Some(Candidate {
        key,
        manifest,
        version,
        is_default: is_sound && is_tagged(packument, options.default_tag, key),
        is_deprecated,
        fits,
    }))
}

/// Returns `true` if the version of Node fits the manifest, or if it is not known or not asked for.
fn fits_node(alloc: Global, options: &Options<'_>, manifest: &Value) -> Result<bool>
    ensures { IfOk result (λ fits. IsTrue fits ↔ Documents.FitsNode options.now (view manifest.now)) }
{
    fits(alloc, options.node, engine_of(manifest, "node"))
}

/// Returns `true` if a version of an engine fits, or if it is not known or not asked for.
fn fits(alloc: Global, version: Option<&VersionRef<'_>>, asked: Option<&Value>) -> Result<bool>
    ensures { IfOk result (λ fits. IsTrue fits ↔ Fits (option_map (λ version. version.now) version.entry)
        (option_map (λ asked. view asked.now) asked.entry)) }
{
    match (version, asked) {
        (Some(version), Some(asked)) => is_engine_for(alloc, version, asked),
        _ => Ok(true),
    }
}

/// Returns `true` if the tag names this version.
fn is_tagged(packument: &Value, tag: &str, key: &str) -> bool
    ensures { result ≡ Documents.is_tagged (view packument.now) tag.now key.now }
{
    match tagged(packument, tag) {
        Some(named) => named == key,
        None => false,
    }
}
