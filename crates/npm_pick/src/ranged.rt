//! What is picked for a range, and where only one version will do.
ghost use Rattle.std.specs.Prelude.{◌≡◌, ◌↔◌, ◌&&◌, IfNone, IfOk, IfSome, IsTrue, option_map};
ghost use Rattle.serde_json.specs.View.{members_view, view};
ghost use Rattle.node_semver.specs.Ranges.{RangeAdmits};
ghost use Rattle.node_semver.specs.Versions.{VersionValue};
ghost use Rattle.npm_texts.specs.Admission.{Admits, of_dependencies};
ghost use Rattle.npm_pick.specs.Packument.{releases_among, releases_in};
ghost use Rattle.npm_pick.specs.Pick as Picks;
ghost use Rattle.npm_pick.specs.Pick.{HasNoneInTime, IsAnswer, IsPickedAt, IsPickedIn, answer_value};
ghost use Rattle.npm_pick.specs.Ranking.{IsRead};
ghost use Rattle.npm_pick.specs.Private.Picking.{AreLate, IsDefaultOrNone, IsKeyAvoidedBy, IsRankedIn};

use crate::Result;
use crate::error::PickError;
use crate::member::{
    candidate_of, is_listed, release_in, restricted_of, staged_of, tagged, versions_of,
};
use crate::options::Options;
use crate::picked::Picked;
use crate::rank::asked::{Asked, avoided, is_in};
use crate::rank::best::best_of;
use crate::time::is_published;
use node_semver::Range;
use npm_texts::{has_true, installed_version};
use serde_json::{Map, Value};
use std::alloc::Global;

/// Picks the version with this key.
pub(crate) fn pick_at<'v>(
    alloc: Global,
    packument: &'v Value,
    key: &str,
    options: &Options<'_>,
) -> Result<Picked<'v>, PickError>
    ensures { IsAnswer (IsPickedAt (view packument.now) options.now key.now) (answer_value result) }
{
    if !is_published(packument, options.before, key) {
        return Err(PickError::NoVersion);
    }
    let Some((key, manifest)) = candidate_of(packument, options.include_staged, key) else {
        return Err(PickError::NoVersion);
    };
    let avoid = avoided(alloc, options.avoid)?;
    Ok(Picked {
        key,
        manifest,
        is_avoided: is_key_avoided(&avoid, key),
        is_outside: false,
        is_major: false,
    })
}

/// Returns `true` if the key is a version that should be avoided.
fn is_key_avoided(avoid: &Option<Range>, key: &str) -> bool
    ensures { IsTrue result ↔ IsKeyAvoidedBy avoid.now key.now }
{
    match installed_version(key) {
        Some(version) => is_in(avoid, &version),
        None => false,
    }
}

/// Picks a version in a range.
pub(crate) fn pick_in<'v>(
    alloc: Global,
    packument: &'v Value,
    text: &str,
    range: Range,
    options: &Options<'_>,
) -> Result<Picked<'v>, PickError>
    requires { (v : VersionValue) → RangeAdmits range v ↔ Admits of_dependencies text.now v }
    ensures { IsAnswer (IsPickedIn (view packument.now) options.now text.now) (answer_value result) }
{
    let asked = Asked {
        packument,
        options,
        range: text,
        wanted: range,
        avoid: avoided(alloc, options.avoid)?,
        staged: staged_of(packument, options.include_staged),
        restricted: restricted_of(packument),
    };
    match default_of(alloc, &asked)? {
        Some(picked) => Ok(picked),
        None => pick_ranked(alloc, &asked),
    }
}

/// The version of the default tag, if it is picked.
fn default_of<'v>(alloc: Global, asked: &Asked<'v, '_>) -> Result<Option<Picked<'v>>>
    requires { IsRead asked.now }
    ensures { IfOk result (λ picked. IsDefaultOrNone (view asked.now.packument.now) asked.now.options.now
        asked.now.range.now (option_map Picks.picked_value picked)) }
{
    let packument = asked.packument;
    let Some(key) = tagged(packument, asked.options.default_tag) else {
        return Ok(None);
    };
    let Some((key, manifest)) = release_in(versions_of(packument), key) else {
        return Ok(None);
    };
    if !is_suitable(alloc, asked, key, manifest)? {
        return Ok(None);
    }
    Ok(Some(Picked {
        key,
        manifest,
        is_avoided: false,
        is_outside: false,
        is_major: false,
    }))
}

/// Returns `true` if the version is picked if the default tag names it.
fn is_suitable(alloc: Global, asked: &Asked<'_, '_>, key: &str, manifest: &Value) -> Result<bool>
    requires { IsRead asked.now }
    ensures { IfOk result (λ suitable. IsTrue suitable ↔ Picks.IsSuitable (view asked.now.packument.now)
        asked.now.options.now asked.now.range.now key.now (view manifest.now)) }
{
    if !is_in_range(asked, key) {
        return Ok(false);
    }
    if !is_published(asked.packument, asked.options.before, key) {
        return Ok(false);
    }
    if is_key_avoided(&asked.avoid, key) {
        return Ok(false);
    }
    if is_listed(asked.restricted, key) {
        return Ok(false);
    }
    if is_listed(asked.staged, key) {
        return Ok(false);
    }
    if has_true(manifest, "deprecated") {
        return Ok(false);
    }
    asked.fits(alloc, manifest)
}

/// Returns `true` if the key is a version in the range, or if the range is `*`.
fn is_in_range(asked: &Asked<'_, '_>, key: &str) -> bool
    requires { IsRead asked.now }
    ensures { IsTrue result ↔ Picks.IsInRange asked.now.range.now key.now }
{
    if asked.range == "*" {
        return true;
    }
    match installed_version(key) {
        Some(version) => asked.wanted.satisfies(&version),
        None => false,
    }
}

/// Picks the version with the highest rank.
fn pick_ranked<'v>(alloc: Global, asked: &Asked<'v, '_>) -> Result<Picked<'v>, PickError>
    requires { IsRead asked.now }
    ensures { IsAnswer (IsRankedIn (view asked.now.packument.now) asked.now.options.now asked.now.range.now)
        (answer_value result) }
{
    match best_of(alloc, asked)? {
        Some(best) => Ok(Picked {
            key: best.key,
            manifest: best.manifest,
            is_avoided: best.rank.is_avoided,
            is_outside: false,
            is_major: false,
        }),
        None if has_none_in_time(asked) => Err(PickError::NoVersions),
        None => Err(PickError::NoneInRange),
    }
}

/// Returns `true` if no version was published in time.
fn has_none_in_time(asked: &Asked<'_, '_>) -> bool
    requires { IsRead asked.now }
    ensures { IsTrue result ↔ HasNoneInTime (view asked.now.packument.now) asked.now.options.now }
{
    let versions = are_late(asked, versions_of(asked.packument));
    let staged = are_late(asked, asked.staged);
    let restricted = are_late(asked, asked.restricted);
    are_true(versions, staged, restricted)
}

fn are_true(first: bool, second: bool, third: bool) -> bool
    ensures { result ≡ ((first && second) && third) }
{
    first && second && third
}

/// Returns `true` if all of these were published too late.
fn are_late(asked: &Asked<'_, '_>, listed: Option<&Map<String, Value>>) -> bool
    ensures { IsTrue result ↔ AreLate (view asked.now.packument.now) asked.now.options.now
        (releases_in (option_map (λ members. members_view members.now.entries) listed.entry)) }
{
    match listed {
        Some(versions) => are_all_late(asked, versions),
        None => true,
    }
}

fn are_all_late(asked: &Asked<'_, '_>, versions: &Map<String, Value>) -> bool
    ensures { IsTrue result ↔ AreLate (view asked.now.packument.now) asked.now.options.now
        (releases_among (members_view versions.now.entries)) }
{
    for (key, _) in versions.iter() {
        if is_published(asked.packument, asked.options.before, key.as_str()) {
            return false;
        }
    }
    true
}
