//! Whether each dependency is met.
ghost use Rattle.std.specs.Prelude.{◌≡◌, ◌↔◌, IfOk, IsTrue, List, false, option_map, ℕ};
ghost use Rattle.node_semver.specs.Ranges.{RangeAdmits};
ghost use Rattle.node_semver.specs.Versions.{VersionValue};
ghost use Rattle.npm_texts.specs.Admission.{Admits, of_dependencies};
ghost use Rattle.npm_trees.specs.Meeting as Meeting;
ghost use Rattle.npm_trees.specs.Meeting.{IsAnswered, IsMet, IsMetFor, IsSpecMet, IsTextMet, Meets};
ghost use Rattle.npm_trees.specs.Private.Folders.{AreUpward, IsIndexOf};
ghost use Rattle.npm_trees.specs.Private.Meeting.{IsAdmitted, IsLocal};

use crate::Result;
use crate::folders::{Folders, in_folder, seen_from};
use crate::place::{is_package, is_peer, is_top, start_of};
use crate::tree::{Ask, Kind, Place, Stands};
use node_semver::Range;
use npm_texts::{OF_DEPENDENCIES, installed_version, is_tag, range_of, registry_spec};
use std::alloc::Global;

/// Returns `true` if each dependency is met.
pub(crate) fn are_met<'d>(
    alloc: Global,
    folders: &Folders<'d>,
    places: &[Place<'d>],
    asks: &[Ask<'d>],
) -> Result<bool>
    requires index { IsIndexOf places.now folders.now }
    requires upward { AreUpward places.now }
    ensures { IfOk result (λ all. IsTrue all ↔ IsMet places.now asks.now) }
{
    for ask in asks {
        let met = is_bundled_or_met(alloc, folders, places, ask)?;
        if !met {
            return Ok(false);
        }
    }
    Ok(true)
}

fn is_bundled_or_met<'d>(
    alloc: Global,
    folders: &Folders<'d>,
    places: &[Place<'d>],
    ask: &Ask<'d>,
) -> Result<bool>
    requires index { IsIndexOf places.now folders.now }
    requires upward { AreUpward places.now }
    ensures { IfOk result (λ is. IsTrue is ↔ (ask.now.bundled ≡ false → IsMetFor places.now ask.now)) }
{
    if ask.bundled {
        return Ok(true);
    }
    is_met(alloc, folders, places, ask)
}

/// Returns `true` if a dependency is met.
fn is_met<'d>(
    alloc: Global,
    folders: &Folders<'d>,
    places: &[Place<'d>],
    ask: &Ask<'d>,
) -> Result<bool>
    requires index { IsIndexOf places.now folders.now }
    requires upward { AreUpward places.now }
    ensures { IfOk result (λ is. IsTrue is ↔ IsMetFor places.now ask.now) }
{
    if is_local(folders, places, ask) {
        return Ok(false);
    }
    let found = seen_from(folders, places, ask.name, start_of(places, ask));
    is_answered(alloc, places, ask, found)
}

/// Returns `true` for a peer that is inside the package that asks for it.
fn is_local<'d>(folders: &Folders<'d>, places: &[Place<'d>], ask: &Ask<'d>) -> bool
    requires { IsIndexOf places.now folders.now }
    ensures { IsTrue result ↔ IsLocal places.now ask.now }
{
    match in_folder(folders, ask.from, ask.name) {
        Some(_) => is_peer(places, ask),
        None => false,
    }
}

fn is_answered(
    alloc: Global,
    places: &[Place<'_>],
    ask: &Ask<'_>,
    found: Option<usize>,
) -> Result<bool>
    ensures { IfOk result (λ is. IsTrue is ↔ IsAnswered places.now ask.now found) }
{
    match found {
        Some(number) => meets(alloc, places, ask, number),
        None => Ok(is_optional(ask.kind)),
    }
}

fn is_optional(kind: Kind) -> bool
    ensures { result ≡ Meeting.is_optional kind }
{
    matches!(kind, Kind::Optional | Kind::OptionalPeer)
}

/// Returns `true` if a place meets a dependency.
fn meets(alloc: Global, places: &[Place<'_>], ask: &Ask<'_>, number: usize) -> Result<bool>
    ensures { IfOk result (λ is. IsTrue is ↔ Meets places.now ask.now number) }
{
    if let Some(workspace) = ask.workspace {
        return Ok(number == workspace);
    }
    match places.get(number) {
        Some(place) if has_rules(places, ask, place) => is_spec_met(alloc, places, ask, place),
        _ => Ok(false),
    }
}

/// Returns `true` if the rules count in a place that must count there.
fn has_rules(places: &[Place<'_>], ask: &Ask<'_>, place: &Place<'_>) -> bool
    ensures { result ≡ Meeting.has_rules places.now ask.now place.now }
{
    is_top(place.stands) || is_peer(places, ask) || place.rules == ask.rules
}

fn is_spec_met(
    alloc: Global,
    places: &[Place<'_>],
    ask: &Ask<'_>,
    place: &Place<'_>,
) -> Result<bool>
    ensures { IfOk result (λ is. IsTrue is ↔ IsSpecMet places.now ask.now place.now) }
{
    match registry_spec(ask.name, ask.spec) {
        Some(request) => {
            let version = version_of(places, place.stands);
            is_text_met(alloc, request.text, version, is_package(place.stands))
        }
        None => Ok(false),
    }
}

/// Returns the version of what stands in a place, where a link has none.
fn own_version<'d>(stands: Stands<'d>) -> Option<&'d str>
    ensures { option_map (λ text. text.now) result ≡ Meeting.own_version stands.entry }
{
    match stands {
        Stands::Top { manifest, .. } => manifest.get("version")?.as_str(),
        Stands::Package { version, .. } => Some(version),
        Stands::Link { .. } => None,
    }
}

/// Returns the same, where a link has that of its target.
fn version_of<'d>(places: &[Place<'d>], stands: Stands<'d>) -> Option<&'d str>
    ensures { option_map (λ text. text.now) result ≡ Meeting.version_of places.now stands.entry }
{
    match stands {
        Stands::Link { to } => match places.get(to) {
            Some(target) => own_version(target.stands),
            None => None,
        },
        stands => own_version(stands),
    }
}

/// Returns `true` for `*`, which any version meets.
fn asks_for_any(text: &str) -> bool
    ensures { result ≡ Meeting.asks_for_any text.now }
{
    text.trim() == "*"
}

/// Returns `true` if a version meets the text of a spec.
fn is_text_met(
    alloc: Global,
    text: &str,
    version: Option<&str>,
    is_registered: bool,
) -> Result<bool>
    ensures { IfOk result (λ is. IsTrue is
        ↔ IsTextMet text.now (option_map (λ t. t.now) version.entry) is_registered) }
{
    if asks_for_any(text) {
        return Ok(true);
    }
    match range_of(alloc, text, OF_DEPENDENCIES)? {
        Some(range) => Ok(is_inside(&range, version)),
        None => Ok(is_registered && is_tag(text)),
    }
}

/// Returns `true` if a range admits a version.
fn is_inside(range: &Range, version: Option<&str>) -> bool
    ensures { (text : List ℕ) → ((v : VersionValue) → RangeAdmits range.now v ↔ Admits of_dependencies text v)
        → (IsTrue result ↔ IsAdmitted text (option_map (λ t. t.now) version.entry)) }
{
    let Some(text) = version else {
        return false;
    };
    match installed_version(text) {
        Some(version) => range.satisfies(&version),
        None => false,
    }
}
