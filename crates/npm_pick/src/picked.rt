//! The version of a document that npm would install.
ghost use Rattle.std.specs.Prelude.{◌≡◌};
ghost use Rattle.serde_json.specs.View.{view};
ghost use Rattle.node_semver.specs.Versions.{version_text, without_build};
ghost use Rattle.npm_texts.specs.RangeText as RangeText;
ghost use Rattle.npm_pick.specs.Pick as Picks;
ghost use Rattle.npm_pick.specs.Pick.{IsAnswer, IsChosen, IsPicked, IsPickedAt, IsPickedByTag, IsPickedByText, IsPickedFor, answer_value};

use crate::error::PickError;
use crate::member::{is_restricted, tagged};
use crate::options::Options;
use crate::ranged::{pick_at, pick_in};
use crate::strict::pick_strictly;
use crate::time::is_published;
use crate::wanted::{is_tag, text_of, up_to};
use node_semver::VersionRef;
use npm_texts::{OF_DEPENDENCIES, filled, installed_version, is_plain, range_of};
use serde_json::Value;
use std::alloc::Global;

/// The version that is picked.
#[derive(Clone, Copy)]
pub struct Picked<'v> {
    /// The version, as it is written in the document.
    pub key: &'v str,
    /// Its value in `versions`, or else in `stagedVersions`.
    pub manifest: &'v Value,
    /// It is in the range of the versions to avoid. For a range no other version was left; for a version or a tag none was looked
    /// for. npm: `_shouldAvoid`.
    pub is_avoided: bool,
    /// With `avoid_strict`: it was picked in place of a version to avoid. npm: `_outsideDependencyRange`.
    pub is_outside: bool,
    /// With `is_outside`: it was picked of all versions, and not of those that `^` admits. npm: `_isSemVerMajor`.
    pub is_major: bool,
}

/// Picks the version of a package that npm would install for a version, a tag or a range.
///
/// For a range it picks the version of the default tag, if that is in the range and in time, not to be avoided, not
/// restricted, not staged, not deprecated, and fits the versions of Node and npm. Else it picks the version with the highest
/// rank. These count, the first most: not to be avoided; not to be restricted; not to be staged; not to be deprecated and to
/// fit; to fit; not to be deprecated; the order of versions. So a deprecated version that fits is picked before one that does
/// not fit.
///
/// For a version or a tag only that version will do. If the version of a tag was published after `before`, the highest
/// version at or below it is picked. The empty text is `*`.
///
/// With `avoid_strict` a version to avoid, as `1.2.3`, is replaced: by the version picked for `^1.2.3`, with
/// `is_outside`, or else by the one picked for `*`, also with `is_major`.
///
/// # Errors
///
/// - `foo bar`: `Wanted`, it is no version, no range and no tag. So are an alias, as `npm:a@1`, and a URL, a repository, a file or
///   a folder, as `1.0.0 || a.tgz`.
/// - `next`: `NoTag`, there is no such tag.
/// - `1.2.3`: `NoVersion`, there is no such version, or it was published after `before`.
/// - `^9`: `NoneInRange`, or `NoVersions` if no version at all was published in time.
/// - `^1`: `Forbidden`, the version is one of `policyRestrictions`.
/// - `^1` with `avoid_strict`: `Avoided`, each of the three versions is one to avoid.
/// - any text: `Memory` if an allocation fails.
///
/// # Memory
///
/// Allocates the ranges while it runs, and for a version its text. The result borrows the document.
///
/// # Examples
///
/// Of 1.2.0, 1.3.0 and 2.0.0, where `latest` is 1.2.0, it picks 1.2.0 for `^1` and for `*`, and 1.3.0 for `>=1.3 <2`.
///
/// # Source
///
/// npm's `npm-pick-manifest` 9.1.0.
pub fn pick<'v>(
    alloc: Global,
    packument: &'v Value,
    wanted: &str,
    options: &Options<'_>,
) -> Result<Picked<'v>, PickError>
    ensures { IsAnswer (IsPicked (view packument.now) options.now (RangeText.filled wanted.now)) (answer_value result) }
{
    let picked = pick_chosen(alloc, packument, filled(wanted), options)?;
    if is_restricted(packument, picked.key) {
        Err(PickError::Forbidden)
    } else {
        Ok(picked)
    }
}

/// Picks a version, whether a policy restricts it or not.
fn pick_chosen<'v>(
    alloc: Global,
    packument: &'v Value,
    wanted: &str,
    options: &Options<'_>,
) -> Result<Picked<'v>, PickError>
    ensures { IsAnswer (IsChosen options.now.avoid_strict (view packument.now) options.now wanted.now)
        (answer_value result) }
{
    if options.avoid_strict {
        pick_strictly(alloc, packument, wanted, options)
    } else {
        pick_for(alloc, packument, wanted, options)
    }
}

/// Picks for a text that should be a version, a range or a tag.
pub(crate) fn pick_for<'v>(
    alloc: Global,
    packument: &'v Value,
    wanted: &str,
    options: &Options<'_>,
) -> Result<Picked<'v>, PickError>
    ensures { IsAnswer (IsPickedFor (view packument.now) options.now wanted.now) (answer_value result) }
{
    if is_plain(wanted) {
        pick_by_text(alloc, packument, wanted, options)
    } else {
        Err(PickError::Wanted)
    }
}

/// Picks for a text that is neither a location nor an alias.
fn pick_by_text<'v>(
    alloc: Global,
    packument: &'v Value,
    wanted: &str,
    options: &Options<'_>,
) -> Result<Picked<'v>, PickError>
    ensures { IsAnswer (IsPickedByText (view packument.now) options.now wanted.now) (answer_value result) }
{
    if let Some(version) = installed_version(wanted) {
        return pick_version(alloc, packument, &version, options);
    }
    match range_of(alloc, wanted, OF_DEPENDENCIES)? {
        Some(range) => pick_in(alloc, packument, wanted, range, options),
        None if is_tag(wanted) => pick_by_tag(alloc, packument, wanted, options),
        None => Err(PickError::Wanted),
    }
}

/// Picks a version.
fn pick_version<'v>(
    alloc: Global,
    packument: &'v Value,
    version: &VersionRef<'_>,
    options: &Options<'_>,
) -> Result<Picked<'v>, PickError>
    ensures { IsAnswer (IsPickedAt (view packument.now) options.now (version_text (without_build version.now)))
        (answer_value result) }
{
    let text = text_of(alloc, version)?;
    pick_at(alloc, packument, text.as_str(), options)
}

/// Picks the version that a tag names, or if that was published too late the highest one below it.
fn pick_by_tag<'v>(
    alloc: Global,
    packument: &'v Value,
    tag: &str,
    options: &Options<'_>,
) -> Result<Picked<'v>, PickError>
    ensures { IsAnswer (IsPickedByTag (view packument.now) options.now tag.now) (answer_value result) }
{
    let Some(key) = tagged(packument, tag) else {
        return Err(PickError::NoTag);
    };
    if is_published(packument, options.before, key) {
        return pick_at(alloc, packument, key, options);
    }
    let text = up_to(alloc, key)?;
    match range_of(alloc, text.as_str(), OF_DEPENDENCIES)? {
        Some(range) => pick_in(alloc, packument, text.as_str(), range, options),
        None => Err(PickError::Wanted),
    }
}
