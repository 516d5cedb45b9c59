//! The candidate that a lock file has for a name.
ghost use Rattle.std.specs.Prelude.{◌≡◌, IfOk, option_and_then, option_map};
ghost use Rattle.serde_json.specs.Find.{get};
ghost use Rattle.serde_json.specs.View.{view};
ghost use Rattle.npm_packages.specs.Packages as Packages;
ghost use Rattle.npm_packages.specs.PackageValue.{packages_data};
ghost use Rattle.npm_resolve.specs.Locked as Locked;
ghost use Rattle.npm_resolve.specs.Locked.{AreOffered};

use crate::Result;
use crate::candidates::candidate::Candidate;
use crate::candidates::listed::candidates_of;
use crate::candidates::options::Options;
use npm_packages::{Lock, place_text, version_of};
use serde_json::Value;
use std::alloc::Global;

/// Returns the versions of a document that can be chosen for a name: first the one that the lock file of the options has for this
/// name, and then the others in the order of [`candidates_of`].
///
/// The version of a name is that of the package at `node_modules/NAME`. If it cannot be chosen, nothing changes.
///
/// # Errors
///
/// An allocation failed.
///
/// # Memory
///
/// Allocates the list, and while it runs the place of the name and two lists. The list borrows the document.
///
/// # Examples
///
/// Of 1.2.0, 1.3.0 and 2.0.0, where the lock file has 1.3.0 in `node_modules/a`: 1.3.0, 2.0.0, 1.2.0 for the name `a`.
pub fn offered_of<'v>(
    alloc: Global,
    name: &str,
    packument: &'v Value,
    options: &Options<'_>,
) -> Result<Vec<Candidate<'v>>>
    ensures { IfOk result (λ candidates. AreOffered name.now (view packument.now) options.now candidates.items) }
{
    let preferred = candidates_of(alloc, packument, options)?;
    match locked_of(alloc, options, name)? {
        Some(key) => key_first(alloc, preferred, key),
        None => Ok(preferred),
    }
}

/// The version that the lock file of the options has for a name, if there is one.
fn locked_of<'o>(alloc: Global, options: &Options<'o>, name: &str) -> Result<Option<&'o str>>
    ensures { IfOk result (λ key. option_map (λ key. key.now) key ≡ Locked.locked_of options.now name.now) }
{
    match options.lock {
        Some(lock) => locked_at(alloc, lock, name),
        None => Ok(None),
    }
}

/// The version that a lock file has for a name.
fn locked_at<'o>(alloc: Global, lock: Lock<'o>, name: &str) -> Result<Option<&'o str>>
    ensures { IfOk result (λ key. option_map (λ key. key.now) key
        ≡ Locked.locked_at (packages_data lock.entry) name.now) }
{
    let place = place_text(alloc, "", name)?;
    Ok(version_at(lock, place.as_str()))
}

/// The version of the package at a place.
fn version_at<'o>(lock: Lock<'o>, place: &str) -> Option<&'o str>
    ensures { option_map (λ key. key.now) result
        ≡ option_and_then Packages.version_of (get place.now (packages_data lock.entry)) }
{
    match lock.package_in(place) {
        Some(found) => version_of(found.member),
        None => None,
    }
}

/// The candidate with this key first, and then the others.
fn key_first<'v>(
    alloc: Global,
    candidates: Vec<Candidate<'v>>,
    key: &str,
) -> Result<Vec<Candidate<'v>>>
    ensures { IfOk result (λ ordered. ordered.items ≡ Locked.key_first key.now candidates.entry.items) }
{
    let mut first = Vec::new(alloc);
    let mut others = Vec::with_capacity(alloc, candidates.len())?;
    for candidate in candidates {
        if candidate.key == key {
            first.push(candidate)?;
        } else {
            others.push(candidate)?;
        }
    }
    first.append(&mut others)?;
    Ok(first)
}
