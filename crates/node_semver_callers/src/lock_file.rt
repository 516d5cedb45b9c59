//! Does the version in a lock file still satisfy the range in the manifest?

ghost use Rattle.std.specs.Prelude.{◌⊎◌, ◌↔◌, IfErr, IfOk, IsTrue};
ghost use Rattle.node_semver.specs.Ranges.{IsRefused, TextAdmits};
ghost use Rattle.node_semver.specs.Versions.{VersionValue};
ghost use Rattle.node_semver.specs.Versions.{IsVersionText};
ghost use Rattle.node_semver.specs.Errors.{IsOutOfMemory, IsRefusalAt, no_valid_ranges};
ghost use Rattle.node_semver.specs.Errors.{IsFaultOf};

use node_semver::{Range, SemverError, Version};
use std::alloc::Global;

/// Returns `true` if the locked version satisfies the range text of the manifest.
///
/// # Errors
///
/// Returns the error of the first of the two texts that fails to parse. If an allocation fails, its kind is
/// `OutOfMemory`.
pub fn still_fits(alloc: Global, asked: &str, locked: &str) -> Result<bool, SemverError>
    ensures fits { IfOk result (λ fits. (v : VersionValue) × IsVersionText locked.now v
        × (IsTrue fits ↔ TextAdmits asked.now v)) }
    ensures refused { IfErr result (λ e. IsOutOfMemory e ⊎ IsFaultOf locked.now e
        ⊎ (IsRefusalAt asked.now no_valid_ranges 0 e × IsRefused asked.now)) }
{
    let range = Range::parse(alloc, asked)?;
    let version = match Version::parse(alloc, locked) {
        Ok(version) => version,
        Err(error) => return Err(error),
    };
    Ok(range.satisfies(&version))
}
