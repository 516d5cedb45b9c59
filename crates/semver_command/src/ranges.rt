//! The ranges that a version must satisfy.
ghost use Rattle.std.specs.Prelude.{◌≡◌, ◌↔◌, IfOk, IsTrue, map};
ghost use Rattle.npm_semver.specs.NpmRanges.{NpmOptions};
ghost use Rattle.node_semver.specs.Versions.{VersionValue};
ghost use Rattle.semver_command.specs.Ranges.{IsAdmittedBy, IsAdmittedByAll, IsIn, IsInAll, range_value, text_value};

use node_semver::{Range, Version};
use npm_semver::{NpmOptions, parse_range};
use std::alloc::{AllocError, Global};

/// Returns the ranges of these texts. It is `None` for a text that is refused or missing: no version satisfies it.
pub fn ranges_of(
    alloc: Global,
    texts: &[Option<&str>],
    options: NpmOptions,
) -> Result<Vec<Option<Range>>, AllocError>
    ensures { IfOk result (λ ranges. (v : VersionValue) → IsInAll options.include_prerelease ranges.items v
        ↔ IsAdmittedByAll options (map text_value texts.now) v) }
{
    let mut ranges = Vec::new(alloc);
    for text in texts {
        ranges.push(range_of(alloc, *text, options)?)?;
    }
    Ok(ranges)
}

/// The range of a text.
fn range_of(
    alloc: Global,
    text: Option<&str>,
    options: NpmOptions,
) -> Result<Option<Range>, AllocError>
    ensures { IfOk result (λ range. (v : VersionValue)
        → IsIn options.include_prerelease range v ↔ IsAdmittedBy options (text_value text.entry) v) }
{
    let Some(text) = text else {
        return Ok(None);
    };
    match parse_range(alloc, text, options) {
        Ok(range) => Ok(Some(range)),
        Err(error) if error.is_out_of_memory() => Err(AllocError),
        Err(_) => Ok(None),
    }
}

/// Returns `true` if the version satisfies each range, or with prereleases included lies inside a set of each.
pub fn is_in_all(ranges: &[Option<Range>], version: &Version, include_prerelease: bool) -> bool
    ensures { IsTrue result ↔ IsInAll include_prerelease ranges.now version.now }
{
    for range in ranges {
        if !is_in(range.as_ref(), version, include_prerelease) {
            return false;
        }
    }
    true
}

/// Returns `true` if the version satisfies the range, or with prereleases included lies inside one of its sets.
fn is_in(range: Option<&Range>, version: &Version, include_prerelease: bool) -> bool
    ensures { IsTrue result ↔ IsIn include_prerelease (range_value range.entry) version.now }
{
    match range {
        None => false,
        Some(range) => {
            if include_prerelease {
                range.contains(version)
            } else {
                range.satisfies(version)
            }
        }
    }
}
