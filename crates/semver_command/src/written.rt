//! The version that a text is, or that is found in it.
ghost use Rattle.std.specs.Prelude.{◌≡◌, true, IfOk, MatchOption, chars};
ghost use Rattle.node_semver.specs.Versions.{VersionValue};
ghost use Rattle.semver_texts.specs.Version.{without_build};
ghost use Rattle.semver_command.specs.Written as Written;
ghost use Rattle.semver_command.specs.Written.{IsFound, IsRead, IsWritten};

use crate::asked::Options;
use node_semver::{Version, VersionRef};
use npm_semver::{CoerceOptions, coerce, coerce_with_prerelease, parse_version_ref};
use npm_texts::{is_long, without_white_end, without_white_start};
use std::alloc::{AllocError, Global};

/// Returns the version that a text is read as, without its build, or `None` if it is read as none.
pub fn version_of(
    alloc: Global,
    text: &str,
    options: Options,
) -> Result<Option<Version>, AllocError>
    ensures { IfOk result (λ read. MatchOption read ((v : VersionValue) → ¬ IsRead options text.now v)
        (IsRead options text.now)) }
{
    if options.coerce {
        return coerced_version(alloc, text, options);
    }
    own_version(alloc, text)
}

/// The version that is found in the text, or else that which the text is.
fn coerced_version(
    alloc: Global,
    text: &str,
    options: Options,
) -> Result<Option<Version>, AllocError>
    requires { options.coerce ≡ true }
    ensures { IfOk result (λ read. MatchOption read ((v : VersionValue) → ¬ IsRead options text.now v)
        (IsRead options text.now)) }
{
    match found_version(alloc, text, options)? {
        Some(version) => Ok(Some(bare_version(alloc, version))),
        None => own_version(alloc, text),
    }
}

/// The version that the text is, without its build.
fn own_version(alloc: Global, text: &str) -> Result<Option<Version>, AllocError>
    ensures { IfOk result (λ read. MatchOption read ((v : VersionValue) → ¬ IsWritten text.now v)
        (λ v. (w : VersionValue) × IsWritten text.now w × (v ≡ without_build w))) }
{
    match written_version(text) {
        Some(version) => Ok(Some(bare_version(alloc, version.to_version(alloc)?))),
        None => Ok(None),
    }
}

/// The version without its build.
fn bare_version(alloc: Global, version: Version) -> Version
    ensures { result ≡ without_build version }
{
    Version {
        major: version.major,
        minor: version.minor,
        patch: version.patch,
        build: Vec::new(alloc),
        pre_release: version.pre_release,
    }
}

/// The version that `coerce` finds in the text.
fn found_version(alloc: Global, text: &str, options: Options) -> Result<Option<Version>, AllocError>
    ensures { IfOk result (λ found. MatchOption found ((v : VersionValue) → ¬ IsFound options text.now v)
        (IsFound options text.now)) }
{
    let from = CoerceOptions { rtl: options.rtl };
    if options.include_prerelease {
        return coerce_with_prerelease(alloc, text, from);
    }
    Ok(coerce(alloc, text, from))
}

/// The version that the text is.
fn written_version(text: &str) -> Option<VersionRef<'_>>
    ensures { MatchOption result ((v : VersionValue) → ¬ IsWritten text.now v) (IsWritten text.now) }
{
    if is_long(text) {
        return None;
    }
    match parse_version_ref(bare(text)) {
        Ok(version) => Some(version),
        Err(_) => None,
    }
}

/// The text without white space at its ends, and without a `v` before the rest.
fn bare(text: &str) -> &str
    ensures { result.now ≡ Written.bare text.now }
{
    without_mark(without_white_end(without_white_start(text)))
}

/// The text without a `v` at its start.
fn without_mark(text: &str) -> &str
    ensures { chars result.now ≡ Written.without_mark (chars text.now) }
{
    let mut left = text.chars();
    match left.next() {
        Some('v') => left.as_str(),
        _ => text,
    }
}
