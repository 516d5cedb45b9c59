//! Whether a version satisfies a dependency's spec.
ghost use Rattle.std.specs.Prelude.{◌≡◌, ◌↔◌, List, ℕ, IfOk, IsTrue, false, if◌then◌else◌, option_map, slice_index};
ghost use Rattle.std.specs.List.{list_all};
ghost use Rattle.node_semver.specs.Ranges.{RangeAdmits};
ghost use Rattle.node_semver.specs.Versions.{VersionValue};
ghost use Rattle.serde_json.specs.View.{view};
ghost use Rattle.npm_packages.specs.Asked.{accepted_of};
ghost use Rattle.npm_lock.specs.Private.RangeBytes.{begins_range, is_range_byte};
ghost use Rattle.npm_lock.specs.Verdict as Verdicts;
ghost use Rattle.npm_lock.specs.Verdict.{IsVerdict, IsVerdictOfBoth, IsVerdictOfText};
ghost use Rattle.npm_texts.specs.Admission.{Admits, IsNoRange, of_dependencies, of_engines};
ghost use Rattle.npm_texts.specs.SpecGrammar.{IsSpec, in_registry};
ghost use Rattle.npm_texts.specs.SpecGrammar as SpecGrammar;

use crate::Result;
use crate::problem::Reason;
use node_semver::{Range, Version};
use npm_packages::accepted_of;
use npm_texts::{OF_DEPENDENCIES, OF_ENGINES, Spec, installed_version, is_tag, range_of, spec_of};
use serde_json::Value;
use std::alloc::Global;

/// Whether a version satisfies a spec.
#[derive(Clone, Copy, Debug, PartialEq, Eq, Drop)]
pub(crate) enum Verdict {
    Valid,
    Invalid,
    /// It is not known, for this reason.
    Unchecked(Reason),
}

impl Verdict {
    /// The better of two verdicts: `Valid` before `Unchecked` before `Invalid`.
    fn better(self, other: Verdict) -> Verdict
        ensures { result ≡ Verdicts.better self other }
    {
        match (self, other) {
            (Verdict::Valid, _) | (_, Verdict::Valid) => Verdict::Valid,
            (Verdict::Unchecked(reason), _) => Verdict::Unchecked(reason),
            (Verdict::Invalid, other) => other,
        }
    }
}

/// Returns whether the version of a package satisfies the spec by which another depends on it, or the one in that package's
/// `acceptDependencies`.
pub(crate) fn verdict_of_both(
    alloc: Global,
    asker: &Value,
    name: &str,
    spec: &str,
    version: Option<&str>,
) -> Result<Verdict>
    ensures { IfOk result (IsVerdictOfBoth (option_map (λ t. t.now) version.entry) spec.now
        (accepted_of (view asker.now) name.now)) }
{
    let verdict = match verdict_of(alloc, spec, version)? {
        Verdict::Valid => return Ok(Verdict::Valid),
        verdict => verdict,
    };
    let Some(accepted) = accepted_of(asker, name) else {
        return Ok(verdict);
    };
    Ok(verdict.better(verdict_of(alloc, accepted, version)?))
}

/// Returns whether the version of a package satisfies a spec.
fn verdict_of(alloc: Global, spec: &str, version: Option<&str>) -> Result<Verdict>
    ensures { IfOk result (IsVerdict (option_map (λ t. t.now) version.entry) spec.now) }
{
    if is_plain_range(spec) {
        return verdict_of_text(alloc, spec, version);
    }
    match spec_of(spec) {
        Spec::Text(text) => verdict_of_text(alloc, text, version),
        Spec::Location => Ok(Verdict::Unchecked(Reason::Location)),
        Spec::Refused => Ok(Verdict::Invalid),
    }
}

/// Returns `true` for a spec that begins with a digit, `^` or `~`, and has only these and dots, as `^1.2.3`: most specs. It is a text,
/// and is seen faster than by the whole grammar.
#[inline(always)]
fn is_plain_range(spec: &str) -> bool
    ensures { IsTrue result → IsSpec spec.now (in_registry spec.now) }
{
    if !begins_range(spec) {
        return false;
    }
    has_range_bytes_alone(spec)
}

#[inline(always)]
fn begins_range(spec: &str) -> bool
    ensures { result ≡ begins_range (slice_index spec.now 0) }
{
    match spec.as_bytes() {
        [first, ..] => first.is_ascii_digit() || *first == b'^' || *first == b'~',
        [] => false,
    }
}

#[inline(always)]
fn has_range_bytes_alone(spec: &str) -> bool
    ensures { result ≡ list_all is_range_byte spec.now }
{
    spec.bytes().all(is_range_byte)
}

/// Returns `true` for a digit, a dot, `^` and `~`.
#[inline(always)]
fn is_range_byte(byte: u8) -> bool
    ensures { result ≡ is_range_byte byte }
{
    byte.is_ascii_digit() || byte == b'.' || byte == b'^' || byte == b'~'
}

/// Returns whether the version of a package satisfies a text that is a range or a tag. Most are satisfied, so whether a text asks for any
/// version is seen after that.
fn verdict_of_text(alloc: Global, text: &str, version: Option<&str>) -> Result<Verdict>
    ensures { IfOk result (IsVerdictOfText (option_map (λ t. t.now) version.entry) text.now) }
{
    match range_of(alloc, text, OF_DEPENDENCIES)? {
        Some(range) => {
            if is_satisfied(&range, version) {
                Ok(Verdict::Valid)
            } else {
                Ok(valid_for_any(text, Verdict::Invalid))
            }
        }
        None => Ok(valid_for_any(text, verdict_of_no_range(text))),
    }
}

/// The verdict on a text that is no range.
fn verdict_of_no_range(text: &str) -> Verdict
    ensures { result ≡ (if SpecGrammar.is_tag text.now then Verdict.Unchecked Reason.Tag else Verdict.Invalid) }
{
    if is_tag(text) {
        Verdict::Unchecked(Reason::Tag)
    } else {
        Verdict::Invalid
    }
}

/// Returns this verdict, but `Valid` for a text that asks for any version.
#[inline(never)]
fn valid_for_any(text: &str, verdict: Verdict) -> Verdict
    ensures { result ≡ (if Verdicts.asks_for_any text.now then Verdict.Valid else verdict) }
{
    if asks_for_any(text) {
        Verdict::Valid
    } else {
        verdict
    }
}

/// Returns `true` for `*`, which holds for any version, a prerelease too.
fn asks_for_any(text: &str) -> bool
    ensures { result ≡ Verdicts.asks_for_any text.now }
{
    text.trim() == "*"
}

/// Returns `true` if the version of a package satisfies a range. A text that npm reads no version in does not, and neither does
/// none.
fn is_satisfied(range: &Range, version: Option<&str>) -> bool
    ensures { (text : List ℕ) → Verdicts.asks_for_any text ≡ false → ¬ IsNoRange of_dependencies text
        → ((v : VersionValue) → RangeAdmits range.now v ↔ Admits of_dependencies text v)
        → IsVerdictOfText (option_map (λ t. t.now) version.entry) text
        (if result then Verdict.Valid else Verdict.Invalid) }
{
    let Some(text) = version else {
        return false;
    };
    match installed_version(text) {
        Some(version) => range.satisfies(&version),
        None => false,
    }
}

/// Returns `true` if a version lies inside a range for Node, whatever prerelease it is. It lies in no text that is no
/// range.
pub(crate) fn is_contained(alloc: Global, text: &str, version: &Version) -> Result<bool>
    ensures { IfOk result (λ is_inside. IsTrue is_inside ↔ Admits of_engines text.now version.now) }
{
    match range_of(alloc, text, OF_ENGINES)? {
        Some(range) => Ok(range.contains(version)),
        None => Ok(false),
    }
}
