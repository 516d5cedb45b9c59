//! One advisory, and how it is read.
ghost use Rattle.std.specs.Prelude.{◌≡◌, ◌↔◌, IfErr, IfOk, IsTrue, None, OnOk, Some, codes, option_map, unwrap_or};
ghost use Rattle.std.specs.List.{AllByRecursion};
ghost use Rattle.std.specs.Result.{result_err};
ghost use Rattle.serde_json.specs.Data.{null};
ghost use Rattle.serde_json.specs.Find.{get};
ghost use Rattle.serde_json.specs.View.{view};
ghost use Rattle.node_semver.specs.RangeAlgebra.{sets_of_answer};
ghost use Rattle.node_semver.specs.Ranges.{IsRangeSet, RangeContains};
ghost use Rattle.npm_advisories.specs.Advisories as Advisories;
ghost use Rattle.npm_advisories.specs.Faults as Faults;
ghost use Rattle.npm_advisories.specs.Advisories.{about_value, range_text};
ghost use Rattle.npm_advisories.specs.Index.{IsAdvisory, IsRangeOf};
ghost use Rattle.npm_advisories.specs.Private.Reading.{IsUnreadAs};

use crate::Result;
use crate::fault::{FaultKind, Unread};
use crate::known::Aliases;
use crate::severity::Severity;
use node_semver::{Range, Version, VersionRef};
use npm_semver::NpmOptions;
use npm_texts::rest_after;
use semver_cuts::Span;
use serde_json::Value;
use std::alloc::Global;

/// What an advisory says of itself.
#[derive(Clone, Copy)]
pub struct About<'v> {
    /// A number or a string.
    pub id: &'v Value,
    pub severity: Severity,
    pub title: Option<&'v str>,
    pub url: Option<&'v str>,
    pub aliases: Aliases<'v>,
}

/// An advisory about some versions of a package.
#[derive(Drop)]
pub(crate) struct Advisory<'v> {
    /// The name of the package.
    pub name: &'v str,
    pub about: About<'v>,
    /// The versions that it is about, prereleases included; `None` if it is about none.
    pub range: Option<Range>,
}

impl<'v> Advisory<'v> {
    /// Returns `true` if the advisory is about the version.
    pub(crate) fn is_about(&self, version: &VersionRef<'_>) -> bool
        ensures { IsTrue result ↔ RangeContains (sets_of_answer self.now.range) version.now }
    {
        match &self.range {
            Some(range) => range.contains(version),
            None => false,
        }
    }

    /// Returns the sets of its range.
    pub(crate) fn sets(&self, alloc: Global) -> Result<Vec<Span<Version>>>
        ensures sets { IfOk result (λ sets. sets.items ≡ sets_of_answer self.now.range) }
        ensures holds { IfOk result (λ sets. AllByRecursion IsRangeSet sets.items) }
    {
        match &self.range {
            Some(range) => range.sets(alloc),
            None => Ok(Vec::new(alloc)),
        }
    }
}

/// npm reads the range of an advisory so.
pub(crate) const OPTIONS: NpmOptions = NpmOptions {
    loose: true,
    include_prerelease: true,
};

/// Reads an advisory in npm's form, which stands under the name of a package.
pub(crate) fn npm_advisory<'v>(
    alloc: Global,
    name: &'v str,
    entry: &'v Value,
) -> Result<Advisory<'v>, Unread>
    ensures read { IfOk result (IsAdvisory (Advisories.npm_advisory name.now (view entry.now))) }
    ensures sound { OnOk result (Faults.npm_fault (view entry.now) ≡ None) }
    ensures refused { IfErr result (IsUnreadAs (Faults.npm_fault (view entry.now))) }
{
    let id = formed_id(entry)?;
    let about = npm_about(entry, id)?;
    let range = range_of(alloc, entry)?;
    Ok(Advisory {
        name,
        about,
        range: Some(range),
    })
}

/// The `id` of an advisory that is in npm's form.
pub(crate) fn formed_id(entry: &Value) -> Result<&Value, FaultKind>
    ensures id { IfOk result (λ id. view id.now ≡ unwrap_or (get (codes "id") (view entry.now)) null) }
    ensures fault { result_err result ≡ Faults.form_fault (view entry.now) }
{
    entry.as_object().ok_or(FaultKind::Advisory)?;
    let id = id_of(entry)?;
    match entry.get("affected") {
        Some(_) => Err(FaultKind::OsvUnderName),
        None if has_member(entry) => Ok(id),
        None => Err(FaultKind::NoMember),
    }
}

/// Returns `true` if an advisory in npm's form has one of its members beside `id`.
fn has_member(entry: &Value) -> bool
    ensures { result ≡ Faults.has_member (view entry.now) }
{
    entry.get("severity").is_some()
        || entry.get("title").is_some()
        || entry.get("url").is_some()
        || entry.get("vulnerable_versions").is_some()
}

/// The members that say what the advisory with this `id` is.
fn npm_about<'v>(entry: &'v Value, id: &'v Value) -> Result<About<'v>, FaultKind>
    requires { view id.now ≡ unwrap_or (get (codes "id") (view entry.now)) null }
    ensures about { IfOk result (λ about. about_value about ≡ Advisories.npm_about (view entry.now)) }
    ensures fault { result_err result ≡ Faults.about_fault (view entry.now) }
{
    let severity = text_of(entry, "severity", FaultKind::Severity)?;
    let title = text_of(entry, "title", FaultKind::Title)?;
    let url = text_of(entry, "url", FaultKind::Url)?;
    Ok(About {
        id,
        severity: severity_of(severity),
        title,
        url,
        aliases: Aliases::Address(id_in_url(url)),
    })
}

/// The id in an address on GitHub, if it is one.
fn id_in_url(url: Option<&str>) -> Option<&str>
    ensures { option_map (λ id. id.now) result
        ≡ Advisories.id_in_url (option_map (λ url. url.now) url.entry) }
{
    rest_after(url?, "https://github.com/advisories/")
}

pub(crate) fn severity_of(text: Option<&str>) -> Severity
    ensures { result ≡ Advisories.severity_of_option (option_map (λ text. text.now) text.entry) }
{
    text.map_or(Severity::Unknown, Severity::of_text)
}

/// `id`, which is a number or a string.
fn id_of(entry: &Value) -> Result<&Value, FaultKind>
    ensures id { IfOk result (λ id. view id.now ≡ unwrap_or (get (codes "id") (view entry.now)) null) }
    ensures fault { result_err result ≡ Faults.id_fault (view entry.now) }
{
    match entry.get("id") {
        Some(id) if id.is_number() || id.is_string() => Ok(id),
        _ => Err(FaultKind::Id),
    }
}

/// A member that is a string. `null` counts as none, and any other value has this fault.
pub(crate) fn text_of<'v>(
    entry: &'v Value,
    key: &str,
    kind: FaultKind,
) -> Result<Option<&'v str>, FaultKind>
    ensures text { IfOk result (λ text. option_map (λ text. text.now) text
        ≡ Advisories.text_of key.now (view entry.now)) }
    ensures fault { result_err result ≡ Faults.text_fault key.now kind (view entry.now) }
{
    let Some(value) = entry.get(key) else {
        return Ok(None);
    };
    if value.is_null() {
        return Ok(None);
    }
    match value.as_str() {
        Some(text) => Ok(Some(text)),
        None => Err(kind),
    }
}

/// The range that `vulnerable_versions` writes: all versions if it is not there.
fn range_of(alloc: Global, entry: &Value) -> Result<Range, Unread>
    ensures range { IfOk result (λ range. IsRangeOf (range_text (Advisories.npm_range_text (view entry.now))) (Some range)) }
    ensures sound { OnOk result (Faults.range_fault (view entry.now) ≡ None) }
    ensures refused { IfErr result (IsUnreadAs (Faults.range_fault (view entry.now))) }
{
    let text = text_of(entry, "vulnerable_versions", FaultKind::RangeText)?;
    match npm_semver::parse_range(alloc, text.unwrap_or("*"), OPTIONS) {
        Ok(range) => Ok(range),
        Err(error) if error.is_out_of_memory() => Err(Unread::Memory),
        Err(_) => Err(Unread::Refused(FaultKind::Range)),
    }
}
