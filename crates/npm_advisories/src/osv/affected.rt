//! The versions that an element of `affected` is about.
ghost use Rattle.std.specs.Prelude.{◌≡◌, ◌++◌, [], ◌∷◌, IfErr, IfOk, None, OnOk, Some, codes, false, if◌then◌else◌};
ghost use Rattle.std.specs.Result.{result_err};
ghost use Rattle.std.specs.Option.{option_map_or};
ghost use Rattle.serde_json.specs.Find.{as_str};
ghost use Rattle.serde_json.specs.View.{items_view, view};
ghost use Rattle.node_semver.specs.Ranges.{AnyByRecursion};
ghost use Rattle.npm_advisories.specs.Faults.{first_fault};
ghost use Rattle.npm_advisories.specs.OsvFaults as Faults;
ghost use Rattle.npm_advisories.specs.OsvForm as Form;
ghost use Rattle.npm_advisories.specs.OsvRanges.{IsInEvents, IsTextOfSame};
ghost use Rattle.npm_advisories.specs.ReadVersions.{is_read};
ghost use Rattle.npm_advisories.specs.Lemmas.Spans.{Have, span_list};
ghost use Rattle.npm_advisories.specs.Index.{IsRangeOf};
ghost use Rattle.npm_advisories.specs.Private.Reading.{IsUnreadAs};
ghost use Rattle.npm_advisories.specs.Private.VersionTest.{is_version};

use crate::Result;
use crate::fault::{FaultKind, Unread};
use crate::member::{items_at, text_at};
use crate::osv::between::spans_of_marks;
use crate::osv::events::range_marks;
use crate::version::{is_read, read_version};
use node_semver::{Range, Version};
use npm_semver::range_from_sets;
use semver_cuts::{Cut, Span};
use serde_json::Value;
use std::alloc::Global;

/// The versions that an element of `affected` is about, if there are any.
pub(crate) fn range_of(alloc: Global, one: &Value) -> Result<Option<Range>, Unread>
    ensures range { IfOk result (IsRangeOf (Form.osv_affected (view one.now))) }
    ensures sound { OnOk result (Faults.element_fault is_version (view one.now) ≡ None) }
    ensures refused { IfErr result (IsUnreadAs (Faults.element_fault is_version (view one.now))) }
{
    let ranges = items_at(one, "ranges", FaultKind::Ranges)?;
    let mut spans = spans_of_ranges(alloc, ranges)?;
    let versions = items_at(one, "versions", FaultKind::Versions)?;
    let mut listed = spans_of_versions(alloc, versions)?;
    if !any_has_versions(ranges) && !any_read(versions) {
        return Err(Unread::Refused(FaultKind::NoVersion));
    }
    spans.append(&mut listed)?;
    Ok(range_from_sets(alloc, &spans)?)
}

/// Returns `true` if one of the ranges has versions, and not commits.
fn any_has_versions(ranges: &[Value]) -> bool
    ensures { result ≡ Faults.any_has_versions (items_view ranges.now) }
{
    for range in ranges {
        if is_ordered(range) {
            return true;
        }
    }
    false
}

/// Returns `true` if a range has versions, whatever other types there may be.
fn is_ordered(range: &Value) -> bool
    ensures { result ≡ Form.has_versions (view range.now) }
{
    matches!(text_at(range, "type"), Some("SEMVER" | "ECOSYSTEM"))
}

/// Returns `true` if one of the listed versions is read as one.
fn any_read(versions: &[Value]) -> bool
    ensures { result ≡ Faults.any_read is_version (items_view versions.now) }
{
    for value in versions {
        if is_read_value(value) {
            return true;
        }
    }
    false
}

/// Returns `true` if the value is a string that is read as a version.
fn is_read_value(value: &Value) -> bool
    ensures { result ≡ option_map_or (is_read is_version) (as_str (view value.now)) false }
{
    match value.as_str() {
        Some(text) => is_read(text),
        None => false,
    }
}

/// The spans of all ranges that have versions.
pub(crate) fn spans_of_ranges(alloc: Global, ranges: &[Value]) -> Result<Vec<Span<Version>>, Unread>
    ensures read { IfOk result (λ spans. Have spans.items
        (λ v. AnyByRecursion (λ events. IsInEvents events v) (Form.ranges_of (items_view ranges.now)))) }
    ensures sound { OnOk result (first_fault (Faults.osv_range_fault is_version) (items_view ranges.now) ≡ None) }
    ensures refused { IfErr result
        (IsUnreadAs (first_fault (Faults.osv_range_fault is_version) (items_view ranges.now))) }
{
    let mut spans = Vec::new(alloc);
    for range in ranges {
        let mut more = spans_of_range(alloc, range)?;
        spans.append(&mut more)?;
    }
    Ok(spans)
}

/// The spans of a range; none if it has no versions.
pub(crate) fn spans_of_range(alloc: Global, range: &Value) -> Result<Vec<Span<Version>>, Unread>
    ensures read { IfOk result (λ spans. Have spans.items (λ v. AnyByRecursion (λ events. IsInEvents events v)
        (if Form.has_versions (view range.now) then Form.events_of (Form.items_at (codes "events") (view range.now)) ∷ []
        else []))) }
    ensures sound { OnOk result (Faults.osv_range_fault is_version (view range.now) ≡ None) }
    ensures refused { IfErr result (IsUnreadAs (Faults.osv_range_fault is_version (view range.now))) }
{
    if !has_versions(range)? {
        return Ok(Vec::new(alloc));
    }
    let events = items_at(range, "events", FaultKind::Events)?;
    let marks = range_marks(alloc, events)?;
    Ok(spans_of_marks(alloc, marks)?)
}

/// Returns `true` if a range has versions, and not commits.
pub(crate) fn has_versions(range: &Value) -> Result<bool, FaultKind>
    ensures versions { IfOk result (λ has. has ≡ Form.has_versions (view range.now)) }
    ensures fault { result_err result ≡ Faults.type_fault (view range.now) }
{
    match text_at(range, "type") {
        Some("SEMVER" | "ECOSYSTEM") => Ok(true),
        Some("GIT") => Ok(false),
        _ => Err(FaultKind::Type),
    }
}

/// The spans of the versions of a list.
pub(crate) fn spans_of_versions(
    alloc: Global,
    versions: &[Value],
) -> Result<Vec<Span<Version>>, Unread>
    ensures read { IfOk result (λ spans. Have spans.items
        (λ v. AnyByRecursion (λ text. IsTextOfSame text v) (Form.texts_of (items_view versions.now)))) }
    ensures sound { OnOk result (first_fault Faults.version_text_fault (items_view versions.now) ≡ None) }
    ensures refused { IfErr result
        (IsUnreadAs (first_fault Faults.version_text_fault (items_view versions.now))) }
{
    let mut spans = Vec::new(alloc);
    for value in versions {
        let Some(text) = value.as_str() else {
            return Err(Unread::Refused(FaultKind::VersionText));
        };
        if let Some(span) = span_of_version(alloc, text)? {
            push_span(&mut spans, span)?;
        }
    }
    Ok(spans)
}

fn push_span(spans: &mut Vec<Span<Version>>, span: Span<Version>) -> Result<()>
    ensures { OnOk result (spans.new.items ≡ spans.old.items ++ span ∷ []) }
{
    spans.push(span)?;
    Ok(())
}

/// The span of a version, if the text is one: `1.2.3`, and `=1.2.3` too.
fn span_of_version(alloc: Global, text: &str) -> Result<Option<Span<Version>>>
    ensures { IfOk result (λ span. Have (span_list span)
        (λ v. AnyByRecursion (λ t. IsTextOfSame t v) (text.now ∷ []))) }
{
    let Some(version) = read_version(text) else {
        return Ok(None);
    };
    let lower = Cut::Before(version.to_version(alloc)?);
    let upper = Cut::After(version.to_version(alloc)?);
    Ok(Some(Span::between(lower, upper)))
}
