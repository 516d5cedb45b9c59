//! Where in an OSV object a fault is.

use crate::fault::{Unread, is_refused};
use crate::member::{items_at, listed_at};
use crate::osv::affected::{
    has_versions, range_of, spans_of_range, spans_of_ranges, spans_of_versions,
};
use crate::osv::events;
use crate::osv::events::has_fault;
use crate::osv::packages::npm_name;
use crate::steps::push_member;
use crate::wanted::Names;
use crate::{FaultKind, Result};
use json_places::Step;
use serde_json::Value;
use std::alloc::Global;

/// Adds the steps that lead to a fault of this kind in an OSV object.
pub(crate) fn push_osv<'v>(
    alloc: Global,
    steps: &mut Vec<Step<'v>>,
    names: &Names<'_>,
    entry: &'v Value,
    kind: FaultKind,
) -> Result<()> {
    match kind {
        FaultKind::Advisory => Ok(()),
        FaultKind::OsvId => push_member(steps, entry, "id"),
        FaultKind::Affected => push_member(steps, entry, "affected"),
        FaultKind::Withdrawn => {
            steps.push(Step::Member("withdrawn"))?;
            Ok(())
        }
        _ => {
            steps.push(Step::Member("affected"))?;
            push_affected(alloc, steps, names, listed_at(entry, "affected"))
        }
    }
}

/// Adds the steps that lead to the first fault of the elements of `affected`.
fn push_affected<'v>(
    alloc: Global,
    steps: &mut Vec<Step<'v>>,
    names: &Names<'_>,
    affected: &'v [Value],
) -> Result<()> {
    for position in 0..affected.len() {
        let one = &affected[position];
        if has_affected_fault(alloc, names, one)? {
            steps.push(Step::Item(position))?;
            return push_in_affected(alloc, steps, one);
        }
    }
    Ok(())
}

/// Whether an element of `affected` has a fault.
fn has_affected_fault(alloc: Global, names: &Names<'_>, one: &Value) -> Result<bool> {
    match npm_name(one) {
        Err(_) => Ok(true),
        Ok(Some(name)) if names.has(name) => has_failed(range_of(alloc, one)),
        Ok(_) => Ok(false),
    }
}

/// Adds the steps that lead to the fault of an element of `affected`.
fn push_in_affected<'v>(alloc: Global, steps: &mut Vec<Step<'v>>, one: &'v Value) -> Result<()> {
    if npm_name(one).is_err() {
        return push_member(steps, one, "package");
    }
    if has_ranges_fault(alloc, one)? {
        steps.push(Step::Member("ranges"))?;
        return push_ranges(alloc, steps, listed_at(one, "ranges"));
    }
    if has_versions_fault(alloc, one)? {
        steps.push(Step::Member("versions"))?;
        return push_version(steps, listed_at(one, "versions"));
    }
    Ok(())
}

/// Whether the versions of an element of `affected` have a fault.
fn has_versions_fault(alloc: Global, one: &Value) -> Result<bool> {
    match items_at(one, "versions", FaultKind::Versions) {
        Ok(versions) => has_failed(spans_of_versions(alloc, versions)),
        Err(_) => Ok(true),
    }
}

/// Adds the step to the first of these versions that has a fault.
fn push_version<'v>(steps: &mut Vec<Step<'v>>, versions: &'v [Value]) -> Result<()> {
    for position in 0..versions.len() {
        if !versions[position].is_string() {
            steps.push(Step::Item(position))?;
            return Ok(());
        }
    }
    Ok(())
}

/// Whether the ranges of an element of `affected` have a fault.
fn has_ranges_fault(alloc: Global, one: &Value) -> Result<bool> {
    match items_at(one, "ranges", FaultKind::Ranges) {
        Ok(ranges) => has_failed(spans_of_ranges(alloc, ranges)),
        Err(_) => Ok(true),
    }
}

/// Adds the steps that lead to the first fault of these ranges.
fn push_ranges<'v>(alloc: Global, steps: &mut Vec<Step<'v>>, ranges: &'v [Value]) -> Result<()> {
    for position in 0..ranges.len() {
        let range = &ranges[position];
        if has_failed(spans_of_range(alloc, range))? {
            steps.push(Step::Item(position))?;
            return push_in_range(alloc, steps, range);
        }
    }
    Ok(())
}

/// Adds the steps that lead to the fault of a range.
fn push_in_range<'v>(alloc: Global, steps: &mut Vec<Step<'v>>, range: &'v Value) -> Result<()> {
    if has_versions(range).is_err() {
        return push_member(steps, range, "type");
    }
    if !has_events_fault(alloc, range)? {
        return push_member(steps, range, "events");
    }
    steps.push(Step::Member("events"))?;
    push_event(alloc, steps, listed_at(range, "events"))
}

/// Whether `events` of a range is no list, or one of them has a fault.
fn has_events_fault(alloc: Global, range: &Value) -> Result<bool> {
    match items_at(range, "events", FaultKind::Events) {
        Ok(events) => events::have_fault(alloc, events),
        Err(_) => Ok(true),
    }
}

/// Adds the step to the first of these events that has a fault.
fn push_event<'v>(alloc: Global, steps: &mut Vec<Step<'v>>, events: &'v [Value]) -> Result<()> {
    for position in 0..events.len() {
        if has_fault(alloc, &events[position])? {
            steps.push(Step::Item(position))?;
            return Ok(());
        }
    }
    Ok(())
}

/// Whether what was read has a fault.
fn has_failed<T: Drop>(read: Result<T, Unread>) -> Result<bool> {
    match read {
        Ok(_) => Ok(false),
        Err(unread) => is_refused(unread),
    }
}
