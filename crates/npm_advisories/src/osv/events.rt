//! The events of a range, as marks at cuts.
ghost use Rattle.std.specs.Prelude.{◌≡◌, [], ◌∷◌, IfErr, IfOk, None, OnOk, Some, false, is_some, option_map};
ghost use Rattle.std.specs.Option.{option_map_or, option_or};
ghost use Rattle.serde_json.specs.View.{items_view, view};
ghost use Rattle.node_semver.specs.Versions.{IsVersionText};
ghost use Rattle.npm_advisories.specs.Faults.{first_fault};
ghost use Rattle.npm_advisories.specs.OsvFaults as Faults;
ghost use Rattle.npm_advisories.specs.OsvForm as Form;
ghost use Rattle.npm_advisories.specs.OsvRanges.{introduced, is_last, limit};
ghost use Rattle.npm_advisories.specs.Private.OsvReading.{AreGoingOn, AreMarks, AreRangeMarks, IsGoingOn, IsMark};
ghost use Rattle.npm_advisories.specs.Private.OsvReading.{event_value, place_fault, version_fault};
ghost use Rattle.npm_advisories.specs.Private.Reading.{IsUnreadAs};
ghost use Rattle.npm_advisories.specs.Private.VersionTest.{is_version};

use crate::Result;
use crate::fault::{FaultKind, Unread, is_refused};
use crate::osv::marks::{Mark, Marks};
use node_semver::{Version, VersionRef};
use semver_cuts::Cut;
use serde_json::Value;
use std::alloc::Global;

/// An event of a range, with its text.
#[derive(Clone, Copy, Drop)]
enum Event<'v> {
    Introduced(&'v str),
    Fixed(&'v str),
    LastAffected(&'v str),
    Limit(&'v str),
}

/// The marks of the events of a range.
fn marks_of(alloc: Global, events: &[Value]) -> Result<Marks, Unread>
    ensures read { IfOk result (AreMarks (Form.events_of (items_view events.now))) }
    ensures sound { OnOk result (first_fault (Faults.event_fault is_version) (items_view events.now) ≡ None) }
    ensures refused { IfErr result
        (IsUnreadAs (first_fault (Faults.event_fault is_version) (items_view events.now))) }
{
    let mut marks = Marks::new(alloc);
    for value in events {
        let Some(event) = event_of(value) else {
            return Err(Unread::Refused(FaultKind::Event));
        };
        let mark = mark_of(alloc, event)?;
        marks.add(mark)?;
    }
    Ok(marks)
}

/// The marks of a range with these events.
pub(crate) fn range_marks(alloc: Global, events: &[Value]) -> Result<Marks, Unread>
    ensures read { IfOk result (AreRangeMarks (Form.events_of (items_view events.now))) }
    ensures sound { OnOk result (option_or (first_fault (Faults.event_fault is_version) (items_view events.now))
        (Faults.introduced_fault (items_view events.now)) ≡ None) }
    ensures refused { IfErr result (IsUnreadAs (option_or
        (first_fault (Faults.event_fault is_version) (items_view events.now))
        (Faults.introduced_fault (items_view events.now)))) }
{
    let mut marks = marks_of(alloc, events)?;
    if !any_introduced(events) {
        return Err(Unread::Refused(FaultKind::NoStart));
    }
    let mut more = going_on(alloc, events)?;
    marks.starts.append(&mut more)?;
    Ok(marks)
}

/// Returns `true` if one of the events is `introduced`.
fn any_introduced(events: &[Value]) -> bool
    ensures { result ≡ Faults.any_introduced (items_view events.now) }
{
    for event in events {
        if event.get("introduced").is_some() {
            return true;
        }
    }
    false
}

/// The cuts behind versions where faults go on, whatever ends at the versions.
fn going_on(alloc: Global, events: &[Value]) -> Result<Vec<Cut<Version>>>
    requires { first_fault (Faults.event_fault is_version) (items_view events.now) ≡ None }
    ensures { IfOk result (λ cuts. AreGoingOn (Form.events_of (items_view events.now)) cuts.items) }
{
    let mut cuts = Vec::new(alloc);
    for place in 0..events.len() {
        if let Some(cut) = goes_on(alloc, &events[place], &events[place + 1..])? {
            cuts.push(cut)?;
        }
    }
    Ok(cuts)
}

/// The cut behind the version of an event, if a fault goes on there.
fn goes_on(alloc: Global, value: &Value, others: &[Value]) -> Result<Option<Cut<Version>>>
    requires { first_fault (Faults.event_fault is_version) (items_view others.now) ≡ None }
    ensures { IfOk result (IsGoingOn (Form.event_of (view value.now)) (Form.events_of (items_view others.now))) }
{
    match event_of(value) {
        Some(event) => goes_on_behind(alloc, event, others),
        None => Ok(None),
    }
}

/// The same of an event that was read.
fn goes_on_behind(alloc: Global, event: Event<'_>, others: &[Value]) -> Result<Option<Cut<Version>>>
    requires { first_fault (Faults.event_fault is_version) (items_view others.now) ≡ None }
    ensures { IfOk result (IsGoingOn (Some (event_value event.entry)) (Form.events_of (items_view others.now))) }
{
    match event {
        Event::Introduced(text) => behind_text(alloc, text, others),
        Event::Fixed(_) | Event::LastAffected(_) | Event::Limit(_) => Ok(None),
    }
}

/// The cut behind the version of a text, if a fault that is introduced there goes on.
fn behind_text(alloc: Global, text: &str, others: &[Value]) -> Result<Option<Cut<Version>>>
    requires { first_fault (Faults.event_fault is_version) (items_view others.now) ≡ None }
    ensures { IfOk result (IsGoingOn (Some (introduced text.now)) (Form.events_of (items_view others.now))) }
{
    if is_last(text, others) {
        return Ok(None);
    }
    match VersionRef::parse(text) {
        Ok(version) => Ok(Some(Cut::After(version.to_version(alloc)?))),
        Err(_) => Ok(None),
    }
}

/// Returns `true` if the list goes on with `last_affected` of this text.
fn is_last(text: &str, others: &[Value]) -> bool
    requires { first_fault (Faults.event_fault is_version) (items_view others.now) ≡ None }
    ensures { result ≡ is_last text.now (Form.events_of (items_view others.now)) }
{
    match others {
        [next, ..] => is_last_event(text, next),
        [] => false,
    }
}

/// Returns `true` if the event is `last_affected` with this text.
fn is_last_event(text: &str, value: &Value) -> bool
    ensures { result ≡ option_map_or (λ event. is_last text.now (event ∷ [])) (Form.event_of (view value.now)) false }
{
    match event_of(value) {
        Some(Event::LastAffected(other)) => *other == *text,
        _ => false,
    }
}

/// The event of an object, if it has one of the members and no other.
fn event_of(value: &Value) -> Option<Event<'_>>
    ensures { option_map event_value result ≡ Form.event_of (view value.now) }
{
    let introduced = value.get("introduced");
    let fixed = value.get("fixed");
    let last_affected = value.get("last_affected");
    match (introduced, fixed, last_affected, value.get("limit")) {
        (Some(text), None, None, None) => Some(Event::Introduced(text.as_str()?)),
        (None, Some(text), None, None) => Some(Event::Fixed(text.as_str()?)),
        (None, None, Some(text), None) => Some(Event::LastAffected(text.as_str()?)),
        (None, None, None, Some(text)) => Some(Event::Limit(text.as_str()?)),
        _ => None,
    }
}

/// Returns whether one of the events has a fault.
pub(crate) fn have_fault(alloc: Global, events: &[Value]) -> Result<bool>
    ensures { IfOk result (λ have. have
        ≡ is_some (first_fault (Faults.event_fault is_version) (items_view events.now))) }
{
    match marks_of(alloc, events) {
        Ok(_) => Ok(false),
        Err(unread) => is_refused(unread),
    }
}

/// Returns whether an event has a fault.
pub(crate) fn has_fault(alloc: Global, value: &Value) -> Result<bool>
    ensures { IfOk result (λ has. has ≡ is_some (Faults.event_fault is_version (view value.now))) }
{
    let Some(event) = event_of(value) else {
        return Ok(true);
    };
    match mark_of(alloc, event) {
        Ok(_) => Ok(false),
        Err(unread) => is_refused(unread),
    }
}

/// The mark of an event.
fn mark_of(alloc: Global, event: Event<'_>) -> Result<Mark, Unread>
    ensures read { IfOk result (IsMark (event_value event.entry)) }
    ensures sound { OnOk result (place_fault (event_value event.entry) ≡ None) }
    ensures refused { IfErr result (IsUnreadAs (place_fault (event_value event.entry))) }
{
    match event {
        Event::Introduced(text) => start_of(alloc, text),
        Event::Fixed(text) => Ok(Mark::Ended(Cut::Before(version_of(alloc, text)?))),
        Event::LastAffected(text) => Ok(Mark::Ended(Cut::After(version_of(alloc, text)?))),
        Event::Limit(text) => limit_of(alloc, text),
    }
}

/// The mark where a fault is introduced: before all versions for `0`.
#[tactic(auto, using(crate::proofs::OsvMarks::introduced_read))]
fn start_of(alloc: Global, text: &str) -> Result<Mark, Unread>
    ensures read { IfOk result (IsMark (introduced text.now)) }
    ensures sound { OnOk result (place_fault (introduced text.now) ≡ None) }
    ensures refused { IfErr result (IsUnreadAs (place_fault (introduced text.now))) }
{
    match text {
        "0" => Ok(Mark::Introduced(Cut::Start)),
        _ => Ok(Mark::Introduced(Cut::Before(version_of(alloc, text)?))),
    }
}

/// The mark of a limit: after all versions for `*`.
#[tactic(auto, using(crate::proofs::OsvMarks::limit_read))]
fn limit_of(alloc: Global, text: &str) -> Result<Mark, Unread>
    ensures read { IfOk result (IsMark (limit text.now)) }
    ensures sound { OnOk result (place_fault (limit text.now) ≡ None) }
    ensures refused { IfErr result (IsUnreadAs (place_fault (limit text.now))) }
{
    match text {
        "*" => Ok(Mark::Limited(Cut::End)),
        _ => Ok(Mark::Limited(Cut::Before(version_of(alloc, text)?))),
    }
}

/// The version of a text.
fn version_of(alloc: Global, text: &str) -> Result<Version, Unread>
    ensures read { IfOk result (λ v. IsVersionText text.now v) }
    ensures sound { OnOk result (version_fault text.now ≡ None) }
    ensures refused { IfErr result (IsUnreadAs (version_fault text.now)) }
{
    match VersionRef::parse(text) {
        Ok(version) => Ok(version.to_version(alloc)?),
        Err(_) => Err(Unread::Refused(FaultKind::Event)),
    }
}
