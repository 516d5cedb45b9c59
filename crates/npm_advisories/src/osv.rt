//! Advisories in OSV's form.
//!
//! See docs/DECISIONS.md, "An OSV range is read by its order alone".
ghost use Rattle.std.specs.Prelude.{◌≡◌, [], ◌∷◌, IfErr, IfOk, None, OnOk, Some, option_map};
ghost use Rattle.std.specs.Option.{option_map_or};
ghost use Rattle.std.specs.Result.{result_err};
ghost use Rattle.serde_json.specs.View.{items_view, view};
ghost use Rattle.npm_advisories.specs.Advisories.{about_value, severity_of_option};
ghost use Rattle.npm_advisories.specs.Faults.{first_fault};
ghost use Rattle.npm_advisories.specs.OsvFaults as Faults;
ghost use Rattle.npm_advisories.specs.OsvForm as Form;
ghost use Rattle.npm_advisories.specs.Index.{has_name};
ghost use Rattle.npm_advisories.specs.Private.Index.{Adds};
ghost use Rattle.npm_advisories.specs.Private.Reading.{IsUnreadAs};
ghost use Rattle.npm_advisories.specs.Private.VersionTest.{is_version};

pub(crate) mod affected;
mod between;
pub(crate) mod events;
mod marks;
pub(crate) mod packages;
mod timestamp;

use crate::Result;
use crate::advisory::{About, Advisory, severity_of, text_of};
use crate::fault::{FaultKind, Unread};
use crate::index::Index;
use crate::known::Aliases;
use crate::member::{listed_at, text_at};
use crate::osv::affected::range_of;
use crate::osv::packages::{affected_of, concerns, npm_name};
use crate::osv::timestamp::{day_of, is_before};
use crate::severity::Severity;
use crate::wanted::Names;
use serde_json::Value;
use std::alloc::Global;
use toml_datetime::Date;

/// Adds the advisories of an OSV object.
pub(crate) fn add_osv<'v>(
    alloc: Global,
    index: &mut Index<'v>,
    today: Date,
    names: &Names<'_>,
    entry: &'v Value,
) -> Result<(), Unread>
    ensures read { OnOk result (Adds (has_name names.now) index.old index.new (Form.osv_advisories today (view entry.now))) }
    ensures sound { OnOk result (Faults.osv_fault today is_version (has_name names.now) (view entry.now) ≡ None) }
    ensures refused { IfErr result (IsUnreadAs (Faults.osv_fault today is_version (has_name names.now) (view entry.now))) }
{
    entry
        .as_object()
        .ok_or(Unread::Refused(FaultKind::Advisory))?;
    if !concerns(names, entry) {
        return Ok(());
    }
    let about = osv_about(entry)?;
    if is_withdrawn(entry, today)? {
        return Ok(());
    }
    let affected = affected_of(entry)?;
    add_affected(alloc, index, names, about, affected)
}

/// The members that say what the advisory is.
fn osv_about(entry: &Value) -> Result<About<'_>, FaultKind>
    ensures about { IfOk result (λ about. about_value about ≡ Form.osv_about (view entry.now)) }
    ensures fault { result_err result ≡ Faults.osv_id_fault (view entry.now) }
{
    let id = match entry.get("id") {
        Some(id) if id.is_string() => id,
        _ => return Err(FaultKind::OsvId),
    };
    Ok(About {
        id,
        severity: severity_in(entry),
        title: text_at(entry, "summary"),
        url: url_in(entry),
        aliases: Aliases::Listed(listed_at(entry, "aliases")),
    })
}

/// The severity that the database gives it.
fn severity_in(entry: &Value) -> Severity
    ensures { result ≡ severity_of_option (Form.osv_severity (view entry.now)) }
{
    match entry.get("database_specific") {
        Some(specific) => severity_of(text_at(specific, "severity")),
        None => Severity::Unknown,
    }
}

/// The address of its first reference.
fn url_in(entry: &Value) -> Option<&str>
    ensures { option_map (λ url. url.now) result ≡ Form.osv_url (view entry.now) }
{
    text_at(entry.get("references")?.get(0)?, "url")
}

/// Returns `true` if the advisory was taken back, today or earlier.
fn is_withdrawn(entry: &Value, today: Date) -> Result<bool, FaultKind>
    ensures withdrawn { IfOk result (λ is. is ≡ Form.is_withdrawn today (view entry.now)) }
    ensures fault { result_err result ≡ Faults.withdrawn_fault (view entry.now) }
{
    let Some(text) = text_of(entry, "withdrawn", FaultKind::Withdrawn)? else {
        return Ok(false);
    };
    match day_of(text) {
        Some(day) => Ok(!is_before(today, day)),
        None => Err(FaultKind::Withdrawn),
    }
}

/// Adds an advisory for each element of `affected` about a package of npm.
fn add_affected<'v>(
    alloc: Global,
    index: &mut Index<'v>,
    names: &Names<'_>,
    about: About<'v>,
    affected: &'v [Value],
) -> Result<(), Unread>
    ensures read { OnOk result (Adds (has_name names.now) index.old index.new
        (Form.affected_list (about_value about.entry) (items_view affected.now))) }
    ensures sound { OnOk result (first_fault (Faults.affected_fault is_version (has_name names.now)) (items_view affected.now) ≡ None) }
    ensures refused { IfErr result
        (IsUnreadAs (first_fault (Faults.affected_fault is_version (has_name names.now)) (items_view affected.now))) }
{
    for one in affected {
        add_one(alloc, index, names, about, one)?;
    }
    Ok(())
}

/// Adds the advisory of an element of `affected`, if it is about a package of npm.
fn add_one<'v>(
    alloc: Global,
    index: &mut Index<'v>,
    names: &Names<'_>,
    about: About<'v>,
    one: &'v Value,
) -> Result<(), Unread>
    ensures read { OnOk result (Adds (has_name names.now) index.old index.new (option_map_or
        (λ name. record { name = name; about = about_value about.entry; affected = Form.osv_affected (view one.now) } ∷ [])
        (Form.npm_name (view one.now)) [])) }
    ensures sound { OnOk result (Faults.affected_fault is_version (has_name names.now) (view one.now) ≡ None) }
    ensures refused { IfErr result (IsUnreadAs (Faults.affected_fault is_version (has_name names.now) (view one.now))) }
{
    let Some(name) = npm_name(one)? else {
        return Ok(());
    };
    if !names.has(name) {
        return Ok(());
    }
    let range = range_of(alloc, one)?;
    index.add(alloc, Advisory { name, about, range })?;
    Ok(())
}
