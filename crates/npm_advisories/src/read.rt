//! How the advisories of a file are read.
ghost use Rattle.std.specs.Prelude.{◌≡◌, [], Bool, IfErr, IfOk, List, None, OnOk, Some, option_map, ℕ};
ghost use Rattle.std.specs.Option.{option_map_or};
ghost use Rattle.serde_json.specs.Find.{as_array, as_object};
ghost use Rattle.serde_json.specs.View.{items_view, view};
ghost use Rattle.npm_advisories.specs.Advisories.{npm_list, npm_members};
ghost use Rattle.npm_advisories.specs.Faults.{form_fault, list_fault, member_fault, npm_fault, npm_file_fault};
ghost use Rattle.npm_advisories.specs.Files.{advisories_of, file_fault};
ghost use Rattle.npm_advisories.specs.Ids.{id_in, id_value};
ghost use Rattle.npm_advisories.specs.OsvFaults.{osv_fault, osv_list_fault};
ghost use Rattle.npm_advisories.specs.OsvPackages.{told_name};
ghost use Rattle.npm_advisories.specs.OsvForm.{osv_advisories, osv_list};
ghost use Rattle.npm_advisories.specs.Index.{IsIndex, has_name};
ghost use Rattle.npm_advisories.specs.Private.Index.{Adds};
ghost use Rattle.npm_advisories.specs.Private.Reading.{IsErrorAt, IsErrorOf, at_place};
ghost use Rattle.npm_advisories.specs.Private.VersionTest.{is_version};

use crate::advisory::{formed_id, npm_advisory};
use crate::fault::Unread;
use crate::id::id_in;
use crate::index::Index;
use crate::member::text_at;
use crate::osv::add_osv;
use crate::osv::packages::told_name;
use crate::wanted::Names;
use crate::{AdvisoryId, AuditError, Fault, FaultKind, Result};
use serde_json::Value;
use std::alloc::Global;
use toml_datetime::Date;

/// Reads the advisories of a file.
pub(crate) fn read_file<'v>(
    alloc: Global,
    today: Date,
    names: &Names<'_>,
    file: &'v Value,
) -> Result<Index<'v>, AuditError<'v>>
    ensures read { IfOk result (IsIndex (has_name names.now) (advisories_of today (view file.now))) }
    ensures sound { OnOk result (file_fault today is_version (has_name names.now) (view file.now) ≡ None) }
    ensures refused { IfErr result (IsErrorOf (file_fault today is_version (has_name names.now) (view file.now))) }
{
    let mut index = Index::new(alloc);
    add_file(alloc, &mut index, today, names, file)?;
    Ok(index)
}

/// Adds the advisories of a file in either form.
fn add_file<'v>(
    alloc: Global,
    index: &mut Index<'v>,
    today: Date,
    names: &Names<'_>,
    file: &'v Value,
) -> Result<(), AuditError<'v>>
    ensures read { OnOk result (Adds (has_name names.now) index.old index.new (advisories_of today (view file.now))) }
    ensures sound { OnOk result (file_fault today is_version (has_name names.now) (view file.now) ≡ None) }
    ensures refused { IfErr result (IsErrorOf (file_fault today is_version (has_name names.now) (view file.now))) }
{
    if let Some(entries) = file.as_array() {
        return add_osv_list(alloc, index, today, names, entries.as_slice());
    }
    if text_at(file, "id").is_some() {
        return add_osv_at(alloc, index, today, names, file, 0);
    }
    add_npm(alloc, index, names, file)
}

/// Adds the advisories of a list of OSV objects.
fn add_osv_list<'v>(
    alloc: Global,
    index: &mut Index<'v>,
    today: Date,
    names: &Names<'_>,
    entries: &'v [Value],
) -> Result<(), AuditError<'v>>
    ensures read { OnOk result (Adds (has_name names.now) index.old index.new (osv_list today (items_view entries.now))) }
    ensures sound { OnOk result (osv_list_fault today is_version (has_name names.now) 0 (items_view entries.now) ≡ None) }
    ensures refused { IfErr result (IsErrorOf (osv_list_fault today is_version (has_name names.now) 0 (items_view entries.now))) }
{
    for place in 0..entries.len() {
        add_osv_at(alloc, index, today, names, &entries[place], place)?;
    }
    Ok(())
}

/// Adds the advisories of an OSV object at a place.
fn add_osv_at<'v>(
    alloc: Global,
    index: &mut Index<'v>,
    today: Date,
    names: &Names<'_>,
    entry: &'v Value,
    place: usize,
) -> Result<(), AuditError<'v>>
    ensures read { OnOk result (Adds (has_name names.now) index.old index.new (osv_advisories today (view entry.now))) }
    ensures sound { OnOk result (osv_fault today is_version (has_name names.now) (view entry.now) ≡ None) }
    ensures refused { IfErr result (IsErrorOf (at_place (told_name (has_name names.now) (view entry.now)) place (id_in (view entry.now)) (osv_fault today is_version (has_name names.now) (view entry.now)))) }
{
    match add_osv(alloc, index, today, names, entry) {
        Ok(()) => Ok(()),
        Err(unread) => Err(error_at(unread, told_name(names, entry), place, id_in(entry))),
    }
}

/// Adds the advisories of a file in npm's form.
fn add_npm<'v>(
    alloc: Global,
    index: &mut Index<'v>,
    names: &Names<'_>,
    file: &'v Value,
) -> Result<(), AuditError<'v>>
    ensures read { OnOk result (Adds (has_name names.now) index.old index.new (option_map_or npm_members (as_object (view file.now)) [])) }
    ensures sound { OnOk result (npm_file_fault (has_name names.now) (view file.now) ≡ None) }
    ensures refused { IfErr result (IsErrorOf (npm_file_fault (has_name names.now) (view file.now))) }
{
    let Some(members) = file.as_object() else {
        return Err(error_at(Unread::Refused(FaultKind::File), "", 0, None));
    };
    for (name, list) in members.iter() {
        read_member(alloc, index, names, name.as_str(), list)?;
    }
    Ok(())
}

/// Adds the advisories that stand under a name.
fn read_member<'v>(
    alloc: Global,
    index: &mut Index<'v>,
    names: &Names<'_>,
    name: &'v str,
    list: &'v Value,
) -> Result<(), AuditError<'v>>
    ensures read { OnOk result (Adds (has_name names.now) index.old index.new
        (option_map_or (npm_list name.now) (as_array (view list.now)) [])) }
    ensures sound { OnOk result (member_fault (has_name names.now) name.now (view list.now) ≡ None) }
    ensures refused { IfErr result (IsErrorOf (member_fault (has_name names.now) name.now (view list.now))) }
{
    let Some(entries) = list.as_array() else {
        return Err(error_at(Unread::Refused(FaultKind::List), name, 0, None));
    };
    if !names.has(name) {
        return pass_list(name, entries.as_slice());
    }
    read_list(alloc, index, name, entries.as_slice())
}

/// Adds the advisories of a list.
fn read_list<'v>(
    alloc: Global,
    index: &mut Index<'v>,
    name: &'v str,
    entries: &'v [Value],
) -> Result<(), AuditError<'v>>
    ensures read { OnOk result ((is_wanted : List ℕ → Bool) → Adds is_wanted index.old index.new (npm_list name.now (items_view entries.now))) }
    ensures sound { OnOk result (list_fault npm_fault name.now 0 (items_view entries.now) ≡ None) }
    ensures refused { IfErr result (IsErrorOf (list_fault npm_fault name.now 0 (items_view entries.now))) }
{
    for place in 0..entries.len() {
        match npm_advisory(alloc, name, &entries[place]) {
            Ok(advisory) => index.add(alloc, advisory)?,
            Err(unread) => return Err(error_at(unread, name, place, id_in(&entries[place]))),
        }
    }
    Ok(())
}

/// Passes over advisories about a package that is not installed. Refuses those in another form.
fn pass_list<'v>(name: &'v str, entries: &'v [Value]) -> Result<(), AuditError<'v>>
    ensures sound { OnOk result (list_fault form_fault name.now 0 (items_view entries.now) ≡ None) }
    ensures refused { IfErr result (IsErrorOf (list_fault form_fault name.now 0 (items_view entries.now))) }
{
    for place in 0..entries.len() {
        match formed_id(&entries[place]) {
            Ok(_) => {}
            Err(kind) => {
                let id = id_in(&entries[place]);
                return Err(error_at(Unread::Refused(kind), name, place, id));
            }
        }
    }
    Ok(())
}

/// The error of an advisory that is not read.
fn error_at<'v>(
    unread: Unread,
    name: &'v str,
    place: usize,
    id: Option<AdvisoryId<'v>>,
) -> AuditError<'v>
    ensures { IsErrorAt unread name.now place (option_map id_value id.entry) result }
{
    match unread {
        Unread::Refused(kind) => AuditError::Refused(Fault {
            kind,
            name,
            place,
            id,
        }),
        Unread::Memory => AuditError::Memory,
    }
}
