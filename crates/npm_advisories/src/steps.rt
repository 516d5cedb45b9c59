//! Where in a file of advisories a fault is.
ghost use Rattle.std.specs.Prelude.{IfErr};
ghost use Rattle.serde_json.specs.View.{view};
ghost use Rattle.npm_advisories.specs.LockFaults.{IsLockError};
ghost use Rattle.toml_datetime.specs.declared.datetime.Date.{Date};

mod osv;

use crate::lock::{LockError, installed_in};
use crate::member::text_at;
use crate::names::names_of;
use crate::steps::osv::push_osv;
use crate::wanted::Names;
use crate::{Fault, FaultKind, Result};
use json_places::Step;
use serde_json::Value;
use std::alloc::Global;

/// Returns the steps that lead to a fault of a file of advisories, from the value of the file inwards: the fault that [`audit_lock`]
/// returned beside this lock file. They lead to the member or to the item that has to be mended: `"lodash"`, item 1 and `"id"`. If a
/// member is missing, they lead to the object that has to have it.
///
/// [`audit_lock`]: crate::audit_lock
///
/// # Errors
///
/// - `Lock`: the value is no lock file of version 2 or 3, or a member that counts has the wrong type.
/// - `Memory`: an allocation failed.
///
/// # Memory
///
/// Allocates the steps, and for the time of the call the installed packages of the lock file and what an element of `affected` is read as.
pub fn fault_steps<'f>(
    alloc: Global,
    file: &'f Value,
    lock: &Value,
    fault: Fault<'f>,
) -> Result<Vec<Step<'f>>, LockError<'f>>
    ensures { IfErr result (λ error. (today : Date) → IsLockError today (view lock.now) (view file.now) error) }
{
    let installed = match installed_in(alloc, lock) {
        Ok(installed) => installed,
        Err(error) => return Err(error),
    };
    let Ok(names) = names_of(alloc, &installed) else {
        return Err(LockError::Memory);
    };
    match steps_of(alloc, &names, file, fault) {
        Ok(steps) => Ok(steps),
        Err(_) => Err(LockError::Memory),
    }
}

/// The steps that lead to a fault, where packages with these names are installed.
fn steps_of<'f>(
    alloc: Global,
    names: &Names<'_>,
    file: &'f Value,
    fault: Fault<'f>,
) -> Result<Vec<Step<'f>>> {
    let mut steps = Vec::new(alloc);
    if file.is_array() {
        steps.push(Step::Item(fault.place))?;
        if let Some(entry) = file.get(fault.place) {
            push_osv(alloc, &mut steps, names, entry, fault.kind)?;
        }
    } else if text_at(file, "id").is_some() {
        push_osv(alloc, &mut steps, names, file, fault.kind)?;
    } else {
        push_npm(&mut steps, file, fault)?;
    }
    Ok(steps)
}

/// Adds the steps that lead to a fault in npm's form.
fn push_npm<'f>(steps: &mut Vec<Step<'f>>, file: &'f Value, fault: Fault<'f>) -> Result<()> {
    if fault.kind == FaultKind::File {
        return Ok(());
    }
    steps.push(Step::Member(fault.name))?;
    if fault.kind == FaultKind::List {
        return Ok(());
    }
    steps.push(Step::Item(fault.place))?;
    match advisory_at(file, fault) {
        Some(entry) => push_in_npm(steps, entry, fault.kind),
        None => Ok(()),
    }
}

/// The advisory that a fault is about, in npm's form.
fn advisory_at<'f>(file: &'f Value, fault: Fault<'_>) -> Option<&'f Value> {
    file.get(fault.name)?.get(fault.place)
}

/// Adds the step to the member of an advisory that a fault of this kind is about.
fn push_in_npm<'f>(steps: &mut Vec<Step<'f>>, entry: &'f Value, kind: FaultKind) -> Result<()> {
    match npm_member(kind) {
        Some(name) => push_member(steps, entry, name),
        None => Ok(()),
    }
}

/// The member of an advisory in npm's form that a fault of this kind is about.
fn npm_member(kind: FaultKind) -> Option<&'static str> {
    match kind {
        FaultKind::OsvUnderName => Some("affected"),
        FaultKind::Id => Some("id"),
        FaultKind::Severity => Some("severity"),
        FaultKind::Title => Some("title"),
        FaultKind::Url => Some("url"),
        FaultKind::RangeText | FaultKind::Range => Some("vulnerable_versions"),
        _ => None,
    }
}

/// Adds the step to the member of this name, if it is there.
pub(crate) fn push_member<'f>(
    steps: &mut Vec<Step<'f>>,
    entry: &'f Value,
    name: &'static str,
) -> Result<()> {
    if entry.get(name).is_some() {
        steps.push(Step::Member(name))?;
    }
    Ok(())
}
