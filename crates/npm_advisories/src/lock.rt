//! The audit of a lock file.
ghost use Rattle.std.specs.Prelude.{◌≡◌, ◌≢◌, ◌⊎◌, [], ℕ, List, None, IfErr, IfOk, OnOk, map, option_map};
ghost use Rattle.std.specs.Option.{MatchOption};
ghost use Rattle.serde_json.specs.Data.{Data};
ghost use Rattle.serde_json.specs.View.{members_view, view};
ghost use Rattle.npm_packages.specs.Aliases.{name_at};
ghost use Rattle.npm_packages.specs.Dependents.{texts_at};
ghost use Rattle.npm_packages.specs.Faults.{lock_fault};
ghost use Rattle.npm_advisories.specs.Audit.{InstalledValue, IsAudit, found_value, installed_value};
ghost use Rattle.npm_advisories.specs.Files.{advisories_of};
ghost use Rattle.npm_advisories.specs.LockFaults.{IsAuditErrorBeside, IsFileFaultBeside, IsLockError};
ghost use Rattle.toml_datetime.specs.declared.datetime.Date.{Date};
ghost use Rattle.npm_advisories.specs.LockFile.{AreInstalled, AreInstalledOf, IsInstalledAs, IsName, IsOther, IsUnsaidName};

use crate::found::{Found, Installed, audit};
use crate::member::text_at;
use crate::{AuditError, Fault, Result, Severity};
use npm_packages::{Aliases, CheckError, Dependents, SoundLock, edges_in, end_of, is_link};
use serde_json::{Map, Value};
use std::alloc::Global;
use toml_datetime::Date;

/// Why there is no audit of a lock file.
#[derive(Debug, Drop, PartialEq, Eq)]
pub enum LockError<'f> {
    /// The value is no lock file that is read.
    Lock(npm_packages::Fault),
    /// The value is no advisories that are read.
    Advisories(Fault<'f>),
    /// An allocation failed.
    Memory,
}

/// Returns the installed packages of a lock file that an advisory hits, in the order of their folders' bytes.
///
/// Each member of `packages` counts that is neither the root nor a link. The name is `name`, which an alias has as npm writes it.
/// Where that is missing it is the name by which an alias asks for the package, or else the last part of the folder with its scope: `w`
/// for `packages/w`. [`audit`] says which are hit.
///
/// # Errors
///
/// - `Lock`: the value is no lock file of version 2 or 3, or a member that counts has the wrong type.
/// - `Advisories`: the value is no advisories in npm's form or in OSV's, with the first fault and its place.
/// - `Memory`: an allocation failed.
pub fn audit_lock<'f, 'v>(
    alloc: Global,
    file: &'f Value,
    today: Date,
    level: Severity,
    lock: &'v Value,
) -> Result<Vec<Found<'f, 'v>>, LockError<'f>>
    ensures found { IfOk result (λ found. (installed : List InstalledValue)
        × AreInstalledOf (view lock.now) installed
        × IsAudit level (advisories_of today (view file.now)) installed (map found_value found.items)) }
    ensures lock_sound { OnOk result (lock_fault (view lock.now) ≡ None) }
    ensures file_sound { OnOk result (IsFileFaultBeside today (view lock.now) (view file.now) None) }
    ensures refused { IfErr result (IsLockError today (view lock.now) (view file.now)) }
{
    let lock = match SoundLock::of(alloc, lock) {
        Ok(lock) => lock,
        Err(CheckError::Refused(fault)) => return Err(LockError::Lock(fault)),
        Err(CheckError::Memory) => return Err(LockError::Memory),
    };
    match audit_sound_lock(file, today, level, &lock) {
        Ok(found) => Ok(found),
        Err(AuditError::Refused(fault)) => Err(LockError::Advisories(fault)),
        Err(AuditError::Memory) => Err(LockError::Memory),
    }
}

/// Returns the installed packages of a lock file without a fault that an advisory hits, as [`audit_lock`] does.
///
/// # Errors
///
/// - `Refused`: the value is no advisories in npm's form or in OSV's, with the first fault and its place.
/// - `Memory`: an allocation failed.
pub fn audit_sound_lock<'f, 'v>(
    file: &'f Value,
    today: Date,
    level: Severity,
    lock: &SoundLock<'v>,
) -> Result<Vec<Found<'f, 'v>>, AuditError<'f>>
    ensures found { IfOk result (λ found. (installed : List InstalledValue)
        × AreInstalledOf (view lock.now) installed
        × IsAudit level (advisories_of today (view file.now)) installed (map found_value found.items)) }
    ensures sound { OnOk result (IsFileFaultBeside today (view lock.now) (view file.now) None) }
    ensures refused { IfErr result (IsAuditErrorBeside today (view lock.now) (view file.now)) }
{
    let Ok(installed) = installed_among(lock) else {
        return Err(AuditError::Memory);
    };
    match audit(lock.packages().alloc, file, today, level, &installed) {
        Ok(found) => Ok(found),
        Err(AuditError::Refused(fault)) => Err(AuditError::Refused(fault)),
        Err(AuditError::Memory) => Err(AuditError::Memory),
    }
}

/// The installed packages of a lock file.
pub(crate) fn installed_in<'f, 'v>(
    alloc: Global,
    lock: &'v Value,
) -> Result<Vec<Installed<'v>>, LockError<'f>>
    ensures found { IfOk result (λ installed. AreInstalledOf (view lock.now) (map installed_value installed.items)) }
    ensures refused { IfErr result (λ error. (today : Date) → (file : Data) → IsLockError today (view lock.now) file error) }
{
    let lock = match SoundLock::of(alloc, lock) {
        Ok(lock) => lock,
        Err(CheckError::Refused(fault)) => return Err(LockError::Lock(fault)),
        Err(CheckError::Memory) => return Err(LockError::Memory),
    };
    match installed_among(&lock) {
        Ok(installed) => Ok(installed),
        Err(_) => Err(LockError::Memory),
    }
}

/// The installed packages of a lock file without a fault.
fn installed_among<'v>(lock: &SoundLock<'v>) -> Result<Vec<Installed<'v>>>
    ensures { IfOk result (λ installed. AreInstalledOf (view lock.now) (map installed_value installed.items)) }
{
    let packages = lock.packages();
    let edges = edges_in(lock)?;
    let dependents = Dependents::of_edges(packages.alloc, &edges)?;
    let aliases = Aliases::of_edges(packages.alloc, &edges)?;
    installed_of(packages.alloc, packages.members, &dependents, &aliases)
}

/// The installed packages among the members of `packages`.
fn installed_of<'v>(
    alloc: Global,
    members: &'v Map<String, Value>,
    dependents: &Dependents<'v>,
    aliases: &Aliases<'v>,
) -> Result<Vec<Installed<'v>>>
    ensures { IfOk result (λ installed. AreInstalled (texts_at dependents.now) (name_at aliases.now) (members_view members.now.entries)
        (map installed_value installed.items)) }
{
    let mut all = Vec::new(alloc);
    for (folder, entry) in members.iter() {
        if let Some(installed) = installed_as(alloc, folder.as_str(), entry, dependents, aliases)? {
            all.push(installed)?;
        }
    }
    Ok(all)
}

/// The package of a member, if it is one that counts.
fn installed_as<'v>(
    alloc: Global,
    folder: &'v str,
    entry: &'v Value,
    dependents: &Dependents<'v>,
    aliases: &Aliases<'v>,
) -> Result<Option<Installed<'v>>>
    ensures { IfOk result (λ one. MatchOption one (IsOther folder.now (view entry.now))
        (λ one. IsInstalledAs (texts_at dependents.now) (name_at aliases.now) folder.now (view entry.now) (installed_value one))) }
{
    if folder.is_empty() || is_link(entry) {
        return Ok(None);
    }
    let asked = asked_at(alloc, dependents, folder)?;
    Ok(Some(Installed {
        folder,
        name: name_in(folder, aliases, entry),
        version: text_at(entry, "version"),
        asked,
    }))
}

/// The range texts of the dependents of the package in a folder.
fn asked_at<'v>(alloc: Global, dependents: &Dependents<'v>, folder: &'v str) -> Result<Vec<&'v str>>
    ensures { IfOk result (λ asked. map (λ text. text.now) asked.items ≡ texts_at dependents.now folder.now) }
{
    match dependents.texts(folder) {
        Some(texts) => Vec::from_slice(alloc, texts),
        None => Ok(Vec::new(alloc)),
    }
}

/// The name of the package in a folder.
fn name_in<'v>(folder: &'v str, aliases: &Aliases<'v>, entry: &'v Value) -> &'v str
    ensures { IsName folder.now (name_at aliases.now folder.now) (view entry.now) result.now }
{
    name_of(folder, aliases.name(folder), entry)
}

/// The name of the package in a folder that an alias asks for by this name, if one does.
fn name_of<'v>(folder: &'v str, alias: Option<&'v str>, entry: &'v Value) -> &'v str
    ensures { IsName folder.now (option_map (λ name. name.now) alias.entry) (view entry.now) result.now }
{
    match text_at(entry, "name") {
        Some(said) => said_or_unsaid(folder, alias, said),
        None => unsaid_name(folder, alias),
    }
}

/// The name that is said, or another one if it is empty.
fn said_or_unsaid<'v>(folder: &'v str, alias: Option<&'v str>, said: &'v str) -> &'v str
    ensures { ((result.now ≡ said.now) × (said.now ≢ []))
        ⊎ ((said.now ≡ []) × IsUnsaidName folder.now (option_map (λ name. name.now) alias.entry) result.now) }
{
    if said.is_empty() {
        unsaid_name(folder, alias)
    } else {
        said
    }
}

/// The name of a package that says none.
fn unsaid_name<'v>(folder: &'v str, alias: Option<&'v str>) -> &'v str
    ensures { IsUnsaidName folder.now (option_map (λ name. name.now) alias.entry) result.now }
{
    match alias {
        Some(name) => name,
        None => end_of(folder),
    }
}
