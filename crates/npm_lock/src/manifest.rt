//! The mismatches of a manifest, `package.json`, and the lock file.
ghost use Rattle.std.specs.Prelude.{◌≡◌, ◌↔◌, ◌++◌, List, IfOk, IsErrOf, OnOk, Some, is_some, map, option_and_then, option_map};
ghost use Rattle.std.specs.Option.{MatchOption, option_to_list};
ghost use Rattle.std.specs.Result.{result_err};
ghost use Rattle.serde_json.specs.Find.{as_object, get};
ghost use Rattle.serde_json.specs.View.{members_view, view};
ghost use Rattle.npm_lock.specs.Mismatches as Mismatches;
ghost use Rattle.npm_lock.specs.Mismatches.{AreGroupMismatches, AreMismatches, AreMismatchesOf, MismatchValue};
ghost use Rattle.npm_lock.specs.Mismatches.{mismatch_value};
ghost use Rattle.npm_lock.specs.Private.GroupSpecs.{HasNone, IsFirstOf, left_of};
ghost use Rattle.npm_packages.specs.declared.fault.Fault.{Fault};

use crate::group::{Group, GroupSpecs};
use crate::mismatch::Mismatch;
use crate::{CheckError, Fault, Result, check_package};
use npm_texts::copied;
use serde_json::{Map, Value};
use std::alloc::Global;

/// A manifest, and the package of the lock file in the same folder.
#[derive(Clone, Copy)]
struct Sides<'v> {
    alloc: Global,
    folder: &'v str,
    manifest: &'v Value,
    entry: &'v Value,
}

/// Returns the names whose spec in a group of the manifest is not the one in the lock file, for the package in this folder:
/// `""` is the root.
///
/// # Errors
///
/// - `Refused`: the manifest is no object, or a member that counts has the wrong type.
/// - `Memory`: an allocation failed.
pub fn mismatches_of(
    alloc: Global,
    lock: &Value,
    folder: &str,
    manifest: &Value,
) -> Result<Vec<Mismatch>, CheckError>
    ensures found { IfOk result (λ list. AreMismatches (view lock.now) folder.now (view manifest.now) list.items) }
    ensures refused { (fault : Fault) → IsErrOf result (CheckError.Refused fault)
        ↔ (Mismatches.manifest_fault (view manifest.now) ≡ Some fault) }
{
    check_manifest(manifest).map_err(CheckError::Refused)?;
    let none = Value::Null;
    let packages = lock.get("packages");
    let entry = packages
        .and_then(|packages| packages.get(folder))
        .unwrap_or(&none);
    let sides = Sides {
        alloc,
        folder,
        manifest,
        entry,
    };
    all_mismatches(sides).map_err(|_| CheckError::Memory)
}

/// Fails if a manifest has a fault: that which [`mismatches_of`] refuses. Does not allocate.
pub fn check_manifest(manifest: &Value) -> Result<(), Fault>
    ensures { result_err result ≡ Mismatches.manifest_fault (view manifest.now) }
{
    manifest.as_object().ok_or(Fault::Manifest)?;
    check_package(manifest)
}

/// The mismatches of all groups.
fn all_mismatches(sides: Sides<'_>) -> Result<Vec<Mismatch>>
    ensures { IfOk result (λ list. AreMismatchesOf sides.entry.folder.now (view sides.entry.manifest.now)
        (view sides.entry.entry.now) (map mismatch_value list.items)) }
{
    let mut list = Vec::new(sides.alloc);
    add_group(&mut list, sides, Group::Dependencies)?;
    add_group(&mut list, sides, Group::DevDependencies)?;
    add_group(&mut list, sides, Group::OptionalDependencies)?;
    add_group(&mut list, sides, Group::PeerDependencies)?;
    Ok(list)
}

/// Adds the mismatches of one group. Both groups are in the order of their names, and are walked along once.
fn add_group(list: &mut Vec<Mismatch>, sides: Sides<'_>, group: Group) -> Result<()>
    ensures { OnOk result ((found : List MismatchValue)
        × AreGroupMismatches sides.entry.folder.now (view sides.entry.manifest.now) (view sides.entry.entry.now) group found
        × (map mismatch_value list.new.items ≡ map mismatch_value list.old.items ++ found)) }
{
    let none = Map::new(sides.alloc);
    let mut specs = GroupSpecs::of_group(group_in(sides.manifest, group).unwrap_or(&none));
    let mut locked = GroupSpecs::of_group(group_in(sides.entry, group).unwrap_or(&none));
    'names: while let Some(name) = first_name(&specs, &locked) {
        let spec = specs.take(name).and_then(Value::as_str);
        let locked = locked.take(name).and_then(Value::as_str);
        add_found(list, mismatch_of(sides, group, name, spec, locked)?)?;
    }
    Ok(())
}

/// Adds a mismatch, if there is one.
fn add_found(list: &mut Vec<Mismatch>, found: Option<Mismatch>) -> Result<()>
    ensures { OnOk result (map mismatch_value list.new.items
        ≡ map mismatch_value list.old.items ++ option_to_list (option_map mismatch_value found)) }
{
    list.extend(found)
}

/// The members of a group.
fn group_in(member: &Value, group: Group) -> Option<&Map<String, Value>>
    ensures { option_map (λ members. members_view members.now.entries) result
        ≡ option_and_then as_object (get (Mismatches.group_text group) (view member.now)) }
{
    member.get(group.as_str())?.as_object()
}

/// The first name that is left in either.
fn first_name<'v>(specs: &GroupSpecs<'v>, locked: &GroupSpecs<'v>) -> Option<&'v str>
    ensures { MatchOption result (HasNone (left_of specs.now) (left_of locked.now))
        (λ name. IsFirstOf name.now (left_of specs.now) (left_of locked.now)) }
{
    let Some(name) = specs.name() else {
        return locked.name();
    };
    match locked.name() {
        Some(other) if other < name => Some(other),
        _ => Some(name),
    }
}

/// The mismatch of a name with these specs, if there is one.
fn mismatch_of(
    sides: Sides<'_>,
    group: Group,
    name: &str,
    spec: Option<&str>,
    locked: Option<&str>,
) -> Result<Option<Mismatch>>
    requires spec { option_map (λ text. text.now) spec
        ≡ Mismatches.spec_of (view sides.manifest.now) group name.now }
    requires locked { option_map (λ text. text.now) locked
        ≡ Mismatches.spec_of (view sides.entry.now) group name.now }
    ensures { IfOk result (λ mismatch. option_map mismatch_value mismatch
        ≡ Mismatches.mismatch_of sides.entry.folder.now (view sides.entry.manifest.now)
        (view sides.entry.entry.now) group name.now) }
{
    if is_same(spec, locked) || !is_compared(sides, group, name) {
        return Ok(None);
    }
    Ok(Some(Mismatch {
        from: String::from_str(sides.alloc, sides.folder)?,
        group,
        name: String::from_str(sides.alloc, name)?,
        spec: copied(sides.alloc, spec)?,
        locked: copied(sides.alloc, locked)?,
    }))
}

/// Returns `true` if both are the same spec, or none.
fn is_same(spec: Option<&str>, locked: Option<&str>) -> bool
    ensures { result ≡ Mismatches.is_same (option_map (λ text. text.now) spec.entry)
        (option_map (λ text. text.now) locked.entry) }
{
    match (spec, locked) {
        (Some(spec), Some(locked)) => spec == locked,
        (None, None) => true,
        _ => false,
    }
}

/// Returns `false` for a name of `dependencies` that is in `optionalDependencies` too, which is compared there.
fn is_compared(sides: Sides<'_>, group: Group, name: &str) -> bool
    ensures { result ≡ Mismatches.is_compared (view sides.entry.manifest.now) (view sides.entry.entry.now) group name.now }
{
    match group {
        Group::Dependencies => !(is_optional(sides.manifest, name)
            || is_optional(sides.entry, name)),
        Group::DevDependencies | Group::OptionalDependencies | Group::PeerDependencies => true,
    }
}

/// Returns `true` if the name has a spec in `optionalDependencies`.
fn is_optional(member: &Value, name: &str) -> bool
    ensures { result ≡ is_some (Mismatches.spec_of (view member.now) Group.OptionalDependencies name.now) }
{
    let group = member.get(Group::OptionalDependencies.as_str());
    group
        .and_then(|group| group.get(name))
        .is_some_and(Value::is_string)
}
