//! Lock files of version 1, which npm 5 and 6 wrote: the `packages` that they become.
ghost use Rattle.std.specs.Prelude.{◌≡◌, IfOk, OnOk, codes, option_map, string_bytes};
ghost use Rattle.serde_json.specs.Data.{object, string};
ghost use Rattle.serde_json.specs.View.{members_view, view};
ghost use Rattle.npm_lock.specs.VersionOne as VersionOne;
ghost use Rattle.npm_lock.specs.VersionOne.{packages_below, packages_named, with_packages, with_some};

use crate::identity::{name_in, version_in};
use crate::{Result, place_text};
use serde_json::{Map, Value, put};
use std::alloc::Global;

/// Returns `true` for a lock file of version 1, and for one that says no version and has `dependencies`.
pub fn is_version_one(lock: &Value) -> bool
    ensures { result ≡ VersionOne.is_version_one (view lock.now) }
{
    if lock.get("packages").is_some() {
        return false;
    }
    match lock.get("lockfileVersion") {
        Some(version) => version.as_f64().is_some_and(is_one),
        None => lock.get("dependencies").is_some(),
    }
}

fn is_one(number: f64) -> bool
    ensures { result ≡ VersionOne.is_one number }
{
    number == f64::from(1_u8)
}

/// Returns the members of the `packages` that a file of version 1 becomes. The root is the manifest.
pub(crate) fn packages_of(
    alloc: Global,
    lock: &Value,
    manifest: Option<&Value>,
) -> Result<Map<String, Value>>
    ensures { IfOk result (λ packages. object (members_view packages.entries)
        ≡ VersionOne.packages_of (view lock.now) (option_map (λ manifest. view manifest.now) manifest.entry)) }
{
    let root = match manifest {
        Some(manifest) => manifest.clone()?,
        None => Value::Object(Map::new(alloc)),
    };
    let mut packages = Map::new(alloc);
    put(&mut packages, alloc, "", root)?;
    add_below(lock, "", &mut packages, alloc)?;
    Ok(packages)
}

/// Adds the packages below one in this folder.
#[cycle(below)]
fn add_below(
    entry: &Value,
    folder: &str,
    packages: &mut Map<String, Value>,
    alloc: Global,
) -> Result<()>
    ensures { OnOk result (members_view packages.new.entries
        ≡ with_packages (packages_below folder.now (view entry.now)) (members_view packages.old.entries)) }
{
    if let Value::Object(members) = entry {
        for (key, value) in members.iter() {
            if key.as_str() == "dependencies" {
                add_named(value, folder, packages, alloc)?;
            }
        }
    }
    Ok(())
}

/// Adds the packages that `dependencies` of a package in this folder names, and those inside each.
#[cycle(below)]
fn add_named(
    dependencies: &Value,
    folder: &str,
    packages: &mut Map<String, Value>,
    alloc: Global,
) -> Result<()>
    ensures { OnOk result (members_view packages.new.entries
        ≡ with_packages (packages_named folder.now (view dependencies.now)) (members_view packages.old.entries)) }
{
    if let Value::Object(entries) = dependencies {
        for (name, entry) in entries.iter() {
            let text = place_text(alloc, folder, name.as_str())?;
            let place = text.as_str();
            let member = member_of(alloc, place, entry)?;
            put(packages, alloc, place, member)?;
            add_below(entry, place, packages, alloc)?;
        }
    }
    Ok(())
}

/// Returns the package in a folder as a member of `packages`.
fn member_of(alloc: Global, folder: &str, entry: &Value) -> Result<Value>
    ensures { IfOk result (λ member. view member ≡ VersionOne.member_of folder.now (view entry.now)) }
{
    let mut members = Map::new(alloc);
    put_copy(&mut members, alloc, "dependencies", required_of(entry))?;
    put_copy(&mut members, alloc, "dev", entry.get("dev"))?;
    put_name(&mut members, alloc, name_in(alloc, folder, entry)?)?;
    put_copy(&mut members, alloc, "optional", entry.get("optional"))?;
    put_text(&mut members, alloc, "version", version_in(folder, entry))?;
    Ok(Value::Object(members))
}

/// Adds a copy of a value, if there is one.
fn put_copy(
    members: &mut Map<String, Value>,
    alloc: Global,
    key: &str,
    value: Option<&Value>,
) -> Result<()>
    ensures { OnOk result (members_view members.new.entries
        ≡ with_some key.now (option_map (λ value. view value.now) value.entry) (members_view members.old.entries)) }
{
    match value {
        Some(value) => put(members, alloc, key, value.clone()?),
        None => Ok(()),
    }
}

/// Adds a text, if there is one.
fn put_text(
    members: &mut Map<String, Value>,
    alloc: Global,
    key: &str,
    text: Option<&str>,
) -> Result<()>
    ensures { OnOk result (members_view members.new.entries
        ≡ with_some key.now (option_map (λ text. string text.now) text.entry) (members_view members.old.entries)) }
{
    match text {
        Some(text) => put(members, alloc, key, Value::try_from_str(alloc, text)?),
        None => Ok(()),
    }
}

/// Adds the name of a package, if it has one.
fn put_name(members: &mut Map<String, Value>, alloc: Global, name: Option<String>) -> Result<()>
    ensures { OnOk result (members_view members.new.entries ≡ with_some (codes "name")
        (option_map string (option_map string_bytes name)) (members_view members.old.entries)) }
{
    match name {
        Some(name) => put(members, alloc, "name", Value::String(name)),
        None => Ok(()),
    }
}

/// Returns what a package requires, unless that is `true` or `false`.
pub fn required_of(entry: &Value) -> Option<&Value>
    ensures { option_map (λ required. view required.now) result ≡ VersionOne.required_of (view entry.now) }
{
    let required = entry.get("requires")?;
    if required.is_boolean() {
        None
    } else {
        Some(required)
    }
}
