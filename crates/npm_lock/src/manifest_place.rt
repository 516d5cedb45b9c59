//! A manifest in the place of a package of the lock file.
ghost use Rattle.std.specs.Prelude.{◌≡◌, [], IfOk, OnOk, if◌then◌else◌, option_map, true};
ghost use Rattle.serde_json.specs.Data.{boolean};
ghost use Rattle.serde_json.specs.View.{members_view, view};
ghost use Rattle.npm_texts.specs.Truth.{has_true};
ghost use Rattle.npm_lock.specs.ManifestPlace as Places;
ghost use Rattle.npm_lock.specs.ManifestPlace.{as_package, changed_at, with_manifest, without_overrides};
ghost use Rattle.npm_lock.specs.Mismatches.{entry_of, member_at};

use crate::Result;
use npm_texts::has_true;
use serde_json::{Map, Value, put};
use std::alloc::Global;

/// Puts a manifest in the place of the package in this folder, as npm does for the root and each workspace. `check` then
/// reads the dependencies of the manifest. The marks `dev`, `optional` and `peer` of the package stay, but not those of the root.
///
/// # Errors
///
/// An allocation failed. The lock file may then hold the manifest or not.
pub fn put_manifest(alloc: Global, lock: &mut Value, folder: &str, manifest: Value) -> Result<()>
    ensures { OnOk result (view lock.new ≡ with_manifest folder.now (view manifest) (view lock.old)) }
{
    let made = package_at(alloc, lock, folder, manifest)?;
    match lock.as_object_mut() {
        Some(members) => put_inside(alloc, members, "packages", folder, made),
        None => Ok(()),
    }
}

/// Takes the `overrides` of a lock file's root away. npm reads those of the root's manifest, `package.json`, and none in a lock file.
///
/// # Errors
///
/// An allocation failed. The lock file is then as it was.
///
/// # Memory
///
/// Allocates a copy of the root, if that has `overrides`.
pub fn drop_overrides(alloc: Global, lock: &mut Value) -> Result<()>
    ensures { OnOk result (view lock.new ≡ without_overrides (view lock.old)) }
{
    if !has_overrides(lock) {
        return Ok(());
    }
    let made = plain_root(alloc, lock)?;
    match lock.as_object_mut() {
        Some(members) => put_inside(alloc, members, "packages", "", made),
        None => Ok(()),
    }
}

/// Returns `true` if the root of a lock file has `overrides`.
fn has_overrides(lock: &Value) -> bool
    ensures { result ≡ Places.has_overrides (view lock.now) }
{
    match member_at(lock, "") {
        Some(root) => root.get("overrides").is_some(),
        None => false,
    }
}

/// Returns the package of a lock file in this folder, `""` for the root.
pub fn member_at<'v>(lock: &'v Value, folder: &str) -> Option<&'v Value>
    ensures { option_map (λ member. view member.now) result ≡ member_at (view lock.now) folder.now }
{
    lock.get("packages")?.get(folder)
}

/// A copy of the root whose `overrides` do not count.
fn plain_root(alloc: Global, lock: &Value) -> Result<Value>
    ensures { IfOk result (λ made. view made ≡ Places.plain (entry_of (view lock.now) [])) }
{
    match member_at(lock, "") {
        Some(root) => {
            let mut made = root.clone()?;
            put_member(alloc, &mut made, "overrides", Value::Null)?;
            Ok(made)
        }
        None => Ok(Value::Null),
    }
}

/// The manifest as the package in this folder.
fn package_at(alloc: Global, lock: &Value, folder: &str, manifest: Value) -> Result<Value>
    ensures { IfOk result (λ made. view made
        ≡ Places.package_at folder.now (entry_of (view lock.now) folder.now) (view manifest)) }
{
    let made = package_of(alloc, manifest)?;
    if folder.is_empty() {
        Ok(made)
    } else {
        marked(alloc, lock, folder, made)
    }
}

/// The manifest as a package without marks.
fn package_of(alloc: Global, manifest: Value) -> Result<Value>
    ensures { IfOk result (λ made. view made ≡ as_package (view manifest)) }
{
    let mut made = manifest;
    put_member(alloc, &mut made, "link", Value::Bool(false))?;
    put_member(alloc, &mut made, "optional", Value::Bool(false))?;
    put_member(alloc, &mut made, "dev", Value::Bool(false))?;
    put_member(alloc, &mut made, "peer", Value::Bool(false))?;
    Ok(made)
}

/// The package with the marks that the lock file has in this folder.
fn marked(alloc: Global, lock: &Value, folder: &str, member: Value) -> Result<Value>
    ensures { IfOk result (λ made. view made
        ≡ Places.with_marks (entry_of (view lock.now) folder.now) (view member)) }
{
    let mut made = member;
    put_mark(alloc, &mut made, "dev", is_marked(lock, folder, "dev"))?;
    put_mark(
        alloc,
        &mut made,
        "optional",
        is_marked(lock, folder, "optional"),
    )?;
    put_mark(alloc, &mut made, "peer", is_marked(lock, folder, "peer"))?;
    Ok(made)
}

/// Returns `true` if the package in this folder of the lock file has this mark.
pub fn is_marked(lock: &Value, folder: &str, mark: &str) -> bool
    ensures { result ≡ has_true mark.now (entry_of (view lock.now) folder.now) }
{
    match member_at(lock, folder) {
        Some(entry) => has_true(entry, mark),
        None => false,
    }
}

/// Adds a mark, if the package has it.
fn put_mark(alloc: Global, member: &mut Value, mark: &str, is_marked: bool) -> Result<()>
    ensures { OnOk result (view member.new
        ≡ (if is_marked then Places.with_member mark.now (boolean true) (view member.old) else view member.old)) }
{
    if is_marked {
        put_member(alloc, member, mark, Value::Bool(true))
    } else {
        Ok(())
    }
}

/// Puts a member into the object of this name.
fn put_inside(
    alloc: Global,
    members: &mut Map<String, Value>,
    name: &str,
    inner: &str,
    member: Value,
) -> Result<()>
    ensures { OnOk result (members_view members.new.entries ≡ changed_at name.now
        (Places.with_member inner.now (view member)) (members_view members.old.entries)) }
{
    match members.get_mut(name) {
        Some(value) => put_member(alloc, value, inner, member),
        None => Ok(()),
    }
}

/// Puts a member into an object. Another value stays.
fn put_member(alloc: Global, value: &mut Value, name: &str, member: Value) -> Result<()>
    ensures { OnOk result (view value.new ≡ Places.with_member name.now (view member) (view value.old)) }
{
    match value.as_object_mut() {
        Some(members) => put(members, alloc, name, member),
        None => Ok(()),
    }
}
