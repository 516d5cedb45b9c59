//! A lock file.
ghost use Rattle.std.specs.Prelude.{◌≡◌, IfOk, OnOk, map};
ghost use Rattle.serde_json.specs.View.{members_view, view};
ghost use Rattle.npm_resolve.specs.Installed.{installed_value};
ghost use Rattle.npm_resolve.specs.Lock as Locks;
ghost use Rattle.npm_resolve.specs.Lock.{IsLock};
ghost use Rattle.npm_resolve.specs.Private.Marking.{marks_in};

use crate::Result;
use crate::flat_locks::installed::Installed;
use crate::flat_locks::marks::{Reaches, reaches_of};
use crate::flat_locks::members::{package_of, put_copy, root_of};
use npm_packages::place_text;
use serde_json::{Map, Value, put};
use std::alloc::Global;

/// Returns the lock file of version 3 for the manifest of a root and the packages in its `node_modules`. Of two packages of one name
/// the last counts.
///
/// A package has `resolved` and `integrity` of the `dist` of its manifest; of a `shasum` alone `integrity` is its SHA-1 in base64. It is
/// `dev`, `optional`, `devOptional` or `peer` if each way to it from the root has such a dependency. A root has no `workspaces` here, and no package has `bundleDependencies` or `funding`.
///
/// # Errors
///
/// An allocation failed.
///
/// # Memory
///
/// Allocates the lock file, and four texts for each name while it runs.
///
/// # Examples
///
/// For a root that asks for `a` by `^1`, and `a` 1.0.0: `{"lockfileVersion": 3, "packages": {"": {"dependencies": {"a": "^1"}},
/// "node_modules/a": {"version": "1.0.0"}}, "requires": true}`.
///
/// # Source
///
/// npm's "package-lock.json", `packages`.
pub fn lock_of(alloc: Global, root: &Value, installed: &[Installed<'_>]) -> Result<Value>
    ensures { IfOk result (λ lock. IsLock (view root.now) (map installed_value installed.now) (view lock)) }
{
    let reaches = reaches_of(alloc, root, installed)?;
    let packages = packages_of(alloc, root, installed, &reaches)?;
    file_of(alloc, root, packages)
}

/// The members of `packages`.
fn packages_of(
    alloc: Global,
    root: &Value,
    installed: &[Installed<'_>],
    reaches: &Reaches,
) -> Result<Map<String, Value>>
    ensures { IfOk result (λ packages. members_view packages.entries
        ≡ Locks.packages_of (view root.now) (map installed_value installed.now) (marks_in reaches.now)) }
{
    let mut packages = root_package(alloc, root)?;
    for one in installed {
        add_package(&mut packages, alloc, *one, reaches)?;
    }
    Ok(packages)
}

/// The root alone.
fn root_package(alloc: Global, root: &Value) -> Result<Map<String, Value>>
    ensures { IfOk result (λ packages. members_view packages.entries ≡ Locks.root_package (view root.now)) }
{
    let mut packages = Map::new(alloc);
    put(&mut packages, alloc, "", root_of(alloc, root)?)?;
    Ok(packages)
}

/// Adds a package.
fn add_package(
    packages: &mut Map<String, Value>,
    alloc: Global,
    one: Installed<'_>,
    reaches: &Reaches,
) -> Result<()>
    ensures { OnOk result (members_view packages.new.entries
        ≡ Locks.with_package (marks_in reaches.now) (installed_value one.entry) (members_view packages.old.entries)) }
{
    let place = place_text(alloc, "", one.name)?;
    let member = package_of(alloc, one, reaches.marks_of(one.name))?;
    put(packages, alloc, place.as_str(), member)
}

/// The lock file with these packages.
fn file_of(alloc: Global, root: &Value, packages: Map<String, Value>) -> Result<Value>
    ensures { IfOk result (λ lock. view lock ≡ Locks.file_of (view root.now) (members_view packages.entries)) }
{
    let mut members = Map::new(alloc);
    put_copy(&mut members, alloc, "name", root)?;
    put_copy(&mut members, alloc, "version", root)?;
    put(&mut members, alloc, "lockfileVersion", Value::from(3_u8))?;
    put(&mut members, alloc, "requires", Value::Bool(true))?;
    put(&mut members, alloc, "packages", Value::Object(packages))?;
    Ok(Value::Object(members))
}
