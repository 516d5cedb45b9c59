//! A workspace that was found on disk.
ghost use Rattle.std.specs.Prelude.{◌≡◌, ◌++◌, IfOk, codes, is_some, option_map, string_bytes};
ghost use Rattle.serde_json.specs.View.{view};
ghost use Rattle.npm_packages.specs.Asked.{spec_in};
ghost use Rattle.npm_lock.specs.FoundWorkspaces as FoundWorkspaces;
ghost use Rattle.npm_lock.specs.FoundWorkspaces.{problem_with, workspace_problem};
ghost use Rattle.npm_lock.specs.Outcomes.{problem_value};
ghost use Rattle.npm_packages.specs.PackageValue.{package_value};

use crate::Result;
use crate::outcome::{dependency_of, edge_of};
use crate::problem::{Kind, Problem};
use npm_packages::{Asked, Lock, Package, is_optional_peer, members_of, place_text};
use serde_json::Value;
use std::alloc::Global;

/// Returns the problem of a workspace that was found on disk, under this name and in this folder, as `npm ci` looks for it:
/// the root depends on the name by `file:FOLDER`. It is `Missing` if the root finds no package of the name, and `Invalid` if it
/// finds one in another folder.
///
/// A name that the root itself depends on, and that is found nowhere, is a problem of `check`: here it is none.
///
/// # Errors
///
/// An allocation failed.
pub fn workspace_problem(
    alloc: Global,
    lock: &Value,
    name: &str,
    folder: &str,
) -> Result<Option<Problem>>
    ensures { IfOk result (λ problem. option_map problem_value problem
        ≡ workspace_problem (view lock.now) name.now folder.now) }
{
    let Some(members) = members_of(lock) else {
        return Ok(None);
    };
    let lock = Lock { alloc, members };
    let Some(root) = lock.package_in("") else {
        return Ok(None);
    };
    let place = place_text(alloc, "", name)?;
    problem_with(alloc, root, lock.package_at(place.as_str()), name, folder)
}

/// The problem of a workspace, if the root finds this package under its name.
fn problem_with(
    alloc: Global,
    root: Package<'_>,
    found: Option<Package<'_>>,
    name: &str,
    folder: &str,
) -> Result<Option<Problem>>
    requires { root.folder.now ≡ codes "" }
    ensures { IfOk result (λ problem. option_map problem_value problem ≡ problem_with (view root.entry.member.now)
        (option_map package_value found.entry) name.now folder.now) }
{
    let Some(kind) = kind_of(root.member, found, name, folder) else {
        return Ok(None);
    };
    let spec = file_spec(alloc, folder)?;
    let asked = Asked {
        spec: spec.as_str(),
        is_needed: true,
        is_peer: false,
        is_dev: false,
        is_overridden: false,
    };
    let edge = edge_of(root.folder, name, asked, found);
    let dependency = dependency_of(alloc, root.member, &edge)?;
    Ok(Some(Problem { kind, dependency }))
}

/// What is wrong with the package that the root finds under the name of a workspace.
fn kind_of(root: &Value, found: Option<Package<'_>>, name: &str, folder: &str) -> Option<Kind>
    ensures { result ≡ FoundWorkspaces.kind_of (view root.now) (option_map package_value found.entry) name.now
        folder.now }
{
    match found {
        Some(found) if found.folder == folder => None,
        Some(_) => Some(Kind::Invalid),
        None if is_needed(root, name) => None,
        None => Some(Kind::Missing),
    }
}

/// Returns `true` if the root itself depends on the name, and it must be found.
fn is_needed(root: &Value, name: &str) -> bool
    ensures { result ≡ FoundWorkspaces.is_needed (view root.now) name.now }
{
    has_spec(root, "devDependencies", name)
        || (!has_spec(root, "optionalDependencies", name)
            && (has_spec(root, "dependencies", name)
                || (has_spec(root, "peerDependencies", name) && !is_optional_peer(root, name))))
}

/// Returns `true` if a group of a package has a spec for the name.
fn has_spec(member: &Value, group: &str, name: &str) -> bool
    ensures { result ≡ is_some (spec_in (view member.now) group.now name.now) }
{
    spec_in(member, group, name).is_some()
}

/// The spec of a name in a group.
fn spec_in<'v>(member: &'v Value, group: &str, name: &str) -> Option<&'v str>
    ensures { option_map (λ text. text.now) result ≡ spec_in (view member.now) group.now name.now }
{
    member.get(group)?.get(name)?.as_str()
}

/// The spec of a folder.
fn file_spec(alloc: Global, folder: &str) -> Result<String>
    ensures { IfOk result (λ text. string_bytes text ≡ codes "file:" ++ folder.now) }
{
    let mut text = String::with_capacity(alloc, folder.len().saturating_add(5))?;
    text.push_str("file:")?;
    text.push_str(folder)?;
    Ok(text)
}
