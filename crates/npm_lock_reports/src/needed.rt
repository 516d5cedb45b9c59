//! What is needed, but left out.
//!
//! See docs/DECISIONS.md, "A package that is left out asks for nothing".
ghost use Rattle.std.specs.Prelude.{◌≡◌, ◌++◌, IfOk, OnOk, map, option_map, unwrap_or};
ghost use Rattle.serde_json.specs.Data.{null};
ghost use Rattle.serde_json.specs.View.{view};
ghost use Rattle.npm_lock.specs.Outcomes as Outcomes;
ghost use Rattle.npm_lock.specs.Outcomes.{dependency_value};
ghost use Rattle.npm_packages.specs.Edges.{edge_value};
ghost use Rattle.npm_lock_reports.specs.Exceptions.{some_list};
ghost use Rattle.npm_lock_reports.specs.Needed as Needed;
ghost use Rattle.npm_lock_reports.specs.Needed.{AreNeeded};
ghost use Rattle.npm_lock_reports.specs.Private.Askers.{IsAsker};

use crate::omissions::Omissions;
use crate::workspace::is_in_project;
use npm_lock::{Dependency, dependency_of, member_at};
use npm_packages::{Edge, SoundLock, edges_in};
use serde_json::Value;
use std::alloc::{AllocError, Global};

/// Returns the dependencies that are needed, and for which a package is found that is left out, as `npm ci --omit` leaves it out, which
/// believes the marks of the file: of the packages in the order of their folders, of each by the names. A dependency is needed if it is
/// neither optional nor, where development is left out, one of `devDependencies`, and if the package that asks has no mark by which it
/// is left out.
///
/// # Errors
///
/// An allocation failed.
///
/// # Memory
///
/// Allocates the list with a copy of each text, and while it runs a list of all dependencies.
///
/// # Examples
///
/// If the root depends on `a`, and `node_modules/a` has `"dev": true`: that dependency, where development is left out.
pub fn left_out_but_needed(
    lock: &SoundLock<'_>,
    omissions: Omissions,
) -> Result<Vec<Dependency>, AllocError>
    ensures { IfOk result (λ list. AreNeeded omissions (view lock.now) (map dependency_value list.items)) }
{
    let edges = edges_in(lock)?;
    told_of(lock.packages().alloc, lock.file(), omissions, &edges)
}

/// A package that asks, which is looked up once for all of its dependencies.
#[derive(Clone, Copy)]
struct Asker<'v> {
    folder: &'v str,
    member: Option<&'v Value>,
    /// It has a mark by which packages are left out.
    is_marked: bool,
}

/// The package in a folder.
fn asker_in<'v>(omissions: Omissions, lock: &'v Value, folder: &'v str) -> Asker<'v>
    ensures { IsAsker omissions (view lock.now) folder.now result }
{
    Asker {
        folder,
        member: member_at(lock, folder),
        is_marked: is_marked_at(omissions, lock, folder),
    }
}

/// The package in a folder, which may be the one that asked last.
fn next_asker<'v>(
    omissions: Omissions,
    lock: &'v Value,
    last: Asker<'v>,
    folder: &'v str,
) -> Asker<'v>
    requires { IsAsker omissions (view lock.now) last.folder.now last }
    ensures { IsAsker omissions (view lock.now) folder.now result }
{
    if last.folder == folder {
        return last;
    }
    asker_in(omissions, lock, folder)
}

/// Those of these dependencies that are needed and left out.
fn told_of<'v>(
    alloc: Global,
    lock: &'v Value,
    omissions: Omissions,
    edges: &[Edge<'v>],
) -> Result<Vec<Dependency>, AllocError>
    ensures { IfOk result (λ list. map dependency_value list.items
        ≡ Needed.told_in omissions (view lock.now) (map edge_value edges.now)) }
{
    let mut list = Vec::new(alloc);
    let mut asker = asker_in(omissions, lock, "");
    for edge in edges {
        asker = next_asker(omissions, lock, asker, edge.from);
        push_told(alloc, &mut list, lock, omissions, asker, edge)?;
    }
    Ok(list)
}

/// Adds a dependency of this package, if it is needed and left out.
fn push_told(
    alloc: Global,
    list: &mut Vec<Dependency>,
    lock: &Value,
    omissions: Omissions,
    asker: Asker<'_>,
    edge: &Edge<'_>,
) -> Result<(), AllocError>
    requires { IsAsker omissions (view lock.now) edge.now.from.now asker }
    ensures { OnOk result (map dependency_value list.new.items ≡ map dependency_value list.old.items
        ++ some_list (Needed.told_if omissions (view lock.now) (edge_value edge.now))) }
{
    if is_needed(omissions, lock, asker, edge) && is_left_out(omissions, lock, edge) {
        list.push(dependency_from(alloc, asker.member, edge)?)?;
    }
    Ok(())
}

/// A dependency of a package, which may be absent.
fn dependency_from(
    alloc: Global,
    asker: Option<&Value>,
    edge: &Edge<'_>,
) -> Result<Dependency, AllocError>
    ensures { IfOk result (λ dependency. dependency_value dependency ≡ Outcomes.dependency_of
        (unwrap_or (option_map (λ member. view member.now) asker.entry) null) (edge_value edge.now)) }
{
    match asker {
        Some(member) => dependency_of(alloc, member, edge),
        None => dependency_of(alloc, &Value::Null, edge),
    }
}

/// Returns `true` if the dependency is needed.
fn is_needed(omissions: Omissions, lock: &Value, asker: Asker<'_>, edge: &Edge<'_>) -> bool
    requires { IsAsker omissions (view lock.now) edge.now.from.now asker }
    ensures { result ≡ Needed.is_needed omissions (view lock.now) (edge_value edge.now) }
{
    edge.is_needed && !(omissions.dev && edge.is_dev) && !asker.is_marked
}

/// Returns `true` if the package that is found for a dependency is left out.
fn is_left_out(omissions: Omissions, lock: &Value, edge: &Edge<'_>) -> bool
    ensures { result ≡ Needed.is_left_out omissions (view lock.now) (edge_value edge.now) }
{
    match edge.to {
        Some(to) => finds_left_out(omissions, lock, edge.from, to),
        None => false,
    }
}

/// Returns `true` if what a package in one folder finds in another is left out.
fn finds_left_out(omissions: Omissions, lock: &Value, from: &str, to: &str) -> bool
    ensures { result ≡ Needed.finds_left_out omissions (view lock.now) from.now to.now }
{
    is_marked_at(omissions, lock, to) && (is_of_project(lock, to) || is_of_project(lock, from))
}

/// Returns `true` if the package in a folder, which is not the root, has a mark by which packages are left out.
fn is_marked_at(omissions: Omissions, lock: &Value, folder: &str) -> bool
    ensures { result ≡ Needed.is_marked_at omissions (view lock.now) folder.now }
{
    if folder.is_empty() {
        return false;
    }
    match member_at(lock, folder) {
        Some(member) => omissions.has_marked(member),
        None => false,
    }
}

/// Returns `true` if the folder is the root, a workspace, or what npm installs for them.
fn is_of_project(lock: &Value, folder: &str) -> bool
    ensures { result ≡ Needed.is_of_project (view lock.now) folder.now }
{
    folder.is_empty() || is_in_project(lock, folder)
}
