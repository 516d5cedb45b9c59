//! The dependencies of all packages, and the package that is installed for each.
ghost use Rattle.std.specs.Prelude.{◌≡◌, ◌↔◌, ◌++◌, Bool, IfOk, IsErrOf, List, OnOk, Some, map, option_and_then, option_map};
ghost use Rattle.serde_json.specs.View.{members_view, view};
ghost use Rattle.npm_packages.specs.Asked.{AskedValue, asked_of as asked_by};
ghost use Rattle.npm_packages.specs.Edges.{AreEdges, AreLockEdges, AreMemberEdges, EdgeValue, IsEdge, edge_value};
ghost use Rattle.npm_packages.specs.Faults as Faults;
ghost use Rattle.npm_packages.specs.Overrides as Overrides;
ghost use Rattle.npm_packages.specs.Index.{IsIndexOf};
ghost use Rattle.npm_packages.specs.Packages.{version_of};
ghost use Rattle.npm_packages.specs.PackageValue.{asked_value, package_value, packages_data};
ghost use Rattle.npm_packages.specs.Rules.{AreRules};
ghost use Rattle.npm_packages.specs.Lookups.{IsOutermostFrom};
ghost use Rattle.npm_packages.specs.declared.fault.Fault.{Fault};

use crate::Result;
use crate::asked::{Asked, asked_of};
use crate::fault::CheckError;
use crate::folder::is_installed;
use crate::index::Index;
use crate::overrides::{Rules, overridden};
use crate::place::{Lock, Package, is_link, version_of};
use crate::search::outermost_of;
use crate::sound_lock::SoundLock;
use serde_json::Value;
use std::alloc::Global;

/// A dependency of a package of a lock file, and the package that is found for it.
#[derive(Clone, Copy, Debug, PartialEq, Eq, Drop)]
pub struct Edge<'v> {
    /// The folder of the package that asks. The root's is empty.
    pub from: &'v str,
    pub name: &'v str,
    /// The spec, as `overrides` change it.
    pub spec: &'v str,
    /// It is a problem if nothing is installed.
    pub is_needed: bool,
    pub is_peer: bool,
    /// It counts in development alone.
    pub is_dev: bool,
    /// `overrides` change it in a way that is not read here.
    pub is_overridden: bool,
    /// The folder of the package that is found.
    pub to: Option<&'v str>,
    /// Its version, as the lock file writes it.
    pub version: Option<&'v str>,
}

/// Returns the dependencies of all packages of a lock file, and the package that is found for each: of the packages in the
/// order of their folders' bytes, of each by the names.
///
/// # Errors
///
/// - `Refused`: the value is no lock file of version 2 or 3, or a member that counts has the wrong type.
/// - `Memory`: an allocation failed.
///
/// # Memory
///
/// Allocates the list, and an index of the packages while it runs. The edges borrow the lock file.
///
/// # Examples
///
/// If the root depends on `a` by `^1`, and `node_modules/a` has the version 1.2.0: an edge from the empty folder to
/// `node_modules/a`, with the spec `^1` and the version 1.2.0.
///
/// # Source
///
/// npm's "npm outdated", "folders".
pub fn edges_of(alloc: Global, lock: &Value) -> Result<Vec<Edge<'_>>, CheckError>
    ensures found { IfOk result (λ edges. AreLockEdges (view lock.now) (map edge_value edges.items)) }
    ensures refused { (fault : Fault) → IsErrOf result (CheckError.Refused fault)
        ↔ (Faults.lock_fault (view lock.now) ≡ Some fault) }
{
    match SoundLock::of(alloc, lock) {
        Ok(lock) => edges_in(&lock).map_err(|_| CheckError::Memory),
        Err(error) => Err(error),
    }
}

/// Returns the dependencies of all packages as [`edges_of`] does, for a lock file without a fault.
///
/// # Errors
///
/// An allocation failed.
///
/// # Memory
///
/// Allocates the list. The edges borrow the lock file.
pub fn edges_in<'v>(lock: &SoundLock<'v>) -> Result<Vec<Edge<'v>>>
    ensures { IfOk result (λ edges. AreLockEdges (view lock.now) (map edge_value edges.items)) }
{
    edges_among(lock.packages(), lock.index(), lock.rules())
}

/// The dependencies of all packages.
fn edges_among<'v>(lock: Lock<'v>, index: &Index<'v>, rules: &Rules<'v>) -> Result<Vec<Edge<'v>>>
    requires index { IsIndexOf (packages_data lock) index.now }
    requires rules { AreRules (packages_data lock) rules.now }
    ensures { IfOk result (λ edges. AreEdges (packages_data lock.entry) (members_view lock.entry.members.now.entries)
        (map edge_value edges.items)) }
{
    let mut edges = Vec::new(lock.alloc);
    for (folder, member) in lock.members.iter() {
        let folder = folder.as_str();
        let asker = Package { folder, member };
        add_package(lock, index, rules, asker, &mut edges)?;
    }
    Ok(edges)
}

/// Adds the dependencies of one member of `packages`.
fn add_package<'v>(
    lock: Lock<'v>,
    index: &Index<'v>,
    rules: &Rules<'v>,
    asker: Package<'v>,
    edges: &mut Vec<Edge<'v>>,
) -> Result<()>
    requires index { IsIndexOf (packages_data lock) index.now }
    requires rules { AreRules (packages_data lock) rules.now }
    ensures { OnOk result ((here : List EdgeValue)
        × AreMemberEdges (packages_data lock.entry) asker.entry.folder.now (view asker.entry.member.now) here
        × (map edge_value edges.new.items ≡ map edge_value edges.old.items ++ here)) }
{
    if is_link(asker.member) {
        return Ok(());
    }
    let is_installed = is_installed(asker.folder);
    let outermost = outermost_of(asker.folder);
    let all = asked_of(lock.alloc, asker.member, is_installed)?;
    for (name, asked) in all.iter() {
        let changed = overridden(rules, asker.folder, *name, *asked);
        edges.push(edge_of(lock, asker, index, outermost, *name, changed))?;
    }
    Ok(())
}

/// The dependency of a package on a name, and the package that is found for it.
fn edge_of<'v>(
    lock: Lock<'v>,
    asker: Package<'v>,
    index: &Index<'v>,
    outermost: &str,
    name: &'v str,
    asked: Asked<'v>,
) -> Edge<'v>
    requires index { IsIndexOf (packages_data lock) index.now }
    requires outermost { IsOutermostFrom asker.folder.now outermost.now }
    ensures { (is_installed : Bool) (before : AskedValue)
        → asked_by (view asker.entry.member.now) is_installed name.now ≡ Some before
        → asked_value asked.entry ≡ Overrides.overridden (packages_data lock.entry) asker.entry.folder.now name.now before
        → IsEdge (packages_data lock.entry) asker.entry.folder.now (view asker.entry.member.now) is_installed
        name.now (edge_value result) }
{
    let found = lock.find(index, asker.folder, outermost, name);
    Edge {
        from: asker.folder,
        name,
        spec: asked.spec,
        is_needed: asked.is_needed,
        is_peer: asked.is_peer,
        is_dev: asked.is_dev,
        is_overridden: asked.is_overridden,
        to: folder_of(&found),
        version: found_version(&found),
    }
}

/// The folder of a package that is found.
fn folder_of<'v>(found: &Option<(Package<'v>, bool)>) -> Option<&'v str>
    ensures { option_map (λ folder. folder.now) result
        ≡ option_map (λ there. there.folder) (option_map (λ f. package_value f.0) found.now) }
{
    match found {
        Some((found, _)) => Some(found.folder),
        None => None,
    }
}

/// The version of a package that is found.
fn found_version<'v>(found: &Option<(Package<'v>, bool)>) -> Option<&'v str>
    ensures { option_map (λ text. text.now) result
        ≡ option_and_then (λ there. version_of there.member) (option_map (λ f. package_value f.0) found.now) }
{
    match found {
        Some((found, _)) => version_of(found.member),
        None => None,
    }
}
