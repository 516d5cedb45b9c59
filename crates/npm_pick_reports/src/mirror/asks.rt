//! The dependencies of manifests and a lock file.
ghost use Rattle.std.specs.Prelude.{◌≡◌, ◌↔◌, ◌++◌, IfErr, IfOk, IsTrue, List, OnOk, Some, map, option_map};
ghost use Rattle.std.specs.List.{flat_map};
ghost use Rattle.serde_json.specs.View.{members_view, view};
ghost use Rattle.npm_packages.specs.Edges.{edge_value};
ghost use Rattle.npm_texts.specs.RegistrySpec.{registry_spec_value};
ghost use Rattle.npm_pick_reports.specs.Asks as Asks;
ghost use Rattle.npm_pick_reports.specs.Installed.{AreInstalled, AreInstalledIfAny};
ghost use Rattle.npm_pick_reports.specs.Loading.{IsLockFailure};
ghost use Rattle.npm_pick_reports.specs.Asks.{AreAsks, AreAsksOfEdge, AreAsksOfLock, AskValue, IsLinked, ask_value};

use crate::mirror::installed::installed_of;
use crate::run_error::RunError;
use npm_packages::{CheckError, Edge, edges_of, is_installed};
use npm_texts::RegistrySpec;
use serde_json::{Map, Value};
use std::alloc::{AllocError, Global};

/// A dependency, as a manifest or a lock file has it.
#[derive(Clone, Copy, Debug, PartialEq, Eq, Drop)]
pub struct Ask<'v> {
    pub name: &'v str,
    pub spec: &'v str,
    /// `overrides` of a lock file change it in a way that is not read here.
    pub is_overridden: bool,
}

/// What manifests and a lock file ask for.
#[derive(Drop)]
pub struct Asked<'v> {
    /// Their dependencies.
    pub asks: Vec<Ask<'v>>,
    /// The packages of the lock file that ask a registry, each with the version that is installed.
    pub installed: Vec<RegistrySpec<'v>>,
}

/// Returns the dependencies of these manifests, in all four groups, and then those of all packages of a lock file, with what is
/// installed. A dependency for which the lock file has a folder of the project, as a workspace, is left out.
///
/// # Errors
///
/// - `NoLock`: the value is no lock file that is read here.
/// - `Memory`: an allocation failed.
pub fn asked_of<'v>(
    alloc: Global,
    manifests: &'v [Value],
    lock: Option<&'v Value>,
) -> Result<Asked<'v>, RunError>
    ensures asks { IfOk result (λ asked. AreAsks (map view manifests.now) (option_map (λ lock. view lock.now) lock.entry)
        (map ask_value asked.asks.items)) }
    ensures installed { IfOk result (λ asked. AreInstalledIfAny (option_map (λ lock. view lock.now) lock.entry)
        (map registry_spec_value asked.installed.items)) }
    ensures failed { IfErr result (IsLockFailure (option_map (λ lock. view lock.now) lock.entry)) }
{
    let mut asks = Vec::new(alloc);
    add_manifests(&mut asks, manifests)?;
    let installed = add_locked(alloc, &mut asks, lock)?;
    Ok(Asked { asks, installed })
}

/// Adds the dependencies of manifests.
fn add_manifests<'v>(asks: &mut Vec<Ask<'v>>, manifests: &'v [Value]) -> Result<(), AllocError>
    ensures { OnOk result (map ask_value asks.new.items
        ≡ map ask_value asks.old.items ++ flat_map Asks.manifest_asks (map view manifests.now)) }
{
    for manifest in manifests {
        add_manifest(asks, manifest)?;
    }
    Ok(())
}

/// Adds the dependencies of a manifest.
fn add_manifest<'v>(asks: &mut Vec<Ask<'v>>, manifest: &'v Value) -> Result<(), AllocError>
    ensures { OnOk result (map ask_value asks.new.items
        ≡ map ask_value asks.old.items ++ Asks.manifest_asks (view manifest.now)) }
{
    add_group(asks, manifest, "dependencies")?;
    add_group(asks, manifest, "devDependencies")?;
    add_group(asks, manifest, "optionalDependencies")?;
    add_group(asks, manifest, "peerDependencies")?;
    Ok(())
}

/// Adds the dependencies of one group.
fn add_group<'v>(
    asks: &mut Vec<Ask<'v>>,
    manifest: &'v Value,
    group: &str,
) -> Result<(), AllocError>
    ensures { OnOk result (map ask_value asks.new.items
        ≡ map ask_value asks.old.items ++ Asks.asks_in (view manifest.now) group.now) }
{
    match manifest.get(group).and_then(Value::as_object) {
        Some(specs) => add_specs(asks, specs),
        None => Ok(()),
    }
}

/// Adds the dependencies with these specs.
fn add_specs<'v>(asks: &mut Vec<Ask<'v>>, specs: &'v Map<String, Value>) -> Result<(), AllocError>
    ensures { OnOk result (map ask_value asks.new.items
        ≡ map ask_value asks.old.items ++ Asks.asks_among (members_view specs.now.entries)) }
{
    for (name, spec) in specs.iter() {
        add_spec(asks, name.as_str(), spec)?;
    }
    Ok(())
}

/// Adds the dependency with this spec, if it is a string.
fn add_spec<'v>(asks: &mut Vec<Ask<'v>>, name: &'v str, spec: &'v Value) -> Result<(), AllocError>
    ensures { OnOk result (map ask_value asks.new.items
        ≡ map ask_value asks.old.items ++ Asks.spec_asks name.now (view spec.now)) }
{
    let Some(spec) = spec.as_str() else {
        return Ok(());
    };
    asks.push(Ask {
        name,
        spec,
        is_overridden: false,
    })?;
    Ok(())
}

/// Adds the dependencies of all packages of a lock file, if there is one, and returns what is installed.
fn add_locked<'v>(
    alloc: Global,
    asks: &mut Vec<Ask<'v>>,
    lock: Option<&'v Value>,
) -> Result<Vec<RegistrySpec<'v>>, RunError>
    ensures added { OnOk result ((found : List AskValue)
        × Asks.AreAsksOfLockIfAny (option_map (λ lock. view lock.now) lock.entry) found
        × (map ask_value asks.new.items ≡ map ask_value asks.old.items ++ found)) }
    ensures installed { IfOk result (λ installed. AreInstalledIfAny (option_map (λ lock. view lock.now) lock.entry)
        (map registry_spec_value installed.items)) }
    ensures failed { IfErr result (IsLockFailure (option_map (λ lock. view lock.now) lock.entry)) }
{
    match lock {
        Some(lock) => add_lock(alloc, asks, lock),
        None => Ok(Vec::new(alloc)),
    }
}

/// Adds the dependencies of all packages of a lock file, and returns what is installed.
fn add_lock<'v>(
    alloc: Global,
    asks: &mut Vec<Ask<'v>>,
    lock: &'v Value,
) -> Result<Vec<RegistrySpec<'v>>, RunError>
    ensures added { OnOk result ((found : List AskValue) × AreAsksOfLock (view lock.now) found
        × (map ask_value asks.new.items ≡ map ask_value asks.old.items ++ found)) }
    ensures installed { IfOk result (λ installed. AreInstalled (view lock.now)
        (map registry_spec_value installed.items)) }
    ensures failed { IfErr result (IsLockFailure (Some (view lock.now))) }
{
    let edges = match edges_of(alloc, lock) {
        Ok(edges) => edges,
        Err(CheckError::Refused(fault)) => return Err(RunError::NoLock(fault)),
        Err(CheckError::Memory) => return Err(RunError::Memory),
    };
    add_edges(asks, &edges)?;
    Ok(installed_of(alloc, lock, &edges)?)
}

/// Adds these dependencies.
fn add_edges<'v>(asks: &mut Vec<Ask<'v>>, edges: &[Edge<'v>]) -> Result<(), AllocError>
    ensures { OnOk result ((found : List AskValue) × Asks.AreAsksOfEdges (map edge_value edges.now) found
        × (map ask_value asks.new.items ≡ map ask_value asks.old.items ++ found)) }
{
    for edge in edges {
        add_edge(asks, edge)?;
    }
    Ok(())
}

/// Adds a dependency of a package of a lock file, unless a folder of the project is found for it.
fn add_edge<'v>(asks: &mut Vec<Ask<'v>>, edge: &Edge<'v>) -> Result<(), AllocError>
    ensures { OnOk result ((found : List AskValue) × AreAsksOfEdge (edge_value edge.now) found
        × (map ask_value asks.new.items ≡ map ask_value asks.old.items ++ found)) }
{
    if is_linked(edge.to) {
        return Ok(());
    }
    asks.push(Ask {
        name: edge.name,
        spec: edge.spec,
        is_overridden: edge.is_overridden,
    })?;
    Ok(())
}

/// Returns `true` for a folder of the project: it is in no `node_modules`.
fn is_linked(folder: Option<&str>) -> bool
    ensures { IsTrue result ↔ IsLinked (option_map (λ folder. folder.now) folder.entry) }
{
    match folder {
        Some(folder) => !is_installed(folder),
        None => false,
    }
}
