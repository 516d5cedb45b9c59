//! The packages of a lock file that ask a registry, each with the version that is installed.
ghost use Rattle.std.specs.Prelude.{◌≡◌, ◌↔◌, ◌⊎◌, ◌++◌, ℕ, IfOk, IsTrue, List, OnOk, Some, codes, map, option_map};
ghost use Rattle.serde_json.specs.Data.{Members, object};
ghost use Rattle.serde_json.specs.Find.{get};
ghost use Rattle.serde_json.specs.View.{members_view, view};
ghost use Rattle.npm_packages.specs.Edges.{edge_value};
ghost use Rattle.npm_packages.specs.Lemmas.FolderMaps.{HasFolder};
ghost use Rattle.npm_texts.specs.RegistrySpec.{RegistrySpecValue, registry_spec_value};
ghost use Rattle.npm_pick_reports.specs.Installed as Rules;
ghost use Rattle.npm_pick_reports.specs.Installed.{AreAskedBy, AsksRegistry, IsAskedBy, IsFoundElsewhere, IsFromElsewhere};

use npm_packages::{Edge, Package, is_installed, is_link, members_of, name_of, version_of};
use npm_texts::{RegistrySpec, registry_spec};
use serde_json::{Map, Value};
use std::alloc::{AllocError, Global};
use std::collections::BTreeMap;

/// Folders of packages.
type Folders<'v> = BTreeMap<&'v str, ()>;

/// Returns the packages of a lock file that ask a registry, by their names, each with the version that is installed. `edges` are
/// the dependencies of all packages.
pub fn installed_of<'v>(
    alloc: Global,
    lock: &'v Value,
    edges: &[Edge<'v>],
) -> Result<Vec<RegistrySpec<'v>>, AllocError>
    ensures { IfOk result (λ installed. (members : Members) → get (codes "packages") (view lock.now) ≡ Some (object members)
        → AreAskedBy (IsFromElsewhere (map edge_value edges.now)) members (map registry_spec_value installed.items)) }
{
    let Some(members) = members_of(lock) else {
        return Ok(Vec::new(alloc));
    };
    let elsewhere = elsewhere_of(alloc, edges)?;
    installed_among(alloc, members, &elsewhere)
}

/// The folders of the packages that a dependency finds which asks no registry.
fn elsewhere_of<'v>(alloc: Global, edges: &[Edge<'v>]) -> Result<Folders<'v>, AllocError>
    ensures { IfOk result (λ folders. (folder : List ℕ) → HasFolder folders folder
        ↔ IsFromElsewhere (map edge_value edges.now) folder) }
{
    let mut folders = BTreeMap::new(alloc);
    for edge in edges {
        add_elsewhere(&mut folders, *edge)?;
    }
    Ok(folders)
}

/// Adds the folder of the package that a dependency finds, if the dependency asks no registry.
fn add_elsewhere<'v>(folders: &mut Folders<'v>, edge: Edge<'v>) -> Result<(), AllocError>
    ensures { OnOk result ((folder : List ℕ) → HasFolder folders.new folder
        ↔ (IsFoundElsewhere (edge_value edge.entry) folder ⊎ HasFolder folders.old folder)) }
{
    let Some(folder) = found_elsewhere(edge) else {
        return Ok(());
    };
    folders.insert(folder, ())?;
    Ok(())
}

/// The folder of the package that a dependency finds, if the dependency asks no registry.
fn found_elsewhere<'v>(edge: Edge<'v>) -> Option<&'v str>
    ensures { (folder : List ℕ) → (option_map (λ found. found.now) result ≡ Some folder)
        ↔ IsFoundElsewhere (edge_value edge.entry) folder }
{
    if is_elsewhere(&edge) { edge.to } else { None }
}

/// Returns `true` for a dependency that asks no registry.
fn is_elsewhere(edge: &Edge<'_>) -> bool
    ensures { result ≡ Rules.is_elsewhere (edge_value edge.now) }
{
    !edge.is_overridden && registry_spec(edge.name, edge.spec).is_none()
}

/// The packages among these members of `packages` that ask a registry.
fn installed_among<'v>(
    alloc: Global,
    members: &'v Map<String, Value>,
    elsewhere: &Folders<'v>,
) -> Result<Vec<RegistrySpec<'v>>, AllocError>
    ensures { IfOk result (λ installed. AreAskedBy (HasFolder elsewhere.now) (members_view members.now.entries)
        (map registry_spec_value installed.items)) }
{
    let mut installed = Vec::new(alloc);
    for (folder, member) in members.iter() {
        let folder = folder.as_str();
        add_package(&mut installed, Package { folder, member }, elsewhere)?;
    }
    Ok(installed)
}

/// Adds the version of a package, if it asks a registry.
fn add_package<'v>(
    installed: &mut Vec<RegistrySpec<'v>>,
    placed: Package<'v>,
    elsewhere: &Folders<'v>,
) -> Result<(), AllocError>
    ensures { OnOk result ((here : List RegistrySpecValue)
        × IsAskedBy (HasFolder elsewhere.now) placed.entry.folder.now (view placed.entry.member.now) here
        × (map registry_spec_value installed.new.items ≡ map registry_spec_value installed.old.items ++ here)) }
{
    if !asks_registry(placed, elsewhere) {
        return Ok(());
    }
    let Some(version) = version_of(placed.member) else {
        return Ok(());
    };
    installed.push(RegistrySpec {
        name: name_of(placed),
        text: version,
    })?;
    Ok(())
}

/// Returns `true` for a package for which `npm ci` asks a registry.
fn asks_registry(placed: Package<'_>, elsewhere: &Folders<'_>) -> bool
    ensures { IsTrue result
        ↔ AsksRegistry (HasFolder elsewhere.now) placed.entry.folder.now (view placed.entry.member.now) }
{
    if !is_installed(placed.folder) || is_link(placed.member) {
        return false;
    }
    is_from_web(placed.member) && !elsewhere.contains_key(placed.folder)
}

/// Returns `true` unless `resolved` names a repository, a file or a folder.
fn is_from_web(member: &Value) -> bool
    ensures { result ≡ Rules.is_from_web (view member.now) }
{
    match resolved_of(member) {
        Some(address) => address.starts_with("https:") || address.starts_with("http:"),
        None => true,
    }
}

/// Where a package is from.
fn resolved_of(member: &Value) -> Option<&str>
    ensures { option_map (λ text. text.now) result ≡ Rules.resolved_of (view member.now) }
{
    member.get("resolved")?.as_str()
}
