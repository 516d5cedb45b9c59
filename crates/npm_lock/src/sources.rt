//! What is suspicious in where the packages of a lock file come from.
ghost use Rattle.std.specs.Prelude.{◌≡◌, ◌++◌, [], ◌∷◌, IfOk, OnOk, filter, map, string_bytes};
ghost use Rattle.std.specs.List.{flat_map, list_any};
ghost use Rattle.serde_json.specs.View.{members_view, view};
ghost use Rattle.npm_packages.specs.PackageValue.{package_value};
ghost use Rattle.npm_lock.specs.Addresses as Addresses;
ghost use Rattle.npm_lock.specs.Origins.{origin_value};
ghost use Rattle.npm_lock.specs.Sources as Sources;
ghost use Rattle.npm_lock.specs.Sources.{old_sources, source_of, source_value};
ghost use Rattle.npm_lock.specs.Tarballs.{name_value};
ghost use Rattle.npm_lock.specs.VersionOne.{packages_below, packages_named};

use crate::Result;
use crate::address::{
    begins_with_digit, has_number, is_below, is_download, is_insecure, is_remote, is_same_version,
    registry_name, stem_in, version_in_file,
};
use crate::origin::{Origin, is_placed};
use crate::source::{Source, SourceKind};
use crate::tarball::Name;
use crate::version_one::is_version_one;
use npm_packages::{Package, is_link, members_of, place_text};
use serde_json::{Map, Value};
use std::alloc::Global;

/// Returns what is suspicious in where the packages of a lock file come from: each kind that is found of a package, in the order of
/// [`SourceKind`], and one package after another, in the order of their folders.
///
/// The file is as it was read, of any version. One of version 1 is read before `convert`, which keeps no addresses, and in it the packages
/// inside a package come after it.
///
/// `registries` are URLs, as `https://registry.npmjs.org` or `https://r/npm/`, compared as they are written: the address of a package must
/// begin with one of them and a `/`. If there are none, no host is suspicious. npm itself may ask another host than the file says
/// (`replace-registry-host`): that is not looked at.
///
/// Looked at are packages in some `node_modules`. A link, a workspace and a folder come from no address. A repository has no `integrity`,
/// and neither has a package that another one brings along (`inBundle`) and that has no address.
///
/// # Errors
///
/// An allocation failed.
///
/// # Examples
///
/// `node_modules/lodash` with the `version` 4.17.21 and the `resolved` `../lodash-4.17.20.tgz`, without `integrity`, is `OtherVersion`; with
/// `../evil-4.17.21.tgz` it is `OtherPackage`; with `http://r/lodash/-/lodash-4.17.21.tgz` it is `Insecure` and `NoIntegrity`.
pub fn suspicious_sources(alloc: Global, file: &Value, registries: &[String]) -> Result<Vec<Source>>
    ensures { IfOk result (λ list. map source_value list.items
        ≡ Sources.suspicious_sources (map string_bytes registries.now) (view file.now)) }
{
    let mut found = Vec::new(alloc);
    if is_version_one(file) {
        add_below(alloc, registries, "", file, &mut found)?;
    } else if let Some(members) = members_of(file) {
        add_of_members(alloc, registries, members, &mut found)?;
    }
    Ok(found)
}

/// Adds those of the members of `packages`.
fn add_of_members(
    alloc: Global,
    registries: &[String],
    members: &Map<String, Value>,
    found: &mut Vec<Source>,
) -> Result<()>
    ensures { OnOk result (map source_value found.new.items ≡ map source_value found.old.items
        ++ Sources.sources_of_members (map string_bytes registries.now) (members_view members.now.entries)) }
{
    for (folder, member) in members.iter() {
        let folder = folder.as_str();
        add_of_member(alloc, registries, Package { folder, member }, found)?;
    }
    Ok(())
}

/// Adds those of a member of `packages`.
fn add_of_member(
    alloc: Global,
    registries: &[String],
    placed: Package<'_>,
    found: &mut Vec<Source>,
) -> Result<()>
    ensures { OnOk result (map source_value found.new.items ≡ map source_value found.old.items
        ++ Sources.sources_of_member (map string_bytes registries.now) (package_value placed.entry)) }
{
    if is_link(placed.member) || !is_placed(placed.folder) {
        return Ok(());
    }
    add_kinds(alloc, registries, Origin::of(placed), found)
}

/// Adds those of the packages below one in this folder, in a file of version 1.
#[cycle(below)]
fn add_below(
    alloc: Global,
    registries: &[String],
    folder: &str,
    entry: &Value,
    found: &mut Vec<Source>,
) -> Result<()>
    ensures { OnOk result (map source_value found.new.items ≡ map source_value found.old.items
        ++ flat_map (old_sources (map string_bytes registries.now)) (packages_below folder.now (view entry.now))) }
{
    if let Value::Object(members) = entry {
        for (key, value) in members.iter() {
            if key.as_str() == "dependencies" {
                add_named(alloc, registries, folder, value, found)?;
            }
        }
    }
    Ok(())
}

/// Adds those of the packages that `dependencies` of a package in this folder names, each before those inside it.
#[cycle(below)]
fn add_named(
    alloc: Global,
    registries: &[String],
    folder: &str,
    dependencies: &Value,
    found: &mut Vec<Source>,
) -> Result<()>
    ensures { OnOk result (map source_value found.new.items ≡ map source_value found.old.items
        ++ flat_map (old_sources (map string_bytes registries.now)) (packages_named folder.now (view dependencies.now))) }
{
    if let Value::Object(entries) = dependencies {
        for (name, entry) in entries.iter() {
            let text = place_text(alloc, folder, name.as_str())?;
            let place = text.as_str();
            let placed = Package {
                folder: place,
                member: entry,
            };
            add_old(alloc, registries, placed, found)?;
            add_below(alloc, registries, place, entry, found)?;
        }
    }
    Ok(())
}

/// Adds those of a package in a file of version 1.
fn add_old(
    alloc: Global,
    registries: &[String],
    placed: Package<'_>,
    found: &mut Vec<Source>,
) -> Result<()>
    ensures { OnOk result (map source_value found.new.items ≡ map source_value found.old.items
        ++ old_sources (map string_bytes registries.now) (package_value placed.entry)) }
{
    add_kinds(alloc, registries, Origin::of_old(placed), found)
}

/// Adds each kind that is found of a package.
fn add_kinds(
    alloc: Global,
    registries: &[String],
    origin: Origin<'_>,
    found: &mut Vec<Source>,
) -> Result<()>
    ensures { OnOk result (map source_value found.new.items ≡ map source_value found.old.items
        ++ Sources.sources_of (map string_bytes registries.now) (origin_value origin.entry)) }
{
    let kinds = [
        SourceKind::OtherVersion,
        SourceKind::OtherPackage,
        SourceKind::Insecure,
        SourceKind::OtherHost,
        SourceKind::NoIntegrity,
    ];
    add_found(alloc, registries, origin, &kinds, found)
}

/// Adds those of these kinds that are found of a package.
fn add_found(
    alloc: Global,
    registries: &[String],
    origin: Origin<'_>,
    kinds: &[SourceKind],
    found: &mut Vec<Source>,
) -> Result<()>
    ensures { OnOk result (map source_value found.new.items ≡ map source_value found.old.items
        ++ map (source_of (origin_value origin.entry))
        (filter (Sources.is_found (map string_bytes registries.now) (origin_value origin.entry)) kinds.now)) }
{
    for kind in kinds {
        add_kind(alloc, registries, origin, *kind, found)?;
    }
    Ok(())
}

/// Adds a kind if it is found of a package.
fn add_kind(
    alloc: Global,
    registries: &[String],
    origin: Origin<'_>,
    kind: SourceKind,
    found: &mut Vec<Source>,
) -> Result<()>
    ensures { OnOk result (map source_value found.new.items ≡ map source_value found.old.items
        ++ map (source_of (origin_value origin.entry))
        (filter (Sources.is_found (map string_bytes registries.now) (origin_value origin.entry)) (kind ∷ []))) }
{
    if !is_found(registries, origin, kind) {
        return Ok(());
    }
    let source = Source::of(alloc, origin, kind)?;
    found.push(source)?;
    Ok(())
}

/// Returns `true` if this kind is found of a package.
fn is_found(registries: &[String], origin: Origin<'_>, kind: SourceKind) -> bool
    ensures { result ≡ Sources.is_found (map string_bytes registries.now) (origin_value origin.entry) kind }
{
    match kind {
        SourceKind::OtherVersion => has_other_version(origin),
        SourceKind::OtherPackage => match origin.address {
            Some(address) => is_other_package(origin, address),
            None => false,
        },
        SourceKind::Insecure => match origin.address {
            Some(address) => is_insecure(address),
            None => false,
        },
        SourceKind::OtherHost => match origin.address {
            Some(address) => is_other_host(registries, address),
            None => false,
        },
        SourceKind::NoIntegrity => is_downloaded(origin) && !origin.has_integrity,
    }
}

/// Returns `true` if the address is that of another version.
fn has_other_version(origin: Origin<'_>) -> bool
    ensures { result ≡ Sources.has_other_version (origin_value origin.entry) }
{
    match (origin.version, origin.address) {
        (Some(version), Some(address)) => is_other_version(origin, version, address),
        _ => false,
    }
}

fn is_other_version(origin: Origin<'_>, version: &str, address: &str) -> bool
    ensures { result ≡ Sources.is_other_version (origin_value origin.entry) version.now address.now }
{
    match registry_name(address) {
        Some(name) => !is_of_version(name, version, address),
        None => !origin.has_integrity && says_another(origin, version, address),
    }
}

/// Returns `true` if the file at an address in a registry is that of this version.
fn is_of_version(name: Name<'_>, version: &str, address: &str) -> bool
    ensures { result ≡ Sources.is_of_version (name_value name.entry) version.now address.now }
{
    let Some(stem) = stem_in(address) else {
        return false;
    };
    match version_in_file(name, stem) {
        Some(said) => is_same_version(version, said),
        None => false,
    }
}

/// Returns `true` if another file has the name of the package, and says another version.
fn says_another(origin: Origin<'_>, version: &str, address: &str) -> bool
    ensures { result ≡ Sources.says_another (origin_value origin.entry) version.now address.now }
{
    let Some(stem) = stem_in(address) else {
        return false;
    };
    match origin.said_in_file(stem) {
        Some(said) => begins_with_digit(said) && !is_same_version(version, said),
        None => false,
    }
}

/// Returns `true` if the address is that of another package.
fn is_other_package(origin: Origin<'_>, address: &str) -> bool
    ensures { result ≡ Sources.is_other_package (origin_value origin.entry) address.now }
{
    match registry_name(address) {
        Some(said) => !origin.is_named(said),
        None => match stem_in(address) {
            Some(stem) => is_other_file(origin, stem),
            None => false,
        },
    }
}

/// Returns `true` if the name of a file is that of another package.
fn is_other_file(origin: Origin<'_>, stem: &str) -> bool
    ensures { result ≡ Sources.is_other_file (origin_value origin.entry) stem.now }
{
    has_number(stem.as_bytes()) && !origin.has_file(stem)
}

/// Returns `true` if registries are given, and none is that of the address.
fn is_other_host(registries: &[String], address: &str) -> bool
    ensures { result ≡ Sources.is_other_host (map string_bytes registries.now) address.now }
{
    match registries {
        [_, ..] => is_remote(address) && !is_below_any(address, registries),
        [] => false,
    }
}

fn is_below_any(address: &str, registries: &[String]) -> bool
    ensures { result ≡ list_any (Addresses.is_below address.now) (map string_bytes registries.now) }
{
    for registry in registries {
        if is_below(address, registry.as_str()) {
            return true;
        }
    }
    false
}

/// Returns `true` if npm downloads the package.
fn is_downloaded(origin: Origin<'_>) -> bool
    ensures { result ≡ Sources.is_downloaded (origin_value origin.entry) }
{
    match origin.address {
        Some(address) => is_download(address),
        None => origin.version.is_some() && !origin.is_bundled,
    }
}
