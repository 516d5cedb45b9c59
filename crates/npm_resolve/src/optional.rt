//! Optional dependencies of the root.
ghost use Rattle.std.specs.Prelude.{◌≡◌, IfOk, is_some, map, option_map};
ghost use Rattle.std.specs.List.{list_any};
ghost use Rattle.serde_json.specs.View.{view};
ghost use Rattle.npm_packages.specs.Asked as Asked;
ghost use Rattle.npm_resolve.specs.Optional as Optional;
ghost use Rattle.npm_resolve.specs.Texts.{text};

use crate::Result;
use npm_packages::is_optional_peer;
use serde_json::Value;
use std::alloc::Global;
use version_solving::{Demand, Listed, Range};

/// The demands of the root. One for an optional dependency that no version meets only limits.
pub(crate) fn root_demands(
    alloc: Global,
    manifests: &[Value],
    names: &[Listed<'_>],
    ranges: &[Range],
    demands: &[Demand],
) -> Result<Vec<Demand>>
    ensures { IfOk result (λ root. root.items ≡ Optional.root_demands manifests.now names.now ranges.now demands.now) }
{
    let mut root = Vec::with_capacity(alloc, demands.len())?;
    for demand in demands {
        root.push(root_demand(manifests, names, ranges, *demand))?;
    }
    Ok(root)
}

/// A demand of the root.
fn root_demand(
    manifests: &[Value],
    names: &[Listed<'_>],
    ranges: &[Range],
    demand: Demand,
) -> Demand
    ensures { result ≡ Optional.root_demand manifests.now names.now ranges.now demand }
{
    let is_unmet = is_unmet(manifests, names, ranges, demand);
    Demand {
        name: demand.name,
        range: demand.range,
        needed: demand.needed && !is_unmet,
    }
}

/// The names of optional dependencies that no version meets.
pub(crate) fn unmet_names<'v>(
    alloc: Global,
    manifests: &[Value],
    names: &[Listed<'v>],
    ranges: &[Range],
    demands: &[Demand],
) -> Result<Vec<&'v str>>
    ensures { IfOk result (λ unmet. map text unmet.items ≡ Optional.unmet_names manifests.now names.now ranges.now demands.now) }
{
    let mut unmet = Vec::new(alloc);
    for demand in demands {
        if is_unmet(manifests, names, ranges, *demand) {
            unmet.push(name_at(names, demand.name))?;
        }
    }
    Ok(unmet)
}

/// Returns `true` for a demand for an optional dependency that no version meets.
fn is_unmet(manifests: &[Value], names: &[Listed<'_>], ranges: &[Range], demand: Demand) -> bool
    ensures { result ≡ Optional.is_unmet manifests.now names.now ranges.now demand }
{
    demand.needed
        && !(is_met(ranges, demand.range) || is_required(manifests, name_at(names, demand.name)))
}

/// The name with this number.
fn name_at<'v>(names: &[Listed<'v>], number: usize) -> &'v str
    ensures { result.now ≡ Optional.name_at names.now number }
{
    match names.get(number) {
        Some(one) => one.name,
        None => "",
    }
}

/// Returns `true` if a version meets the range with this number.
fn is_met(ranges: &[Range], number: usize) -> bool
    ensures { result ≡ Optional.is_met ranges.now number }
{
    match ranges.get(number) {
        Some(range) => allows_some(&range.allowed),
        None => false,
    }
}

/// Returns `true` if a candidate is allowed.
fn allows_some(allowed: &[bool]) -> bool
    ensures { result ≡ list_any (λ one. one) allowed.now }
{
    allowed.iter().any(|one| *one)
}

/// Returns `true` if one of the manifests needs the name.
fn is_required(manifests: &[Value], name: &str) -> bool
    ensures { result ≡ Optional.is_required manifests.now name.now }
{
    manifests
        .iter()
        .any(|manifest| is_required_in(manifest, name))
}

/// Returns `true` if the manifest depends on the name, and not by `optionalDependencies` or as an optional peer.
fn is_required_in(manifest: &Value, name: &str) -> bool
    ensures { result ≡ Optional.is_required_in (view manifest.now) name.now }
{
    if is_in(manifest, "devDependencies", name) {
        return true;
    }
    if is_in(manifest, "optionalDependencies", name) {
        return false;
    }
    if is_in(manifest, "dependencies", name) {
        return true;
    }
    is_in(manifest, "peerDependencies", name) && !is_optional_peer(manifest, name)
}

/// Returns `true` if a group has the name.
fn is_in(manifest: &Value, group: &str, name: &str) -> bool
    ensures { result ≡ is_some (Asked.spec_in (view manifest.now) group.now name.now) }
{
    spec_in(manifest, group, name).is_some()
}

/// The spec of a name in a group.
fn spec_in<'v>(manifest: &'v Value, group: &str, name: &str) -> Option<&'v str>
    ensures { option_map (λ spec. spec.now) result ≡ Asked.spec_in (view manifest.now) group.now name.now }
{
    manifest.get(group)?.get(name)?.as_str()
}
