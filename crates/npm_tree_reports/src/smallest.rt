//! The smallest part of what a manifest asks for that cannot be met together.

use crate::Result;
use npm_tree_building::{Answer, Manifest, Options, Unmet, build};
use npm_trees::Document;
use serde_json::{Map, Value};
use std::alloc::Global;
use std::collections::BTreeMap;

/// So many dependencies are tried without each of them at most.
const MOST: usize = 100;

/// So many packages are placed at most in each try.
const STEPS: u64 = 100_000;

/// The groups of a manifest.
const GROUPS: [&str; 4] = [
    "dependencies",
    "devDependencies",
    "optionalDependencies",
    "peerDependencies",
];

/// Returns those of these dependencies of the root or of a workspace without any one of which the others can be met, and which cannot be
/// met together. Returns all if they are too many, or those of another package.
pub(crate) fn smallest<'d>(
    alloc: Global,
    manifests: &[Manifest<'_>],
    documents: &[Document<'_>],
    options: Options<'_>,
    at: &str,
    asks: Vec<Unmet<'d>>,
) -> Result<Vec<Unmet<'d>>> {
    let Some(manifest) = manifest_at(manifests, at) else {
        return Ok(asks);
    };
    if MOST < asks.len() {
        return Ok(asks);
    }
    let mut dropped = Vec::new(alloc);
    for ask in asks.iter().rev() {
        dropped.push(*ask)?;
        let value = without(alloc, manifest, &dropped)?;
        let all = replaced(alloc, &*manifests, at, &value)?;
        if !is_conflict(alloc, &all, &*documents, options, at)? {
            dropped.pop();
        }
    }
    others(alloc, &asks, &dropped)
}

/// Those that are not among others.
fn others<'d>(alloc: Global, asks: &[Unmet<'d>], dropped: &[Unmet<'d>]) -> Result<Vec<Unmet<'d>>> {
    let mut others = Vec::new(alloc);
    for ask in asks {
        if !is_among(dropped, ask.name) {
            others.push(*ask)?;
        }
    }
    Ok(others)
}

/// The manifest of the root or of a workspace.
fn manifest_at<'m>(manifests: &[Manifest<'m>], at: &str) -> Option<&'m Value> {
    for manifest in manifests {
        if manifest.at == at {
            return Some(manifest.value);
        }
    }
    None
}

/// The manifests, with another one in a place.
fn replaced<'m>(
    alloc: Global,
    manifests: &[Manifest<'m>],
    at: &str,
    value: &'m Value,
) -> Result<Vec<Manifest<'m>>> {
    let mut all = Vec::with_capacity(alloc, manifests.len())?;
    for manifest in manifests {
        all.push(Manifest {
            at: manifest.at,
            value: if manifest.at == at {
                value
            } else {
                manifest.value
            },
        })?;
    }
    Ok(all)
}

/// Returns `true` if what the manifest in a place asks for cannot be met.
fn is_conflict<'m>(
    alloc: Global,
    manifests: &'m [Manifest<'m>],
    documents: &'m [Document<'m>],
    options: Options<'m>,
    at: &str,
) -> Result<bool> {
    let mut options = options;
    options.total_steps = STEPS;
    match build(alloc, manifests, documents, None, options)? {
        Answer::Conflict(conflict) => Ok(conflict.at.as_str() == at),
        _ => Ok(false),
    }
}

/// A manifest without some dependencies.
fn without(alloc: Global, manifest: &Value, dropped: &[Unmet<'_>]) -> Result<Value> {
    let mut value = manifest.clone()?;
    if let Some(members) = value.as_object_mut() {
        drop_from(alloc, members, dropped)?;
    }
    Ok(value)
}

/// Takes dependencies out of the groups of a manifest.
fn drop_from(alloc: Global, members: &mut Map<String, Value>, dropped: &[Unmet<'_>]) -> Result<()> {
    for group in GROUPS {
        if let Some(kept) = kept_of(alloc, members, group, dropped)? {
            let name = String::from_str(alloc, group)?;
            members.insert(name, Value::Object(kept))?;
        }
    }
    Ok(())
}

/// A group without some dependencies.
fn kept_of(
    alloc: Global,
    members: &Map<String, Value>,
    group: &str,
    dropped: &[Unmet<'_>],
) -> Result<Option<Map<String, Value>>> {
    let Some(specs) = members.get(group).and_then(Value::as_object) else {
        return Ok(None);
    };
    let mut kept = BTreeMap::new(alloc);
    for (name, spec) in specs.iter() {
        if !is_among(dropped, name.as_str()) {
            let name = String::from_str(alloc, name.as_str())?;
            kept.insert(name, spec.clone()?)?;
        }
    }
    Ok(Some(kept))
}

fn is_among(asks: &[Unmet<'_>], name: &str) -> bool {
    for ask in asks {
        if ask.name == name {
            return true;
        }
    }
    false
}
