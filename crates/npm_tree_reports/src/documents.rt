//! The documents of the packages that a tree can have.

use crate::Result;
use npm_overrides::Rules;
use npm_packages::asked_of;
use npm_pick_reports::LoadError;
use npm_texts::registry_spec;
use npm_tree_building::Manifest;
use npm_trees::Document;
use serde_json::Value;
use std::alloc::{AllocError, Global};
use std::collections::{BTreeSet, VecDeque};

/// The document of a package.
#[derive(Drop)]
pub(crate) struct Loaded {
    package: String,
    value: Value,
}

/// The packages that are asked for: those that are not read yet, and all.
#[derive(Drop)]
struct Packages {
    waiting: VecDeque<String>,
    seen: BTreeSet<String>,
}

/// Reads the document of each package that manifests or rules of `overrides` ask for, and of each that a version of these asks for, as
/// deep as they go, each once. `load` returns the document of a package, if there is one.
pub(crate) fn all_loaded<F: Fn(&str) -> Result<Option<Value>, LoadError>>(
    alloc: Global,
    manifests: &[Manifest<'_>],
    load: F,
) -> Result<Vec<Loaded>, LoadError>
    requires { F.IsAlwaysCallable load }
{
    let mut all = Vec::new(alloc);
    let mut packages = match first_packages(alloc, manifests) {
        Ok(packages) => packages,
        Err(_) => return Err(LoadError::Memory),
    };
    for _ in 0..u64::MAX {
        let Some(package) = packages.waiting.pop_front() else {
            return Ok(all);
        };
        if let Some(value) = load(package.as_str())? {
            if add_loaded(alloc, &mut all, &mut packages, Loaded { package, value }).is_err() {
                return Err(LoadError::Memory);
            }
        }
    }
    // No memory has so many names.
    Err(LoadError::Memory)
}

/// The documents by the names of their packages.
pub(crate) fn documents_of<'d>(alloc: Global, all: &'d [Loaded]) -> Result<Vec<Document<'d>>> {
    let mut documents = Vec::with_capacity(alloc, all.len())?;
    for one in all {
        documents.push(Document {
            name: one.package.as_str(),
            value: &one.value,
        })?;
    }
    Ok(documents)
}

/// What manifests and the rules of the root ask for.
fn first_packages(alloc: Global, manifests: &[Manifest<'_>]) -> Result<Packages> {
    let mut packages = Packages {
        waiting: VecDeque::new(alloc),
        seen: BTreeSet::new(alloc),
    };
    for manifest in manifests {
        packages.add_all(alloc, manifest.value, false)?;
    }
    if let Some(root) = manifests.first() {
        for rule in &Rules::read(alloc, root.value)?.list {
            if let Some(spec) = rule.value {
                packages.add(alloc, rule.name, spec)?;
            }
        }
    }
    Ok(packages)
}

/// Adds a document, and what its versions ask for.
fn add_loaded(
    alloc: Global,
    all: &mut Vec<Loaded>,
    packages: &mut Packages,
    one: Loaded,
) -> Result<()> {
    if let Some(versions) = one.value.get("versions").and_then(Value::as_object) {
        for (_, manifest) in versions.iter() {
            packages.add_all(alloc, manifest, true)?;
        }
    }
    match all.push(one) {
        Ok(()) => Ok(()),
        Err(_) => Err(AllocError),
    }
}

impl Packages {
    /// Adds what a manifest asks for.
    fn add_all(&mut self, alloc: Global, manifest: &Value, is_installed: bool) -> Result<()> {
        for (name, asked) in asked_of(alloc, manifest, is_installed)?.iter() {
            self.add(alloc, *name, asked.spec)?;
        }
        Ok(())
    }

    /// Adds the package of a dependency, unless it was seen before or is in no registry.
    fn add(&mut self, alloc: Global, name: &str, spec: &str) -> Result<()> {
        let Some(request) = registry_spec(name, spec) else {
            return Ok(());
        };
        if self.seen.contains(request.name) {
            return Ok(());
        }
        let seen = String::from_str(alloc, request.name)?;
        self.seen.insert(seen)?;
        let waiting = String::from_str(alloc, request.name)?;
        match self.waiting.push_back(waiting) {
            Ok(()) => Ok(()),
            Err(_) => Err(AllocError),
        }
    }
}
