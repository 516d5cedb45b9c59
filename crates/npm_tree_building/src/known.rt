//! What is known of packages: their versions, and what texts want of them.

use crate::Result;
use crate::lessons::Lessons;
use crate::options::Options;
use crate::texts::Texts;
use crate::want::{Want, WantKey};
use npm_overrides::Rules;
use npm_trees::Document;
use serde_json::{Map, Value};
use std::alloc::Global;
use std::collections::BTreeMap;

/// A version of a package, or the manifest of the root or of a workspace.
#[derive(Clone, Copy, Drop)]
pub(crate) struct Version<'v> {
    /// The number of the package's name in the registry.
    pub(crate) package: usize,
    pub(crate) key: &'v str,
    pub(crate) manifest: &'v Value,
}

/// The versions of a package.
#[derive(Drop)]
pub(crate) struct Package {
    /// The versions of its document, by number, in the order of their bytes.
    pub(crate) from: usize,
    pub(crate) to: usize,
    /// Those that can be chosen, in npm's order.
    pub(crate) chosen: Vec<usize>,
    /// The first of these is the one that the default tag names. It is in `*`, also if it is a prerelease.
    pub(crate) has_default: bool,
}

/// What is known, whatever the tree is.
#[derive(Drop)]
pub(crate) struct Known<'v> {
    pub(crate) alloc: Global,
    pub(crate) options: Options<'v>,
    pub(crate) documents: &'v [Document<'v>],
    /// The document of each package.
    pub(crate) by_package: BTreeMap<&'v str, usize>,
    /// The packages of an older lock file.
    pub(crate) lock: Option<&'v Map<String, Value>>,
    pub(crate) texts: Texts<'v>,
    pub(crate) versions: Vec<Version<'v>>,
    pub(crate) packages: Vec<Package>,
    /// The package of a name that was asked for; `None` if it has no document.
    pub(crate) by_name: BTreeMap<usize, Option<usize>>,
    pub(crate) wants: Vec<Want>,
    pub(crate) by_want: BTreeMap<WantKey, usize>,
    pub(crate) rules: Rules<'v>,
    pub(crate) lessons: Lessons,
}

impl<'v> Known<'v> {
    pub(crate) fn new(
        alloc: Global,
        options: Options<'v>,
        documents: &'v [Document<'v>],
        lock: Option<&'v Map<String, Value>>,
        rules: Rules<'v>,
    ) -> Result<Known<'v>> {
        let mut by_package = BTreeMap::new(alloc);
        for (number, document) in documents.iter().enumerate() {
            by_package.insert(document.name, number)?;
        }
        Ok(Known {
            alloc,
            options,
            documents,
            by_package,
            lock,
            texts: Texts::new(alloc),
            versions: Vec::new(alloc),
            packages: Vec::new(alloc),
            by_name: BTreeMap::new(alloc),
            wants: Vec::new(alloc),
            by_want: BTreeMap::new(alloc),
            rules,
            lessons: Lessons::new(alloc),
        })
    }

    /// Returns the document of a package, by the number of its name.
    pub(crate) fn document(&self, name: usize) -> Option<&'v Value> {
        let number = self.by_package.get(&self.texts.text(name))?;
        let documents = self.documents;
        match documents.get(*number) {
            Some(document) => Some(document.value),
            None => None,
        }
    }

    /// Adds a version, and returns its number.
    pub(crate) fn add_version(
        &mut self,
        package: usize,
        key: &'v str,
        manifest: &'v Value,
    ) -> Result<usize> {
        let number = self.versions.len();
        self.versions.push(Version {
            package,
            key,
            manifest,
        })?;
        Ok(number)
    }
}
