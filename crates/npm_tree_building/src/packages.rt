//! The versions of packages.

use crate::Result;
use crate::known::{Known, Package};
use npm_pick::versions_of;
use npm_resolve::{Candidate, candidates_of};
use npm_texts::installed_version;
use serde_json::Value;

impl<'v> Known<'v> {
    /// Returns the number of the package with a name, if it has a document.
    pub(crate) fn package_of(&mut self, name: usize) -> Result<Option<usize>> {
        if let Some(package) = self.by_name.get(&name) {
            return Ok(*package);
        }
        let package = match self.document(name) {
            Some(document) => Some(self.add_package(name, document)?),
            None => None,
        };
        self.by_name.insert(name, package)?;
        Ok(package)
    }

    /// Adds the versions of a document.
    fn add_package(&mut self, name: usize, document: &'v Value) -> Result<usize> {
        let from = self.versions.len();
        if let Some(versions) = versions_of(document) {
            for (key, manifest) in versions.iter() {
                self.add_version(name, key.as_str(), manifest)?;
            }
        }
        let to = self.versions.len();
        let candidates = self.candidates(document)?;
        let package = Package {
            from,
            to,
            chosen: self.numbers_of(&candidates, from, to)?,
            has_default: has_default(&candidates),
        };
        let number = self.packages.len();
        self.packages.push(package)?;
        Ok(number)
    }

    /// The numbers of candidates.
    fn numbers_of(
        &self,
        candidates: &[Candidate<'v>],
        from: usize,
        to: usize,
    ) -> Result<Vec<usize>> {
        let mut chosen = Vec::with_capacity(self.alloc, candidates.len())?;
        for candidate in candidates {
            if let Some(number) = self.number_in(from, to, candidate.key) {
                chosen.push(number)?;
            }
        }
        Ok(chosen)
    }

    /// The versions of a document that can be chosen, in npm's order.
    fn candidates(&self, document: &'v Value) -> Result<Vec<Candidate<'v>>> {
        let node = match self.options.node {
            Some(text) => installed_version(text),
            None => None,
        };
        let options = npm_resolve::Options {
            default_tag: self.options.default_tag,
            before: self.options.before,
            node: node.as_ref(),
            is_lowest: false,
            lock: None,
        };
        candidates_of(self.alloc, document, &options)
    }

    /// Returns the number of the version with this key among those of a package.
    fn number_in(&self, from: usize, to: usize, key: &str) -> Option<usize> {
        let mut low = from;
        let mut high = to;
        for _ in 0..64 {
            if low >= high {
                return None;
            }
            let middle = low.saturating_add(high.saturating_sub(low) / 2);
            let here = self.key(middle);
            if here == key {
                return Some(middle);
            }
            if here < key {
                low = middle.saturating_add(1);
            } else {
                high = middle;
            }
        }
        None
    }

    /// Returns the number of the version of a package with this key, if its document has one.
    pub(crate) fn version_with(&self, package: usize, key: &str) -> Option<usize> {
        let package = self.packages.get(package)?;
        self.number_in(package.from, package.to, key)
    }
}

/// Returns `true` if the default tag names the first candidate.
fn has_default(candidates: &[Candidate<'_>]) -> bool {
    match candidates.first() {
        Some(candidate) => candidate.is_default,
        None => false,
    }
}
