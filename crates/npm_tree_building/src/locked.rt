//! What an older lock file has for a dependency.

use crate::Result;
use crate::ask::Ask;
use crate::builder::Builder;
use npm_packages::{is_link, place_text};
use serde_json::{Map, Value};

impl<'v> Builder<'v> {
    /// Returns the version that the older lock file has for a dependency, if it meets it, and the place in whose folder.
    pub(crate) fn locked(&mut self, ask: Ask) -> Result<Option<(usize, usize)>> {
        let Some(packages) = self.known.lock else {
            return Ok(None);
        };
        if ask.more_from != ask.more_to || !self.known.is_registered(ask.want) {
            return Ok(None);
        }
        let mut at = Some(ask.from);
        let name = self.known.texts.text(ask.name);
        for _ in 0..self.tree.places.len() {
            let Some(place) = at else {
                return Ok(None);
            };
            let folder = place_text(self.known.alloc, self.tree.folder(place), name)?;
            if let Some(package) = package_at(packages, folder.as_str()) {
                return match self.locked_version(ask, package)? {
                    Some(version) => Ok(Some((version, place))),
                    None => Ok(None),
                };
            }
            at = self.tree.place(place).up;
        }
        Ok(None)
    }

    /// The version of a package of the older lock file, if it meets a dependency.
    fn locked_version(&mut self, ask: Ask, package: &'v Value) -> Result<Option<usize>> {
        let wanted = self.known.wanted_package(ask.want);
        let Some(number) = self.known.package_of(wanted)? else {
            return Ok(None);
        };
        let Some(key) = package.get("version").and_then(Value::as_str) else {
            return Ok(None);
        };
        let name = match package.get("name").and_then(Value::as_str) {
            Some(name) if !name.is_empty() => name,
            _ => self.known.texts.text(ask.name),
        };
        if name != self.known.texts.text(wanted) {
            return Ok(None);
        }
        match self.known.version_with(number, key) {
            Some(version) if self.is_met_by_version(ask, version) => Ok(Some(version)),
            _ => Ok(None),
        }
    }

    /// Returns `true` if a version from a registry is one that a dependency wants.
    fn is_met_by_version(&self, ask: Ask, version: usize) -> bool {
        match self.known.wants.get(ask.want) {
            Some(want) => want.is_met_by(self.known.key(version), true),
            None => false,
        }
    }
}

/// Returns the package of a lock file in a folder, unless it is a link.
fn package_at<'v>(packages: &'v Map<String, Value>, folder: &str) -> Option<&'v Value> {
    match packages.get(folder) {
        Some(package) if !is_link(package) => Some(package),
        _ => None,
    }
}
