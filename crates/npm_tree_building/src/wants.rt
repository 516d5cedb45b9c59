//! What texts of dependencies want, and which versions they can have.

use crate::Result;
use crate::known::Known;
use crate::want::{Want, WantKey, WantKind, kind_of};
use npm_pick::{PickError, pick};
use npm_texts::{OF_DEPENDENCIES, installed_version, range_of, registry_spec};
use std::alloc::AllocError;

impl<'v> Known<'v> {
    /// Returns the number of what a dependency wants.
    pub(crate) fn want_of(&mut self, name: usize, spec: usize) -> Result<usize> {
        let found = registry_spec(self.texts.text(name), self.texts.text(spec));
        let (name, text, is_registered) = match found {
            Some(found) if found.text.is_empty() => (found.name, "*", true),
            Some(found) => (found.name, found.text, true),
            None => ("", "", false),
        };
        let key = WantKey {
            package: self.texts.number(name)?,
            text: self.texts.number(text)?,
        };
        if let Some(number) = self.by_want.get(&key) {
            return Ok(*number);
        }
        let want = self.read_want(key, text, is_registered)?;
        let number = self.wants.len();
        self.wants.push(want)?;
        self.by_want.insert(key, number)?;
        Ok(number)
    }

    fn read_want(&self, key: WantKey, text: &str, is_registered: bool) -> Result<Want> {
        let range = if is_registered {
            range_of(self.alloc, text, OF_DEPENDENCIES)?
        } else {
            None
        };
        let kind = kind_of(text, is_registered, range.is_some());
        Ok(Want {
            kind,
            package: key.package,
            text: key.text,
            is_any: text == "*",
            range,
            versions: None,
        })
    }

    /// Returns the version that is the first, the second and so on in npm's order, of those that a want can have.
    pub(crate) fn offered(&mut self, want: usize, place: usize) -> Result<Option<usize>> {
        let package = match self.wants.get(want) {
            Some(known) if known.is_registered() => match &known.versions {
                Some(versions) => return Ok(versions.get(place).copied()),
                None => known.package,
            },
            _ => return Ok(None),
        };
        let versions = match self.package_of(package)? {
            Some(number) => self.versions_for(want, number)?,
            None => Vec::new(self.alloc),
        };
        let found = versions.get(place).copied();
        match self.wants.get_mut(want) {
            Some(known) => known.versions = Some(versions),
            None => drop(versions),
        }
        Ok(found)
    }

    /// The versions of a package that a want can have, in npm's order.
    fn versions_for(&self, want: usize, package: usize) -> Result<Vec<usize>> {
        let mut versions = Vec::new(self.alloc);
        let Some(want) = self.wants.get(want) else {
            return Ok(versions);
        };
        match want.kind {
            WantKind::Range => self.add_ranged(&mut versions, want, package)?,
            WantKind::Version | WantKind::Tag => {
                if let Some(version) = self.picked(want, package)? {
                    versions.push(version)?;
                }
            }
            WantKind::Other => {}
        }
        Ok(versions)
    }

    /// Adds the versions in a range. The version of the default tag is in `*`, also if it is a prerelease.
    fn add_ranged(&self, versions: &mut Vec<usize>, want: &Want, package: usize) -> Result<()> {
        let Some(known) = self.packages.get(package) else {
            return Ok(());
        };
        for (place, number) in known.chosen.iter().enumerate() {
            let key = self.key(*number);
            let is_default = place == 0 && known.has_default && want.is_any;
            if is_default || want.admits(key) {
                versions.push(*number)?;
            }
        }
        Ok(())
    }

    /// The version that npm picks for a version or a tag.
    fn picked(&self, want: &Want, package: usize) -> Result<Option<usize>> {
        let Some(document) = self.document(want.package) else {
            return Ok(None);
        };
        let options = npm_pick::Options {
            default_tag: self.options.default_tag,
            before: self.options.before,
            avoid: None,
            avoid_strict: false,
            include_staged: false,
            node: match self.options.node {
                Some(text) => installed_version(text),
                None => None,
            },
            npm: None,
        };
        match pick(self.alloc, document, self.texts.text(want.text), &options) {
            Ok(picked) => Ok(self.version_with(package, picked.key)),
            Err(PickError::Memory) => Err(AllocError),
            Err(_) => Ok(None),
        }
    }
}
