//! What is known of versions and of wants, by their numbers.

use crate::known::{Known, Version};
use node_semver::OrderedVersion;
use npm_texts::installed_version;

impl<'v> Known<'v> {
    /// Returns the version with a number.
    pub(crate) fn version(&self, number: usize) -> Option<Version<'v>> {
        match self.versions.get(number) {
            Some(version) => Some(*version),
            None => None,
        }
    }

    /// Returns the text of a version.
    pub(crate) fn key(&self, number: usize) -> &'v str {
        match self.versions.get(number) {
            Some(version) => version.key,
            None => "",
        }
    }

    /// Returns the number of the name of a version's package.
    pub(crate) fn package_name(&self, number: usize) -> usize {
        match self.versions.get(number) {
            Some(version) => version.package,
            None => usize::MAX,
        }
    }

    /// Returns the number of the name of the package that is wanted.
    pub(crate) fn wanted_package(&self, want: usize) -> usize {
        match self.wants.get(want) {
            Some(want) => want.package,
            None => usize::MAX,
        }
    }

    /// Returns `true` if a version is below another one.
    pub(crate) fn is_below(&self, number: usize, other: usize) -> bool {
        let Some(version) = installed_version(self.key(number)) else {
            return false;
        };
        match installed_version(self.key(other)) {
            Some(other) => version.cmp_version(&other).is_lt(),
            None => false,
        }
    }

    /// Returns `true` if a registry has what is wanted.
    pub(crate) fn is_registered(&self, want: usize) -> bool {
        match self.wants.get(want) {
            Some(want) => want.is_registered(),
            None => false,
        }
    }
}
