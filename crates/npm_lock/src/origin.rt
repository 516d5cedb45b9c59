//! What a lock file says of where a package comes from.
ghost use Rattle.std.specs.Prelude.{◌≡◌, option_map};
ghost use Rattle.std.specs.Option.{option_or};
ghost use Rattle.serde_json.specs.View.{view};
ghost use Rattle.npm_packages.specs.PackageValue.{package_value};
ghost use Rattle.npm_packages.specs.Folders as Folders;
ghost use Rattle.npm_lock.specs.Addresses as Addresses;
ghost use Rattle.npm_lock.specs.Origins as Origins;
ghost use Rattle.npm_lock.specs.Origins.{has_own, origin_value};
ghost use Rattle.npm_lock.specs.Tarballs.{name_value};

use crate::address::{is_file_of, is_same_name, version_in_file};
use crate::identity::{registry_text, text_in};
use crate::tarball::{Name, name_at_end, parts_at_slash};
use npm_packages::Package;
use npm_texts::{Spec, aliased_name, ends_with, has_true, spec_of};
use serde_json::Value;

/// What a lock file says of the package in a folder.
#[derive(Clone, Copy, Drop)]
pub(crate) struct Origin<'v> {
    pub folder: &'v str,
    /// The name behind an alias.
    pub alias: Option<&'v str>,
    pub version: Option<&'v str>,
    /// Where npm looks for it.
    pub address: Option<&'v str>,
    pub has_integrity: bool,
    pub is_bundled: bool,
}

impl<'v> Origin<'v> {
    /// What a file of version 2 or 3 says of a package.
    pub(crate) fn of(placed: Package<'v>) -> Origin<'v>
        ensures { origin_value result ≡ Origins.origin_of (package_value placed.entry) }
    {
        let member = placed.member;
        Origin {
            folder: placed.folder,
            alias: text_in(member, "name"),
            version: text_in(member, "version"),
            address: text_in(member, "resolved"),
            has_integrity: has_sum(member),
            is_bundled: has_true(member, "inBundle"),
        }
    }

    /// What a file of version 1 says of a package.
    pub(crate) fn of_old(placed: Package<'v>) -> Origin<'v>
        ensures { origin_value result ≡ Origins.old_origin_of (package_value placed.entry) }
    {
        let entry = placed.member;
        Origin {
            folder: placed.folder,
            alias: old_alias(entry),
            version: old_version(entry),
            address: old_address(entry),
            has_integrity: has_sum(entry),
            is_bundled: has_true(entry, "bundled"),
        }
    }

    /// Returns `true` if the package has this name.
    pub(crate) fn is_named(self, name: Name<'_>) -> bool
        ensures { result ≡ has_own (Addresses.is_same_name (name_value name.entry)) (origin_value self.entry) }
    {
        is_same_name(name, name_at_end(self.folder))
            || match self.alias {
                Some(alias) => is_same_name(name, name_at_end(alias)),
                None => false,
            }
    }

    /// Returns `true` if the name of a file is that of the package.
    pub(crate) fn has_file(self, stem: &str) -> bool
        ensures { result ≡ has_own (λ name. Addresses.is_file_of name stem.now) (origin_value self.entry) }
    {
        is_file_of(name_at_end(self.folder), stem)
            || match self.alias {
                Some(alias) => is_file_of(name_at_end(alias), stem),
                None => false,
            }
    }

    /// What the name of a file says of the version, if it is that of the package.
    pub(crate) fn said_in_file<'t>(self, stem: &'t str) -> Option<&'t str>
        ensures { option_map (λ text. text.now) result ≡ Origins.said_in_file (origin_value self.entry) stem.now }
    {
        match version_in_file(name_at_end(self.folder), stem) {
            Some(version) => Some(version),
            None => version_in_file(name_at_end(self.alias?), stem),
        }
    }
}

/// Returns `true` for the folder of a package that npm installs: it is in some `node_modules`, under a name.
pub(crate) fn is_placed(folder: &str) -> bool
    ensures { result ≡ Origins.is_placed folder.now }
{
    let (above, _) = parts_at_slash(folder);
    if is_modules(above) {
        return true;
    }
    let (above, scope) = parts_at_slash(above);
    scope.starts_with("@") && is_modules(above)
}

/// Returns `true` for a folder that holds packages.
fn is_modules(folder: &str) -> bool
    ensures { result ≡ Folders.is_modules folder.now }
{
    folder == "node_modules" || ends_with(folder, "/node_modules")
}

/// Returns `true` if the file has a sum of the tarball.
fn has_sum(entry: &Value) -> bool
    ensures { result ≡ Origins.has_sum (view entry.now) }
{
    match text_in(entry, "integrity") {
        Some(text) => is_sum(text),
        None => false,
    }
}

/// Returns `true` for a sum of which npm knows the algorithm.
fn is_sum(text: &str) -> bool
    ensures { result ≡ Origins.is_sum text.now }
{
    text.starts_with("sha512-")
        || text.starts_with("sha384-")
        || text.starts_with("sha256-")
        || text.starts_with("sha1-")
}

/// The name behind an alias.
fn old_alias(entry: &Value) -> Option<&str>
    ensures { option_map (λ name. name.now) result ≡ Origins.old_alias (view entry.now) }
{
    aliased_name(text_in(entry, "version")?)
}

/// The version, which an alias may say.
fn old_version(entry: &Value) -> Option<&str>
    ensures { option_map (λ version. version.now) result ≡ Origins.old_version (view entry.now) }
{
    registry_text(text_in(entry, "version")?)
}

/// The address that `version` is.
fn address_in_version(entry: &Value) -> Option<&str>
    ensures { option_map (λ address. address.now) result ≡ Origins.address_in_version (view entry.now) }
{
    let text = text_in(entry, "version")?;
    match spec_of(text) {
        Spec::Location => Some(text),
        Spec::Text(_) | Spec::Refused => None,
    }
}

/// Where npm looks for a package.
fn old_address(entry: &Value) -> Option<&str>
    ensures { option_map (λ address. address.now) result ≡ Origins.old_address (view entry.now) }
{
    let (resolved, said) = (text_in(entry, "resolved"), address_in_version(entry));
    if has_sum(entry) {
        either(said, resolved)
    } else {
        either(resolved, said)
    }
}

/// The first text, or else the other.
fn either<'t>(first: Option<&'t str>, other: Option<&'t str>) -> Option<&'t str>
    ensures { option_map (λ text. text.now) result
        ≡ option_or (option_map (λ text. text.now) first.entry) (option_map (λ text. text.now) other.entry) }
{
    match first {
        Some(text) => Some(text),
        None => other,
    }
}
