//! What the address of a package says: how it is asked, the name in the path of a registry, and the name of its file.
ghost use Rattle.std.specs.Prelude.{◌≡◌, false, option_map};
ghost use Rattle.npm_lock.specs.Addresses as Addresses;
ghost use Rattle.npm_lock.specs.Tarballs.{name_value};

use crate::tarball::{
    Name, before, before_query, before_slashes, front_of, name_at_end, parts_at_slash,
};
use npm_texts::rest_after;

/// Returns `true` if the address has this scheme, with letters of either case.
fn has_scheme(address: &str, scheme: &str) -> bool
    ensures { result ≡ Addresses.has_scheme scheme.now address.now }
{
    match address.split_once(':') {
        Some((said, _)) => said.eq_ignore_ascii_case(scheme),
        None => false,
    }
}

fn has_colon(address: &str) -> bool
    ensures { result ≡ Addresses.has_colon address.now }
{
    match address.split_once(':') {
        Some(_) => true,
        None => false,
    }
}

/// Returns `true` if the address is asked over a network: it has a scheme, and is no `file:`.
pub(crate) fn is_remote(address: &str) -> bool
    ensures { result ≡ Addresses.is_remote address.now }
{
    has_colon(address) && !has_scheme(address, "file")
}

/// Returns `true` if npm downloads a tarball.
pub(crate) fn is_download(address: &str) -> bool
    ensures { result ≡ Addresses.is_download address.now }
{
    has_scheme(address, "https") || has_scheme(address, "http")
}

/// Returns `true` if nothing is encrypted.
pub(crate) fn is_insecure(address: &str) -> bool
    ensures { result ≡ Addresses.is_insecure address.now }
{
    has_scheme(address, "http") || has_scheme(address, "git") || has_scheme(address, "git+http")
}

/// Returns `true` if the address is below that of a registry.
pub(crate) fn is_below(address: &str, registry: &str) -> bool
    ensures { result ≡ Addresses.is_below address.now registry.now }
{
    match path_below(address, registry) {
        Some(path) => !leads_up(path.as_bytes()),
        None => false,
    }
}

/// What comes after the address of a registry and a `/`.
fn path_below<'t>(address: &'t str, registry: &str) -> Option<&'t str>
    ensures { option_map (λ path. path.now) result ≡ Addresses.path_below address.now registry.now }
{
    rest_after(rest_after(address, before_slashes(registry))?, "/")
}

/// Returns `true` if a path may lead up anywhere.
fn leads_up(path: &[u8]) -> bool
    ensures { result ≡ Addresses.leads_up path.now }
{
    let mut left = path;
    'bytes: while let [_, rest @ ..] = left {
        if begins_up(left) {
            return true;
        }
        left = rest;
    }
    false
}

/// Returns `true` if a path begins with what leads up, or may do so.
fn begins_up(path: &[u8]) -> bool
    ensures { result ≡ Addresses.begins_up path.now }
{
    path.starts_with(b"..")
        || path.starts_with(b"\\")
        || path.starts_with(b"%2e")
        || path.starts_with(b"%2E")
}

/// The scope of a name without its `@`, which may be escaped.
fn scope_of<'t>(name: Name<'t>) -> Option<&'t str>
    ensures { option_map (λ scope. scope.now) result ≡ Addresses.scope_of (name_value name.entry) }
{
    match rest_after(name.scope, "@") {
        Some(scope) => Some(scope),
        None => rest_after(name.scope, "%40"),
    }
}

/// Returns `true` for two scopes that are the same, and for two names without one.
fn are_same_scopes(scope: Option<&str>, other: Option<&str>) -> bool
    ensures { result ≡ Addresses.are_same_scopes (option_map (λ text. text.now) scope.entry)
        (option_map (λ text. text.now) other.entry) }
{
    match (scope, other) {
        (None, None) => true,
        (Some(scope), Some(other)) => scope == other,
        _ => false,
    }
}

/// Returns `true` for the same name, whose `@` may be escaped.
pub(crate) fn is_same_name(name: Name<'_>, other: Name<'_>) -> bool
    ensures { result ≡ Addresses.is_same_name (name_value name.entry) (name_value other.entry) }
{
    name.project == other.project && are_same_scopes(scope_of(name), scope_of(other))
}

/// What comes before the query of an address, without slashes at its end.
fn path_of(address: &str) -> &str
    ensures { result.now ≡ Addresses.path_of address.now }
{
    before_slashes(before_query(address))
}

/// The path of a package in a registry, in which its files are in this folder.
fn package_path(folder: &str) -> Option<&str>
    ensures { option_map (λ path. path.now) result ≡ Addresses.package_path folder.now }
{
    match front_of(folder, "/-") {
        Some(path) => Some(path),
        None => above_scope(folder),
    }
}

/// The same, where the scope stands before the file too.
fn above_scope(folder: &str) -> Option<&str>
    ensures { option_map (λ path. path.now) result ≡ Addresses.above_scope folder.now }
{
    let (above, scope) = parts_at_slash(folder);
    if scope.starts_with("@") {
        front_of(above, "/-")
    } else {
        None
    }
}

/// The name that an address in a registry says.
pub(crate) fn registry_name(address: &str) -> Option<Name<'_>>
    ensures { option_map name_value result ≡ Addresses.registry_name address.now }
{
    let (folder, _) = parts_at_slash(path_of(address));
    Some(name_at_end(package_path(folder)?))
}

/// The name of an archive without its ending.
fn archive_stem(file: &str) -> Option<&str>
    ensures { option_map (λ stem. stem.now) result ≡ Addresses.archive_stem file.now }
{
    if let Some(stem) = front_of(file, ".tgz") {
        return Some(stem);
    }
    match front_of(file, ".tar.gz") {
        Some(stem) => Some(stem),
        None => front_of(file, ".tar"),
    }
}

/// The name of the archive that an address ends with, without its ending.
pub(crate) fn stem_in(address: &str) -> Option<&str>
    ensures { option_map (λ stem. stem.now) result ≡ Addresses.stem_in address.now }
{
    let (_, file) = parts_at_slash(path_of(address));
    archive_stem(rest_after(file, "file:").unwrap_or(file))
}

/// What comes after a name and `-`.
fn after_name<'t>(name: &str, stem: &'t str) -> Option<&'t str>
    ensures { option_map (λ text. text.now) result ≡ Addresses.after_name name.now stem.now }
{
    rest_after(rest_after(stem, name)?, "-")
}

/// What a file says of the version, if it has the name of the package.
pub(crate) fn version_in_file<'t>(name: Name<'_>, stem: &'t str) -> Option<&'t str>
    ensures { option_map (λ text. text.now) result ≡ Addresses.version_in_file (name_value name.entry) stem.now }
{
    match after_name(name.project, stem) {
        Some(version) => Some(version),
        None => after_name(name.project, after_name(scope_of(name)?, stem)?),
    }
}

/// Returns `true` if the name of a file is that of the package, with or without a version.
pub(crate) fn is_file_of(name: Name<'_>, stem: &str) -> bool
    ensures { result ≡ Addresses.is_file_of (name_value name.entry) stem.now }
{
    stem == name.project || version_in_file(name, stem).is_some()
}

/// Returns `true` if a `-` and a digit are in it.
pub(crate) fn has_number(stem: &[u8]) -> bool
    ensures { result ≡ Addresses.has_number false stem.now }
{
    let mut is_after_hyphen = false;
    for byte in stem {
        if is_after_hyphen && byte.is_ascii_digit() {
            return true;
        }
        is_after_hyphen = *byte == b'-';
    }
    false
}

/// A version without `v` at its start.
fn without_v(version: &str) -> &str
    ensures { result.now ≡ Addresses.without_v version.now }
{
    rest_after(version, "v").unwrap_or(version)
}

pub(crate) fn begins_with_digit(text: &str) -> bool
    ensures { result ≡ Addresses.begins_with_digit text.now }
{
    match without_v(text).as_bytes() {
        [first, ..] => first.is_ascii_digit(),
        [] => false,
    }
}

/// Returns `true` for the same version, whatever its build is.
pub(crate) fn is_same_version(version: &str, other: &str) -> bool
    ensures { result ≡ Addresses.is_same_version version.now other.now }
{
    without_build(version) == without_build(other)
}

fn without_build(version: &str) -> &str
    ensures { result.now ≡ Addresses.without_build version.now }
{
    before(without_v(version), '+')
}
