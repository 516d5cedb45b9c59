//! Which package a lock file of version 1 has in a folder: its name and its version.
ghost use Rattle.std.specs.Prelude.{◌≡◌, IfOk, option_and_then, option_map, string_bytes};
ghost use Rattle.std.specs.Char.{is_ascii_lowercase};
ghost use Rattle.std.specs.List.{list_all};
ghost use Rattle.serde_json.specs.View.{view};
ghost use Rattle.npm_texts.specs.RangeText as RangeText;
ghost use Rattle.npm_texts.specs.RangeText.{aliased_name};
ghost use Rattle.npm_lock.specs.Identity as Identity;
ghost use Rattle.npm_lock.specs.Tarballs as Tarballs;
ghost use Rattle.npm_lock.specs.Tarballs.{tarball_value};

use crate::Result;
use crate::tarball::{Tarball, tarball_at};
use npm_texts::{Spec, aliased_name, copied, has_true, spec_of};
use serde_json::Value;
use std::alloc::Global;

/// Returns the name of the package in a folder, if its tarball says one or it is an alias.
#[tactic(auto, unfolding(crate::specs::Identity::name_in))]
pub(crate) fn name_in(alloc: Global, folder: &str, entry: &Value) -> Result<Option<String>>
    ensures { IfOk result (λ name. option_map string_bytes name ≡ Identity.name_in folder.now (view entry.now)) }
{
    match tarball_in(folder, entry) {
        Some(tarball) => Ok(Some(tarball.name.text(alloc)?)),
        None => copied(alloc, alias_in(entry)),
    }
}

/// The name of the package behind an alias: `a` of `npm:a@1.0.0`.
fn alias_in(entry: &Value) -> Option<&str>
    ensures { option_map (λ name. name.now) result
        ≡ option_and_then aliased_name (Identity.said_in (view entry.now)) }
{
    aliased_name(said_in(entry)?)
}

/// Returns the version of the package in a folder: that of its tarball, or that of `npm:NAME@VERSION`. A repository, a folder, and a
/// tarball whose address does not say its version have none.
#[tactic(auto, unfolding(crate::specs::Identity::version_in))]
pub(crate) fn version_in<'v>(folder: &'v str, entry: &'v Value) -> Option<&'v str>
    ensures { option_map (λ version. version.now) result ≡ Identity.version_in folder.now (view entry.now) }
{
    match tarball_in(folder, entry) {
        Some(tarball) => Some(tarball.version),
        None => registry_text(said_in(entry)?),
    }
}

/// What says the version: `version`, or `from` if there is neither that nor `resolved`.
fn said_in(entry: &Value) -> Option<&str>
    ensures { option_map (λ text. text.now) result ≡ Identity.said_in (view entry.now) }
{
    if has_true(entry, "version") || has_true(entry, "resolved") {
        text_in(entry, "version")
    } else {
        text_in(entry, "from")
    }
}

/// The package in the tarball that is installed in a folder.
fn tarball_in<'v>(folder: &'v str, entry: &'v Value) -> Option<Tarball<'v>>
    ensures { option_map tarball_value result ≡ Identity.tarball_in folder.now (view entry.now) }
{
    match tarball_of_origin(folder, entry) {
        Some(tarball) => Some(tarball),
        None => tarball_at(text_in(entry, "version")?, folder),
    }
}

/// The package in the tarball where npm looks for it, if that is not its `version`.
fn tarball_of_origin<'v>(folder: &'v str, entry: &'v Value) -> Option<Tarball<'v>>
    ensures { option_map tarball_value result
        ≡ option_and_then (λ address. Tarballs.tarball_at address folder.now) (Identity.origin_in (view entry.now)) }
{
    tarball_at(origin_in(entry)?, folder)
}

/// Where npm looks for a package that has no `version`, or one that is not confirmed.
fn origin_in(entry: &Value) -> Option<&str>
    ensures { option_map (λ address. address.now) result ≡ Identity.origin_in (view entry.now) }
{
    if has_true(entry, "version") && is_confirmed(entry) {
        None
    } else if has_true(entry, "resolved") {
        text_in(entry, "resolved")
    } else {
        text_in(entry, "from")
    }
}

/// Returns `true` if `integrity` or `from` confirms the `version` of a package.
fn is_confirmed(entry: &Value) -> bool
    ensures { result ≡ Identity.is_confirmed (view entry.now) }
{
    has_true(entry, "integrity") || (has_true(entry, "from") && !is_from_elsewhere(entry))
}

/// Returns `true` if `from` leads to no registry.
fn is_from_elsewhere(entry: &Value) -> bool
    ensures { result ≡ Identity.is_from_elsewhere (view entry.now) }
{
    match text_in(entry, "from") {
        Some(from) => is_elsewhere(from),
        None => false,
    }
}

/// Returns `true` for a URL, a repository, a file and a folder. npm reads none that it refuses.
fn is_elsewhere(spec: &str) -> bool
    ensures { result ≡ Identity.is_elsewhere spec.now (RangeText.spec_of spec.now) }
{
    match spec_of(spec) {
        Spec::Location => !is_unknown_url(spec),
        Spec::Text(_) | Spec::Refused => false,
    }
}

/// Returns `true` for a URL of a scheme that npm does not know: `workspace:^`.
fn is_unknown_url(spec: &str) -> bool
    ensures { result ≡ Identity.is_unknown_url spec.now }
{
    match spec.split_once(':') {
        Some((scheme, _)) => is_unknown_scheme(scheme),
        None => false,
    }
}

/// Returns `true` for two small letters or more that are no scheme which npm knows.
fn is_unknown_scheme(scheme: &str) -> bool
    ensures { result ≡ Identity.is_unknown_scheme scheme.now }
{
    scheme.len() > 1 && are_small_letters(scheme) && !is_known_scheme(scheme)
}

fn are_small_letters(text: &str) -> bool
    ensures { result ≡ list_all is_ascii_lowercase text.now }
{
    text.bytes().all(|byte| byte.is_ascii_lowercase())
}

/// Returns `true` for the schemes of URLs, files and repositories.
fn is_known_scheme(scheme: &str) -> bool
    ensures { result ≡ Identity.is_known_scheme scheme.now }
{
    match scheme {
        "http" | "https" | "file" | "git" | "ssh" => true,
        "bitbucket" | "gist" | "github" | "gitlab" | "sourcehut" => true,
        _ => false,
    }
}

/// The text of a spec that names a version of a registry.
pub(crate) fn registry_text(spec: &str) -> Option<&str>
    ensures { option_map (λ text. text.now) result ≡ Identity.registry_text (RangeText.spec_of spec.now) }
{
    match spec_of(spec) {
        Spec::Text(text) => Some(text),
        Spec::Location | Spec::Refused => None,
    }
}

/// A member that is a text.
pub(crate) fn text_in<'v>(entry: &'v Value, key: &str) -> Option<&'v str>
    ensures { option_map (λ text. text.now) result ≡ Identity.text_in key.now (view entry.now) }
{
    entry.get(key)?.as_str()
}
