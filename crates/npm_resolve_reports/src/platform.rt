//! For which systems a package is.
ghost use Rattle.std.specs.Prelude.{◌≡◌, option_and_then, option_map};
ghost use Rattle.serde_json.specs.View.{items_view, view};
ghost use Rattle.npm_resolve_reports.specs.Systems as Systems;
ghost use Rattle.npm_resolve_reports.specs.Systems.{text_value, unfit_value};

use npm_texts::rest_after;
use serde_json::Value;
use std::slice;

/// The system that packages are installed on. What is `None` is not known, and then each package fits.
#[derive(Clone, Copy, Drop)]
pub struct Platform<'p> {
    /// As Node's `process.platform`: `linux`.
    pub os: Option<&'p str>,
    /// As Node's `process.arch`: `x64`.
    pub cpu: Option<&'p str>,
    /// `glibc` or `musl`.
    pub libc: Option<&'p str>,
}

/// What a package does not fit: a member of its manifest, and the system.
#[derive(Clone, Copy, Drop)]
pub(crate) struct Unfit<'p> {
    pub(crate) member: &'static str,
    pub(crate) system: &'p str,
}

impl<'p> Platform<'p> {
    /// Returns the first of `os`, `cpu` and `libc` of a manifest that does not admit the platform.
    pub(crate) fn unfit(self, manifest: &Value) -> Option<Unfit<'p>>
        ensures { option_map unfit_value result ≡ Systems.unfit_of self.entry (view manifest.now) }
    {
        if let Some(unfit) = unfit_in(manifest, "os", self.os) {
            return Some(unfit);
        }
        if let Some(unfit) = unfit_in(manifest, "cpu", self.cpu) {
            return Some(unfit);
        }
        unfit_in(manifest, "libc", self.libc)
    }
}

/// The member of a manifest, if it does not admit the system.
fn unfit_in<'p>(
    manifest: &Value,
    member: &'static str,
    system: Option<&'p str>,
) -> Option<Unfit<'p>>
    ensures { option_map unfit_value result ≡ Systems.unfit_in (view manifest.now) member.now (text_value system.entry) }
{
    let system = system?;
    let list = manifest.get(member)?;
    if admits(list, system) {
        None
    } else {
        Some(Unfit { member, system })
    }
}

/// Returns `true` if a list of systems admits a system.
fn admits(list: &Value, system: &str) -> bool
    ensures { result ≡ Systems.admits system.now (Systems.entries_of (view list.now)) }
{
    admits_in(entries_of(list), system)
}

/// The items of a list, or a value alone.
fn entries_of(list: &Value) -> &[Value]
    ensures { items_view result.now ≡ Systems.entries_of (view list.now) }
{
    match list.as_array() {
        Some(entries) => entries.as_slice(),
        None => slice::from_ref(list),
    }
}

/// Returns `true` if entries admit a system.
fn admits_in(entries: &[Value], system: &str) -> bool
    ensures { result ≡ Systems.admits system.now (items_view entries.now) }
{
    !some_forbids(entries, system) && (some_names(entries, system) || !some_is_plain(entries))
}

/// Returns `true` if an entry forbids the system.
fn some_forbids(entries: &[Value], system: &str) -> bool
    ensures { result ≡ Systems.some_item (Systems.forbids system.now) (items_view entries.now) }
{
    for entry in entries {
        if forbids(entry, system) {
            return true;
        }
    }
    false
}

/// Returns `true` if an entry names the system.
fn some_names(entries: &[Value], system: &str) -> bool
    ensures { result ≡ Systems.some_item (Systems.names system.now) (items_view entries.now) }
{
    for entry in entries {
        if names(entry, system) {
            return true;
        }
    }
    false
}

/// Returns `true` if an entry names any system.
fn some_is_plain(entries: &[Value]) -> bool
    ensures { result ≡ Systems.some_item Systems.is_plain (items_view entries.now) }
{
    for entry in entries {
        if is_plain(entry) {
            return true;
        }
    }
    false
}

/// Returns `true` for the name of a system.
fn names(entry: &Value, system: &str) -> bool
    ensures { result ≡ Systems.names system.now (view entry.now) }
{
    match entry.as_str() {
        Some(text) => text == system || text == "any",
        None => false,
    }
}

/// Returns `true` for the name of a system behind `!`.
fn forbids(entry: &Value, system: &str) -> bool
    ensures { result ≡ Systems.forbids system.now (view entry.now) }
{
    match entry.as_str() {
        Some(text) => match rest_after(text, "!") {
            Some(rest) => rest == system,
            None => false,
        },
        None => false,
    }
}

/// Returns `true` for the name of a system without `!`.
fn is_plain(entry: &Value) -> bool
    ensures { result ≡ Systems.is_plain (view entry.now) }
{
    match entry.as_str() {
        Some(text) => rest_after(text, "!").is_none(),
        None => false,
    }
}
