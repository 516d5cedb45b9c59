//! Members of JSON objects.
ghost use Rattle.std.specs.Prelude.{◌≡◌, IfSome, is_some, option_map};
ghost use Rattle.serde_json.specs.View.{members_view, view};
ghost use Rattle.npm_pick.specs.Packument as Documents;

use serde_json::{Map, Value};

/// The members of `versions`.
pub fn versions_of(packument: &Value) -> Option<&Map<String, Value>>
    ensures { option_map (λ members. members_view members.now.entries) result
        ≡ Documents.versions_of (view packument.now) }
{
    packument.get("versions")?.as_object()
}

/// The staged versions, with `include_staged`.
pub(crate) fn staged_of(packument: &Value, include_staged: bool) -> Option<&Map<String, Value>>
    ensures { option_map (λ members. members_view members.now.entries) result
        ≡ Documents.staged_of include_staged (view packument.now) }
{
    if include_staged {
        versions_of(packument.get("stagedVersions")?)
    } else {
        None
    }
}

/// The versions that a policy restricts.
pub(crate) fn restricted_of(packument: &Value) -> Option<&Map<String, Value>>
    ensures { option_map (λ members. members_view members.now.entries) result
        ≡ Documents.restricted_of (view packument.now) }
{
    versions_of(packument.get("policyRestrictions")?)
}

/// The manifest of a version in such a list, and its key there.
pub(crate) fn release_in<'v>(
    listed: Option<&'v Map<String, Value>>,
    key: &str,
) -> Option<(&'v str, &'v Value)>
    ensures key { IfSome result (λ release. release.0.now ≡ key.now) }
    ensures manifest { option_map (λ release. view release.1.now) result ≡ Documents.manifest_in
        (option_map (λ members. members_view members.now.entries) listed.entry) key.now }
{
    match listed?.get_key_value(key) {
        Some((key, manifest)) => Some((key.as_str(), manifest)),
        None => None,
    }
}

/// Returns `true` if such a list has the version.
pub(crate) fn is_listed(listed: Option<&Map<String, Value>>, key: &str) -> bool
    ensures { result ≡ is_some (Documents.manifest_in
        (option_map (λ members. members_view members.now.entries) listed.entry) key.now) }
{
    release_in(listed, key).is_some()
}

/// Returns `true` if a policy restricts the version.
pub fn is_restricted(packument: &Value, key: &str) -> bool
    ensures { result ≡ Documents.is_restricted (view packument.now) key.now }
{
    is_listed(restricted_of(packument), key)
}

/// The manifest of a version that can be picked, and its key.
pub(crate) fn candidate_of<'v>(
    packument: &'v Value,
    include_staged: bool,
    key: &str,
) -> Option<(&'v str, &'v Value)>
    ensures key { IfSome result (λ release. release.0.now ≡ key.now) }
    ensures manifest { option_map (λ release. view release.1.now) result
        ≡ Documents.candidate_of include_staged (view packument.now) key.now }
{
    if let Some(release) = release_in(versions_of(packument), key) {
        return Some(release);
    }
    if let Some(release) = release_in(staged_of(packument, include_staged), key) {
        return Some(release);
    }
    release_in(restricted_of(packument), key)
}

/// The version that a tag names.
pub fn tagged<'v>(packument: &'v Value, tag: &str) -> Option<&'v str>
    ensures { option_map (λ key. key.now) result ≡ Documents.tagged (view packument.now) tag.now }
{
    packument.get("dist-tags")?.get(tag)?.as_str()
}
