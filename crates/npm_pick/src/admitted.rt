//! The keys of a document that ranges admit.
ghost use Rattle.std.specs.Prelude.{◌≡◌, ◌↔◌, IfNone, IfOk, IfSome, IsTrue, map, option_map, string_bytes};
ghost use Rattle.serde_json.specs.View.{members_view, view};
ghost use Rattle.node_semver.specs.Versions.{VersionValue};
ghost use Rattle.npm_texts.specs.InstalledVersions.{IsInstalledVersion};
ghost use Rattle.npm_texts.specs.RangeText as RangeText;
ghost use Rattle.npm_pick.specs.Kept.{IsInSome, IsInText};
ghost use Rattle.npm_pick.specs.Packument.{candidates_of, releases_among, releases_in};
ghost use Rattle.npm_pick.specs.Private.Keeping.{AreAdded, IsInOne, IsSatisfied, IsWithin, key_value};

use crate::Result;
use crate::key::Key;
use crate::member::{is_restricted, restricted_of, staged_of, versions_of};
use crate::options::Options;
use crate::time::is_published;
use node_semver::{Range, VersionRef};
use npm_texts::{OF_DEPENDENCIES, filled, installed_version, is_plain, range_of};
use serde_json::{Map, Value};
use std::alloc::Global;

/// A document, and what decides which keys of it are admitted.
#[derive(Drop)]
pub(crate) struct Admitting<'v, 'o> {
    pub(crate) packument: &'v Value,
    pub(crate) options: &'o Options<'o>,
    pub(crate) ranges: Vec<Option<Range>>,
}

/// The ranges of texts, and `None` for each text that is no range.
pub(crate) fn ranges_of(alloc: Global, wanted: &[String]) -> Result<Vec<Option<Range>>>
    ensures { IfOk result (λ ranges. (v : VersionValue) → IsInOne ranges.items v
        ↔ IsInSome (map string_bytes wanted.now) v) }
{
    let mut ranges = Vec::new(alloc);
    for text in wanted {
        ranges.push(wanted_range(alloc, text.as_str())?)?;
    }
    Ok(ranges)
}

/// The range of a text, or `None` if it is none.
fn wanted_range(alloc: Global, text: &str) -> Result<Option<Range>>
    ensures { IfOk result (λ range. (v : VersionValue) → IsSatisfied range v ↔ IsInText (RangeText.filled text.now) v) }
{
    plain_range(alloc, filled(text))
}

/// The range of a text that is not empty, or `None` if it is none. A location and an alias are no range.
fn plain_range(alloc: Global, text: &str) -> Result<Option<Range>>
    ensures { IfOk result (λ range. (v : VersionValue) → IsSatisfied range v ↔ IsInText text.now v) }
{
    if is_plain(text) {
        range_of(alloc, text, OF_DEPENDENCIES)
    } else {
        Ok(None)
    }
}

impl<'v, 'o> Admitting<'v, 'o> {
    /// Adds each key of the document that is admitted.
    pub(crate) fn with_all(&self, keys: Vec<Key<'v>>) -> Result<Vec<Key<'v>>>
        ensures { IfOk result (λ new. AreAdded (view self.now.packument.now) self.now.options.now self.now.ranges.items
            (candidates_of self.now.options.now.include_staged (view self.now.packument.now))
            (map key_value keys.entry.items) (map key_value new.items)) }
    {
        let include_staged = self.options.include_staged;
        let keys = self.with_listed(keys, versions_of(self.packument))?;
        let keys = self.with_listed(keys, staged_of(self.packument, include_staged))?;
        self.with_listed(keys, restricted_of(self.packument))
    }

    /// Adds each key of a list that is admitted.
    fn with_listed(
        &self,
        keys: Vec<Key<'v>>,
        listed: Option<&'v Map<String, Value>>,
    ) -> Result<Vec<Key<'v>>>
        ensures { IfOk result (λ new. AreAdded (view self.now.packument.now) self.now.options.now self.now.ranges.items
            (releases_in (option_map (λ members. members_view members.now.entries) listed.entry))
            (map key_value keys.entry.items) (map key_value new.items)) }
    {
        match listed {
            Some(versions) => self.with_members(keys, versions),
            None => Ok(keys),
        }
    }

    fn with_members(
        &self,
        mut keys: Vec<Key<'v>>,
        versions: &'v Map<String, Value>,
    ) -> Result<Vec<Key<'v>>>
        ensures { IfOk result (λ new. AreAdded (view self.now.packument.now) self.now.options.now self.now.ranges.items
            (releases_among (members_view versions.now.entries))
            (map key_value keys.entry.items) (map key_value new.items)) }
    {
        for (key, _) in versions.iter() {
            let text = key.as_str();
            if let Some(version) = self.admitted(text) {
                keys.push(Key {
                    version: Some(version),
                    text,
                })?;
            }
        }
        Ok(keys)
    }

    /// The version of a key, if the key is admitted.
    fn admitted(&self, key: &'v str) -> Option<VersionRef<'v>>
        ensures found { IfSome result (IsInstalledVersion key.now) }
        ensures within { IfSome result (λ version. IsWithin (view self.now.packument.now) self.now.options.now
            self.now.ranges.items key.now) }
        ensures none { IfNone result (¬ IsWithin (view self.now.packument.now) self.now.options.now self.now.ranges.items
            key.now) }
    {
        let Some(version) = installed_version(key) else {
            return None;
        };
        if !is_in_one(&self.ranges, &version) {
            return None;
        }
        if !is_published(self.packument, self.options.before, key) {
            return None;
        }
        if is_restricted(self.packument, key) {
            return None;
        }
        Some(version)
    }
}

/// Returns `true` if the version satisfies one of the ranges.
fn is_in_one(ranges: &[Option<Range>], version: &VersionRef<'_>) -> bool
    ensures { IsTrue result ↔ IsInOne ranges.now version.now }
{
    for range in ranges {
        if is_satisfied(range, version) {
            return true;
        }
    }
    false
}

fn is_satisfied(range: &Option<Range>, version: &VersionRef<'_>) -> bool
    ensures { IsTrue result ↔ IsSatisfied range.now version.now }
{
    match range {
        Some(range) => range.satisfies(version),
        None => false,
    }
}
