//! A key of a document, and its place among others.
ghost use Rattle.std.specs.Prelude.{◌≡◌, ◌↔◌, ℕ, List, IfOk, Some, map, refl};
ghost use Rattle.std.specs.Cmp.{eq_by_cmp_equiv, partial_equiv_from_equiv, po};
ghost use Rattle.std.specs.List.{All, Contains};
ghost use Rattle.std.specs.Ordering.{eq_by_cmp};
ghost use Rattle.npm_pick.specs.Kept.{IsInOrder};
ghost use Rattle.npm_pick.specs.Private.Keeping.{IsKeyRead, key_order, key_total, key_value, texts_of};

use crate::Result;
use node_semver::VersionRef;
use npm_texts::installed_version;
use std::alloc::Global;
use std::cmp::Ordering;

/// A key, and the version that it is read as.
#[derive(Drop)]
pub(crate) struct Key<'v> {
    pub(crate) version: Option<VersionRef<'v>>,
    pub(crate) text: &'v str,
}

impl<'v> Key<'v> {
    /// Reads a key.
    pub(crate) fn of(text: &'v str) -> Key<'v>
        ensures text { (key_value result).text ≡ text.now }
        ensures read { IsKeyRead (key_value result) }
    {
        Key {
            version: installed_version(text),
            text,
        }
    }
}

impl<'v> PartialEq for Key<'v> {
    ghost eq = { eq_by_cmp key_order };

    ghost laws = { partial_equiv_from_equiv (eq_by_cmp_equiv key_total) };

    fn eq(&self, other: &Key<'v>) -> bool
        ensures { result ≡ eq_by_cmp key_order self.now other.now }
    {
        self.cmp(other).is_eq()
    }
}

impl<'v> Eq for Key<'v> {
    ghost laws = { eq_by_cmp_equiv key_total };
}

impl<'v> PartialOrd for Key<'v> {
    ghost partial_cmp = { λ a b. Some (key_order a b) };

    ghost laws = { po key_total (λ a b. refl) };

    fn partial_cmp(&self, other: &Key<'v>) -> Option<Ordering>
        ensures { result ≡ Some (key_order self.now other.now) }
    {
        Some(self.cmp(other))
    }
}

impl<'v> Ord for Key<'v> {
    ghost cmp = { key_order };

    ghost total = { key_total };

    ghost matches_partial_cmp = { λ a b. refl };

    ghost matches_eq = { λ a b. refl };

    fn cmp(&self, other: &Key<'v>) -> Ordering
        ensures { result ≡ key_order self.now other.now }
    {
        let versions = self.version.cmp(&other.version);
        versions.then(self.text.cmp(other.text))
    }
}

/// Returns these keys in order, each once: by their versions, and equal versions by their bytes. Keys that are no versions come first.
pub fn keys_in_order<'v>(alloc: Global, texts: &[&'v str]) -> Result<Vec<&'v str>>
    ensures ordered { IfOk result (λ keys. IsInOrder (map (λ key. key.now) keys.items)) }
    ensures exact { IfOk result (λ keys. (key : List ℕ) → Contains (map (λ key. key.now) keys.items) key
        ↔ Contains (map (λ text. text.now) texts.now) key) }
{
    let mut keys = Vec::new(alloc);
    for text in texts {
        keys.push(Key::of(text))?;
    }
    in_order(alloc, keys)
}

/// The texts of the keys in order, each once.
pub(crate) fn in_order<'v>(alloc: Global, mut keys: Vec<Key<'v>>) -> Result<Vec<&'v str>>
    requires { All IsKeyRead (map key_value keys.items) }
    ensures ordered { IfOk result (λ texts. IsInOrder (map (λ text. text.now) texts.items)) }
    ensures exact { IfOk result (λ texts. (key : List ℕ) → Contains (map (λ text. text.now) texts.items) key
        ↔ Contains (texts_of (map key_value keys.entry.items)) key) }
{
    keys.sort_unstable();
    keys.dedup();
    texts_of_keys(alloc, &keys)
}

/// The texts of the keys.
fn texts_of_keys<'v>(alloc: Global, keys: &[Key<'v>]) -> Result<Vec<&'v str>>
    ensures { IfOk result (λ texts. map (λ text. text.now) texts.items ≡ texts_of (map key_value keys.now)) }
{
    let mut texts = Vec::new(alloc);
    for key in keys {
        texts.push(key.text)?;
    }
    Ok(texts)
}
