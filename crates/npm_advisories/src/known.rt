//! By which ids an advisory is known.
ghost use Rattle.std.specs.Prelude.{◌≡◌};
ghost use Rattle.serde_json.specs.View.{items_view, view};
ghost use Rattle.npm_advisories.specs.Advisories.{about_value, aliases_items};
ghost use Rattle.npm_advisories.specs.KnownIds as KnownIds;

use crate::About;
use itoa::Buffer;
use serde_json::Value;

/// The ids of an advisory beside `id`.
#[derive(Clone, Copy)]
pub enum Aliases<'v> {
    /// In npm's form: the one in its address on GitHub, as `GHSA-jf85-cpcp-j695`.
    Address(Option<&'v str>),
    /// In OSV's form: the strings of its `aliases`.
    Listed(&'v [Value]),
}

impl About<'_> {
    /// Returns `true` if this is the `id` of the advisory or one of its aliases, with letters of either case.
    ///
    /// # Memory
    ///
    /// Does not allocate.
    ///
    /// # Examples
    ///
    /// An advisory with the `id` 1523 and the address `https://github.com/advisories/GHSA-jf85-cpcp-j695` is known as `1523` and as
    /// `ghsa-jf85-cpcp-j695`, and not as `523`.
    pub fn is_known_as(&self, id: &str) -> bool
        ensures { result ≡ KnownIds.is_known_as id.now (about_value self.now) }
    {
        is_id(self.id, id) || is_alias(self.aliases, id)
    }
}

/// Returns `true` if the value is this text, or a number with these digits.
fn is_id(value: &Value, id: &str) -> bool
    ensures { result ≡ KnownIds.is_id id.now (view value.now) }
{
    if let Some(text) = value.as_str() {
        return text.eq_ignore_ascii_case(id);
    }
    match value.as_u64() {
        Some(number) => Buffer::new().format(number).eq_ignore_ascii_case(id),
        None => false,
    }
}

/// Returns `true` if one of the aliases is this text.
fn is_alias(aliases: Aliases<'_>, id: &str) -> bool
    ensures { result ≡ KnownIds.any_is id.now (aliases_items aliases.entry) }
{
    match aliases {
        Aliases::Address(Some(text)) => text.eq_ignore_ascii_case(id),
        Aliases::Address(None) => false,
        Aliases::Listed(values) => any_is(values, id),
    }
}

/// Returns `true` if one of the values is this text.
fn any_is(values: &[Value], id: &str) -> bool
    ensures { result ≡ KnownIds.any_is id.now (items_view values.now) }
{
    for value in values {
        if is_text(value, id) {
            return true;
        }
    }
    false
}

/// Returns `true` if the value is this text.
fn is_text(value: &Value, id: &str) -> bool
    ensures { result ≡ KnownIds.is_text id.now (view value.now) }
{
    match value.as_str() {
        Some(text) => text.eq_ignore_ascii_case(id),
        None => false,
    }
}
