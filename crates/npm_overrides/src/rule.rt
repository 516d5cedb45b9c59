//! One rule of `overrides`.
ghost use Rattle.std.specs.Prelude.{◌≡◌, ◌∷◌, codes, option_map};
ghost use Rattle.std.specs.List.{before_first};
ghost use Rattle.serde_json.specs.View.{members_view, view};
ghost use Rattle.npm_packages.specs.Overrides as Overrides;
ghost use Rattle.npm_packages.specs.Asked as Asking;
ghost use Rattle.npm_texts.specs.RangeText.{range_after};
ghost use Rattle.npm_texts.specs.SpecGrammar.{is_at_sign};
ghost use Rattle.npm_overrides.specs.Rules as Ruling;
ghost use Rattle.npm_overrides.specs.Rules.{rule_value};

use npm_texts::{filled, rest_after};
use serde_json::{Map, Value};

/// A rule of `overrides`.
#[derive(Clone, Copy)]
pub struct Rule<'d> {
    /// The place of the rule around it in the list of all. The first rule, that of the root, has its own place.
    pub parent: usize,
    /// The name that it is for.
    pub name: &'d str,
    /// The range of its key: `^1` of `a@^1`, and `*` of `a`.
    pub range: &'d str,
    /// The spec that counts in place of the one that is written. `None` changes nothing.
    pub value: Option<&'d str>,
    /// The members of its object. Each but `.` is a rule inside it.
    pub inside: Option<&'d Map<String, Value>>,
}

/// The rule of the root, which has the others inside.
pub(crate) fn root_rule(manifest: &Value) -> Rule<'_>
    ensures { rule_value result ≡ Ruling.root_rule (view manifest.now) }
{
    Rule {
        parent: 0,
        name: "",
        range: "*",
        value: None,
        inside: overrides_in(manifest),
    }
}

/// The members of the `overrides` of a manifest.
fn overrides_in(manifest: &Value) -> Option<&Map<String, Value>>
    ensures { option_map (λ members. members_view members.now.entries) result ≡ Overrides.overrides_in (view manifest.now) }
{
    manifest.get("overrides")?.as_object()
}

/// The rule of a member.
pub(crate) fn rule_of<'d>(
    manifest: &'d Value,
    parent: usize,
    key: &'d str,
    value: &'d Value,
) -> Rule<'d>
    ensures { rule_value result ≡ Ruling.rule_of (view manifest.now) parent key.now (view value.now) }
{
    Rule {
        parent,
        name: name_of(key),
        range: range_of(key),
        value: value_of(manifest, key, value),
        inside: value.as_object(),
    }
}

/// The name that a key is for, up to an `@` that is not its first byte.
fn name_of(key: &str) -> &str
    ensures { result.now ≡ Ruling.name_of key.now }
{
    match rest_after(key, "@") {
        Some(scoped) => scoped_name(key, scoped),
        None => plain_name(key),
    }
}

/// The name of a key, given what follows the `@` of its scope.
fn scoped_name<'d>(key: &'d str, scoped: &str) -> &'d str
    requires { key.now ≡ 64 ∷ scoped.now }
    ensures { result.now ≡ 64 ∷ before_first is_at_sign scoped.now }
{
    match scoped.split_once('@') {
        Some((name, _)) => &key[..name.len() + 1],
        None => key,
    }
}

/// The name of a key without a scope.
fn plain_name(key: &str) -> &str
    ensures { result.now ≡ before_first is_at_sign key.now }
{
    match key.split_once('@') {
        Some((name, _)) => name,
        None => key,
    }
}

/// The range of a key, behind an `@` that is not its first byte.
pub(crate) fn range_of(key: &str) -> &str
    ensures { result.now ≡ Ruling.range_of key.now }
{
    match rest_after(key, "@") {
        Some(scoped) => range_behind(scoped),
        None => range_behind(key),
    }
}

/// The text behind the first `@`, and `*` if there is none.
fn range_behind(text: &str) -> &str
    ensures { result.now ≡ range_after text.now (codes "*") }
{
    match text.split_once('@') {
        Some((_, range)) => filled(range),
        None => "*",
    }
}

/// The spec of a rule: the text that is written, or else the range of the key.
fn value_of<'d>(manifest: &'d Value, key: &'d str, value: &'d Value) -> Option<&'d str>
    ensures { option_map (λ text. text.now) result ≡ Ruling.value_of (view manifest.now) key.now (view value.now) }
{
    match written_in(value) {
        Some(text) => changed_to(manifest, filled(text)),
        None => changed_to(manifest, range_of(key)),
    }
}

/// The text of a member: its own, or that of its member `.`.
fn written_in(value: &Value) -> Option<&str>
    ensures { option_map (λ text. text.now) result ≡ Ruling.written_in (view value.now) }
{
    match value.as_str() {
        Some(text) => Some(text),
        None => value.get(".")?.as_str(),
    }
}

/// The spec of a text, unless it is `*`.
fn changed_to<'d>(manifest: &'d Value, text: &'d str) -> Option<&'d str>
    ensures { option_map (λ text. text.now) result ≡ Ruling.changed_to (view manifest.now) text.now }
{
    if text == "*" {
        None
    } else {
        Some(referred(manifest, text))
    }
}

/// The spec of the root's dependency for `$NAME`, and the text itself for any other.
fn referred<'d>(manifest: &'d Value, text: &'d str) -> &'d str
    ensures { result.now ≡ Ruling.referred (view manifest.now) text.now }
{
    match rest_after(text, "$") {
        Some(name) => spec_of_root(manifest, name).unwrap_or(text),
        None => text,
    }
}

/// The spec by which a root asks for a name itself.
pub(crate) fn spec_of_root<'d>(manifest: &'d Value, name: &str) -> Option<&'d str>
    ensures { option_map (λ text. text.now) result ≡ Ruling.spec_of_root (view manifest.now) name.now }
{
    if let Some(spec) = spec_in(manifest, "devDependencies", name) {
        return Some(spec);
    }
    if let Some(spec) = spec_in(manifest, "optionalDependencies", name) {
        return Some(spec);
    }
    match spec_in(manifest, "dependencies", name) {
        Some(spec) => Some(spec),
        None => spec_in(manifest, "peerDependencies", name),
    }
}

/// The spec of a name in a group.
fn spec_in<'d>(manifest: &'d Value, group: &str, name: &str) -> Option<&'d str>
    ensures { option_map (λ text. text.now) result ≡ Asking.spec_in (view manifest.now) group.now name.now }
{
    manifest.get(group)?.get(name)?.as_str()
}
