//! What `overrides` of the root change.
//!
//! See docs/DECISIONS.md, "Of `overrides` one kind of rule is read".
ghost use Rattle.std.specs.Prelude.{◌≡◌, ◌++◌, ◌∷◌, ℕ, List, IfOk, OnOk, Some, bytes_eq, option_map};
ghost use Rattle.serde_json.specs.View.{members_view, view};
ghost use Rattle.npm_packages.specs.Overrides as Overrides;
ghost use Rattle.npm_packages.specs.Overrides.{both, is_named_in, rule_among, rule_if, unread};
ghost use Rattle.npm_packages.specs.PackageValue.{asked_value, packages_data};
ghost use Rattle.npm_packages.specs.Rules.{AreRules, AreRulesIn, rule_at, rule_value};
ghost use Rattle.npm_packages.specs.Private.OverrideKeys.{IsWithoutAtSign};

use crate::Result;
use crate::asked::Asked;
use crate::place::Lock;
use serde_json::{Map, Value};
use std::alloc::Global;
use std::collections::BTreeMap;

/// What `overrides` say of a name.
#[derive(Clone, Copy, Debug, PartialEq, Eq, Drop)]
pub enum Rule<'v> {
    /// This spec counts in place of others.
    InPlace(&'v str),
    /// It is not read here.
    Unread,
}

/// What `overrides` say, by name.
pub type Rules<'v> = BTreeMap<&'v str, Rule<'v>>;

/// Returns the rules in the `overrides` of the root, by name. A lock file without a root, or without `overrides`, has none.
///
/// # Errors
///
/// An allocation failed.
///
/// # Memory
///
/// Allocates an entry for each name. Names and specs are borrowed.
///
/// # Examples
///
/// For `{"a": "2", "b": {"c": "3"}}`: `a` has the rule `2`. The rules for `b` and `c` are not read.
pub fn rules_of(lock: Lock<'_>) -> Result<Rules<'_>>
    ensures { IfOk result (AreRules (packages_data lock.entry)) }
{
    match lock.members.get("") {
        Some(root) => rules_in(lock.alloc, root),
        None => Ok(BTreeMap::new(lock.alloc)),
    }
}

/// Returns the rules in the `overrides` of a manifest, `package.json`, by name. npm reads those of a root alone.
///
/// # Errors
///
/// An allocation failed.
///
/// # Memory
///
/// Allocates an entry for each name. Names and specs are borrowed.
///
/// # Examples
///
/// For `{"overrides": {"a": "2", "b": {"c": "3"}}}`: `a` has the rule `2`. The rules for `b` and `c` are not read.
pub fn rules_in(alloc: Global, manifest: &Value) -> Result<Rules<'_>>
    ensures { IfOk result (AreRulesIn (view manifest.now)) }
{
    match overrides_in(manifest) {
        Some(members) => rules_among(alloc, members),
        None => Ok(BTreeMap::new(alloc)),
    }
}

/// The rules of these members of `overrides`, and inside them.
fn rules_among(alloc: Global, members: &Map<String, Value>) -> Result<Rules<'_>>
    ensures { IfOk result (λ rules. (name : List ℕ)
        → rule_at rules name ≡ rule_among name (members_view members.now.entries)) }
{
    let mut rules = BTreeMap::new(alloc);
    for (key, value) in members.iter() {
        let key = key.as_str();
        add_rule(&mut rules, name_of(key), rule_of(key, value))?;
        add_inside(&mut rules, value)?;
    }
    Ok(rules)
}

/// The members of the `overrides` of a manifest.
fn overrides_in(manifest: &Value) -> Option<&Map<String, Value>>
    ensures { option_map (λ members. members_view members.now.entries) result ≡ Overrides.overrides_in (view manifest.now) }
{
    manifest.get("overrides")?.as_object()
}

/// Adds a rule for each member of an object, at any depth. None of them is read.
fn add_inside<'v>(rules: &mut Rules<'v>, value: &'v Value) -> Result<()>
    ensures { OnOk result ((name : List ℕ) → rule_at rules.new name
        ≡ both (rule_at rules.old name) (rule_if (is_named_in name (view value.now)) unread)) }
{
    if let Value::Object(members) = value {
        for (key, value) in members.iter() {
            add_rule(rules, name_of(key.as_str()), Rule::Unread)?;
            add_inside(rules, value)?;
        }
    }
    Ok(())
}

/// Adds a rule for a name. Of two rules for one name none is read.
fn add_rule<'v>(rules: &mut Rules<'v>, name: &'v str, rule: Rule<'v>) -> Result<()>
    ensures { OnOk result ((other : List ℕ) → rule_at rules.new other
        ≡ both (rule_at rules.old other) (rule_if (bytes_eq name.now other) (rule_value rule.entry))) }
{
    let kept = match rules.get(&name) {
        Some(_) => Rule::Unread,
        None => rule,
    };
    rules.insert(name, kept)?;
    Ok(())
}

/// The rule of a member of `overrides` itself.
fn rule_of<'v>(key: &str, value: &'v Value) -> Rule<'v>
    ensures { rule_value result ≡ Overrides.rule_of key.now (view value.now) }
{
    match value.as_str() {
        Some(spec) if is_plain_rule(key, spec) => Rule::InPlace(spec),
        _ => Rule::Unread,
    }
}

/// Returns `true` for a spec that counts for all versions of a name.
fn is_plain_rule(key: &str, spec: &str) -> bool
    ensures { result ≡ Overrides.is_plain_rule key.now spec.now }
{
    name_of(key) == key && !spec.starts_with("$")
}

/// The name that a key is for, up to an `@` that is not its first byte.
fn name_of(key: &str) -> &str
    ensures { result.now ≡ Overrides.name_of key.now }
{
    match without_at_sign(key).split_once('@') {
        Some((_, range)) => without_range(key, range),
        None => key,
    }
}

/// The key without an `@` at its start.
fn without_at_sign(key: &str) -> &str
    ensures { IsWithoutAtSign key.now result.now }
{
    match key.strip_prefix('@') {
        Some(rest) => rest,
        None => key,
    }
}

/// The key without this range and the `@` before it.
fn without_range<'v>(key: &'v str, range: &str) -> &'v str
    requires { (name : List ℕ) × (key.now ≡ name ++ (64 ∷ range.now)) }
    ensures { key.now ≡ result.now ++ (64 ∷ range.now) }
{
    &key[..key.len() - range.len() - 1]
}

/// Returns the dependency of a package in this folder on a name, as the rules change it. Does not allocate.
pub fn overridden<'v>(rules: &Rules<'v>, folder: &str, name: &'v str, asked: Asked<'v>) -> Asked<'v>
    ensures { asked_value result ≡ Overrides.changed_by (rule_at rules.now name.now) folder.now
        (asked_value asked.entry) }
{
    match rules.get(&name) {
        Some(rule) => changed_by(*rule, folder, asked),
        None => asked,
    }
}

/// Returns the dependency as the rule for its name changes it.
fn changed_by<'v>(rule: Rule<'v>, folder: &str, asked: Asked<'v>) -> Asked<'v>
    ensures { asked_value result ≡ Overrides.changed_by (Some (rule_value rule.entry)) folder.now
        (asked_value asked.entry) }
{
    match rule {
        Rule::InPlace(spec) if keeps_all(spec) => asked,
        Rule::InPlace(spec) if is_in_root(folder) => Asked { spec, ..asked },
        _ => Asked {
            is_overridden: true,
            ..asked
        },
    }
}

/// Returns `true` for the root, and for a package in its `node_modules`.
fn is_in_root(folder: &str) -> bool
    ensures { result ≡ Overrides.is_in_root folder.now }
{
    folder.is_empty() || folder.starts_with("node_modules/")
}

/// Returns `true` for a spec that changes nothing.
fn keeps_all(spec: &str) -> bool
    ensures { result ≡ Overrides.keeps_all spec.now }
{
    spec.is_empty() || spec == "*"
}
