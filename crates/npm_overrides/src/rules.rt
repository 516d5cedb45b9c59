//! All rules of `overrides`.
ghost use Rattle.std.specs.Prelude.{◌≡◌, ◌++◌, IfOk, IsTrue, OnOk, map, option_map};
ghost use Rattle.serde_json.specs.View.{members_view, view};
ghost use Rattle.npm_overrides.specs.Choice as Choosing;
ghost use Rattle.npm_overrides.specs.Rules as Ruling;
ghost use Rattle.npm_overrides.specs.Rules.{AreRules, members_of, rule_value, rules_among, rules_inside};

use crate::Result;
use crate::rule::{Rule, range_of, root_rule, rule_of};
use serde_json::{Map, Value};
use std::alloc::Global;

/// The rules in the `overrides` of a root.
#[derive(Drop)]
pub struct Rules<'d> {
    /// The rule of the root, then the rules inside it, then those inside each of these, and so on.
    pub list: Vec<Rule<'d>>,
}

impl<'d> Rules<'d> {
    /// Reads the rules in the `overrides` of the root's manifest. What is neither an object nor a text has no spec and no rules inside.
    ///
    /// Of the rules inside one, those with a range come first, in the order of their keys' bytes.
    ///
    /// # Errors
    ///
    /// An allocation failed.
    ///
    /// # Memory
    ///
    /// Allocates the list. Texts are borrowed. Rules nest to any depth.
    ///
    /// # Examples
    ///
    /// For `{"a": {".": "2", "b@1": "1.5.0"}}`: the rule of the root, `a` by `2` inside it, and `b` for the range `1` by `1.5.0` inside that.
    ///
    /// # Source
    ///
    /// npm's "package.json", "overrides".
    pub fn read(alloc: Global, manifest: &'d Value) -> Result<Rules<'d>>
        ensures { IfOk result (λ rules. AreRules (view manifest.now) (map rule_value rules.list.items)) }
    {
        let mut list = Vec::new(alloc);
        list.push(root_rule(manifest))?;
        let mut at = 0;
        while at < list.len() {
            let inside = list[at].inside;
            add_inside(&mut list, manifest, at, inside)?;
            at += 1;
        }
        Ok(Rules { list })
    }
}

/// Adds the rules inside a rule: those with a range first.
fn add_inside<'d>(
    list: &mut Vec<Rule<'d>>,
    manifest: &'d Value,
    parent: usize,
    inside: Option<&'d Map<String, Value>>,
) -> Result<()>
    ensures { OnOk result (map rule_value list.new.items ≡ map rule_value list.old.items
        ++ rules_inside (view manifest.now) parent (members_of (option_map (λ members. members_view members.now.entries) inside.entry))) }
{
    match inside {
        Some(members) => {
            add_members(list, manifest, parent, members, true)?;
            add_members(list, manifest, parent, members, false)
        }
        None => Ok(()),
    }
}

/// Adds the rules of members, of those with a range or of those without one.
fn add_members<'d>(
    list: &mut Vec<Rule<'d>>,
    manifest: &'d Value,
    parent: usize,
    members: &'d Map<String, Value>,
    with_range: bool,
) -> Result<()>
    ensures { OnOk result (map rule_value list.new.items ≡ map rule_value list.old.items
        ++ rules_among (view manifest.now) parent with_range (members_view members.now.entries)) }
{
    for (key, value) in members.iter() {
        let key = key.as_str();
        if is_rule(key, with_range) {
            list.push(rule_of(manifest, parent, key, value))?;
        }
    }
    Ok(())
}

/// Returns `true` for the key of a rule with a range, or without one.
fn is_rule(key: &str, with_range: bool) -> bool
    ensures { result ≡ Ruling.is_rule key.now with_range }
{
    if key == "." {
        return false;
    }
    let is_for_all = range_of(key) == "*";
    if with_range { !is_for_all } else { is_for_all }
}
