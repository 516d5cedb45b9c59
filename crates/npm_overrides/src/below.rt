//! What a rule changes.
ghost use Rattle.std.specs.Prelude.{◌≡◌, map, option_map};
ghost use Rattle.serde_json.specs.View.{members_view};
ghost use Rattle.npm_overrides.specs.Choice as Choosing;
ghost use Rattle.npm_overrides.specs.Rules.{members_of, rule_value};

use crate::rule::Rule;
use crate::rules::Rules;
use serde_json::{Map, Value};

impl<'d> Rules<'d> {
    /// Returns the spec that counts by the rule at a place, or the one that is written.
    pub fn spec_by(&self, rule: Option<usize>, written: &'d str) -> &'d str
        ensures { result.now ≡ Choosing.spec_by (map rule_value self.now.list.items) rule written.now }
    {
        let Some(place) = rule else {
            return written;
        };
        match self.list.get(place) {
            Some(found) => found.value.unwrap_or(written),
            None => written,
        }
    }

    /// Returns the place of the rules that count below a package that meets a dependency, by the rule that counts for that: its own, if
    /// there are rules inside, or else those around it. Without a rule the same count as for the dependency.
    pub fn rules_by(&self, rule: Option<usize>, counts: usize) -> usize
        ensures { result ≡ Choosing.rules_by (map rule_value self.now.list.items) rule counts }
    {
        let Some(place) = rule else {
            return counts;
        };
        match self.list.get(place) {
            Some(found) => rules_below(place, found),
            None => place,
        }
    }
}

/// The place of the rules that count below a package that a rule is for.
fn rules_below(place: usize, rule: &Rule<'_>) -> usize
    ensures { result ≡ Choosing.rules_below place (rule_value rule.now) }
{
    if has_inside(rule.inside) {
        place
    } else {
        rule.parent
    }
}

/// Returns `true` if there are members with a rule.
fn has_inside(inside: Option<&Map<String, Value>>) -> bool
    ensures { result ≡ Choosing.has_rule (members_of (option_map (λ members. members_view members.now.entries) inside.entry)) }
{
    match inside {
        Some(members) => has_rule(members),
        None => false,
    }
}

/// Returns `true` if a key is not `.`.
fn has_rule(members: &Map<String, Value>) -> bool
    ensures { result ≡ Choosing.has_rule (members_view members.now.entries) }
{
    for (key, _) in members.iter() {
        if key.as_str() != "." {
            return true;
        }
    }
    false
}
