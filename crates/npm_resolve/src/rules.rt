//! Which rules of `overrides` count.
//!
//! See docs/DECISIONS.md, "A rule of `overrides` counts for the root's own dependencies".
ghost use Rattle.std.specs.Prelude.{◌≡◌, IfOk, map};
ghost use Rattle.version_solving.specs.declared.ask.Listed.{Listed};
ghost use Rattle.npm_packages.specs.Rules.{rule_at};
ghost use Rattle.npm_resolve.specs.Texts.{text};
ghost use Rattle.npm_resolve.specs.Rules as Counting;

use crate::Result;
use npm_packages::{Rule, Rules, rules_in};
use serde_json::Value;
use std::alloc::Global;
use std::collections::BTreeMap;
use version_solving::Listed;

/// The rules of the root, which is the first manifest.
pub(crate) fn rules_of(alloc: Global, manifests: &[Value]) -> Result<Rules<'_>>
    ensures { IfOk result (λ rules. rule_at rules ≡ Counting.rules_of manifests.now) }
{
    match manifests.first() {
        Some(root) => rules_in(alloc, root),
        None => Ok(BTreeMap::new(alloc)),
    }
}

/// Those of these names whose rule is not read.
pub(crate) fn unread_among<'v>(
    alloc: Global,
    rules: &Rules<'v>,
    names: &[Listed<'v>],
) -> Result<Vec<&'v str>>
    ensures { IfOk result (λ unread. map text unread.items
        ≡ Counting.unread_among (rule_at rules.now) (map (λ (one : Listed). one.name.now) names.now)) }
{
    let mut unread = Vec::new(alloc);
    for one in names {
        if is_unread(rules, one.name) {
            unread.push(one.name)?;
        }
    }
    Ok(unread)
}

/// Returns `true` if the rule for a name is not read.
fn is_unread<'v>(rules: &Rules<'v>, name: &'v str) -> bool
    ensures { result ≡ Counting.is_unread (rule_at rules.now name.now) }
{
    match rules.get(&name) {
        Some(Rule::Unread) => true,
        Some(Rule::InPlace(_)) | None => false,
    }
}
