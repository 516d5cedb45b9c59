//! What a manifest asks for.
ghost use Rattle.std.specs.Prelude.{◌≡◌, ◌&&◌, IfOk, bytes_eq, false, if◌then◌else◌, map, not, option_map};
ghost use Rattle.std.specs.Option.{option_map_or};
ghost use Rattle.serde_json.specs.View.{view};
ghost use Rattle.npm_packages.specs.PackageValue.{asked_value};
ghost use Rattle.npm_overrides.specs.Asks.{AreAsks, IsRuleFor, ask_value, first_changed, is_top};
ghost use Rattle.npm_overrides.specs.Private.Asking.{IsAskBy};
ghost use Rattle.npm_overrides.specs.Bundled as Bundling;
ghost use Rattle.npm_overrides.specs.Choice.{rules_by};
ghost use Rattle.npm_overrides.specs.Rules as Ruling;
ghost use Rattle.npm_overrides.specs.Rules.{rule_value};

use crate::Result;
use crate::bundled::is_bundled;
use crate::kind::{Kind, Owner, kind_of};
use crate::rule::spec_of_root;
use crate::rules::Rules;
use npm_packages::{Asked, asked_of};
use serde_json::Value;
use std::alloc::Global;

/// What a package asks for by one name.
#[derive(Clone, Copy, Drop)]
pub struct Ask<'d> {
    pub name: &'d str,
    pub kind: Kind,
    /// The spec, as `overrides` change it.
    pub spec: &'d str,
    /// The place of the rules that count below the package that meets it.
    pub rules: usize,
    /// The package has it in its own archive.
    pub bundled: bool,
}

/// A manifest, whose it is, and the places of the rules that count.
#[derive(Clone, Copy)]
struct Asker<'d> {
    manifest: &'d Value,
    owner: Owner,
    counts: usize,
    peers_count: usize,
}

/// Returns what a manifest asks for: one ask for each name on which it depends, in the order of the names' bytes. If groups have the
/// same name, npm's order decides: `devDependencies`, `optionalDependencies`, `dependencies`, `peerDependencies`.
///
/// `counts` is the place of the rules that count for it: 0 for the root and for a workspace, and otherwise the `rules` of the ask that it
/// meets. `peers_count` is the place of those that count below what meets its peers: those of the package that asks for this one. For a
/// root and a workspace it does not matter.
///
/// # Errors
///
/// An allocation failed.
///
/// # Memory
///
/// Allocates the list, and an entry for each name while it runs. Texts are borrowed.
///
/// # Examples
///
/// If the root has the overrides `{"a": {".": "2", "b": "3"}}`, a package with `{"dependencies": {"a": "^1", "b": "^1"}}` asks for `a`
/// by `2` and for `b` by `^1`. Below `a` it is `3` that counts for `b`.
///
/// # Source
///
/// npm's "package.json", from "dependencies" to "overrides".
pub fn asks_of<'d>(
    alloc: Global,
    rules: &Rules<'d>,
    manifest: &'d Value,
    owner: Owner,
    counts: usize,
    peers_count: usize,
) -> Result<Vec<Ask<'d>>>
    ensures { IfOk result (λ asks. AreAsks (view manifest.now) owner (map rule_value rules.now.list.items) counts peers_count
        (map ask_value asks.items)) }
{
    let asker = Asker {
        manifest,
        owner,
        counts,
        peers_count,
    };
    let all = asked_of(alloc, manifest, !owner.is_top())?;
    let mut asks = Vec::new(alloc);
    for (name, asked) in all.iter() {
        let ask = ask_of(alloc, rules, asker, *name, *asked)?;
        asks.push(ask)?;
    }
    Ok(asks)
}

/// What is asked for by a name.
fn ask_of<'d>(
    alloc: Global,
    rules: &Rules<'d>,
    asker: Asker<'d>,
    name: &'d str,
    asked: Asked<'d>,
) -> Result<Ask<'d>>
    ensures { IfOk result (λ ask. IsAskBy (view asker.entry.manifest.now) asker.entry.owner (map rule_value rules.now.list.items)
        asker.entry.counts asker.entry.peers_count name.now (asked_value asked.entry) (ask_value ask)) }
{
    let rule = rule_for(alloc, rules, asker.owner, asker.counts, name, asked.spec)?;
    Ok(Ask {
        name,
        kind: kind_of(asked),
        spec: rules.spec_by(rule, asked.spec),
        rules: rules_for(rules, asker, asked.is_peer, rule),
        bundled: is_inside(asker.manifest, asker.owner, name),
    })
}

/// The rule that counts for a dependency.
fn rule_for(
    alloc: Global,
    rules: &Rules<'_>,
    owner: Owner,
    counts: usize,
    name: &str,
    spec: &str,
) -> Result<Option<usize>>
    ensures { IfOk result (IsRuleFor owner (map rule_value rules.now.list.items) counts name.now spec.now) }
{
    match owner {
        Owner::Root | Owner::Package => rules.rule_for(alloc, counts, name, spec),
        Owner::Workspace => Ok(None),
    }
}

/// The place of the rules that count below the package that meets a dependency.
fn rules_for(rules: &Rules<'_>, asker: Asker<'_>, is_peer: bool, rule: Option<usize>) -> usize
    ensures { result ≡ (if is_peer && not (is_top asker.entry.owner) then asker.entry.peers_count
        else rules_by (map rule_value rules.now.list.items) rule asker.entry.counts) }
{
    if is_peer && !asker.owner.is_top() {
        asker.peers_count
    } else {
        rules.rules_by(rule, asker.counts)
    }
}

/// Returns `true` if a dependency is in the archive of the package that asks for it.
fn is_inside(manifest: &Value, owner: Owner, name: &str) -> bool
    ensures { result ≡ (not (is_top owner) && Bundling.is_bundled (view manifest.now) name.now) }
{
    !owner.is_top() && is_bundled(manifest, name)
}

/// Returns the first name of these asks of a root whose spec is not the one that the root's manifest writes: npm stops with `EOVERRIDE`.
/// Does not allocate.
///
/// # Examples
///
/// For `{"dependencies": {"a": "^1"}, "overrides": {"a": "2"}}`: `a`. With the overrides `{"a": "^1"}` or `{"a": "$a"}` it is `None`.
pub fn changed_of_root<'d>(manifest: &Value, asks: &[Ask<'d>]) -> Option<&'d str>
    ensures { option_map (λ name. name.now) result ≡ first_changed (view manifest.now) (map ask_value asks.now) }
{
    for ask in asks {
        if !is_written(manifest, *ask) {
            return Some(ask.name);
        }
    }
    None
}

/// Returns `true` if the manifest of a root asks for a name by this spec.
fn is_written(manifest: &Value, ask: Ask<'_>) -> bool
    ensures { result ≡ option_map_or (bytes_eq ask.entry.spec.now) (Ruling.spec_of_root (view manifest.now) ask.entry.name.now) false }
{
    match spec_of_root(manifest, ask.name) {
        Some(spec) => ask.spec == spec,
        None => false,
    }
}
