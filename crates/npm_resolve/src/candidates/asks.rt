//! What a manifest asks for.
ghost use Rattle.std.specs.Prelude.{◌≡◌, ◌++◌, IfOk, OnOk, filter, map, not};
ghost use Rattle.serde_json.specs.View.{view};
ghost use Rattle.npm_packages.specs.PackageValue.{asked_value};
ghost use Rattle.npm_packages.specs.Rules.{rule_at};
ghost use Rattle.npm_resolve.specs.Asks as Asking;
ghost use Rattle.npm_resolve.specs.Asks.{AreAllAsks, AreAsks, ask_value, is_registered};

use crate::Result;
use crate::candidates::options::Omits;
use crate::candidates::owner::Owner;
use npm_packages::{Asked, Rules, asked_of, overridden};
use npm_texts::registry_spec;
use serde_json::Value;
use std::alloc::Global;
use version_solving::Ask;

/// What a manifest asks for, by name.
#[derive(Drop)]
pub struct Asks<'v> {
    /// What it asks a registry for.
    pub asks: Vec<Ask<'v>>,
    /// A folder, a repository, a URL, or an alias that npm refuses.
    pub left_out: Vec<Ask<'v>>,
}

/// Returns what a manifest asks for, in the order of the names' bytes: the manifest of a root its dependencies of all groups, and that
/// of a version its peers or, by `Reach::Dependencies`, its `dependencies` and `optionalDependencies` too. A peer that
/// `peerDependenciesMeta` calls optional, and an optional dependency of a version, is not needed.
///
/// If groups have the same name, npm's order decides: `devDependencies`, `optionalDependencies`, `dependencies`, `peerDependencies`.
///
/// The rules are those of the root's `overrides`, as `npm_packages::rules_in` returns them: the spec of a rule counts in place of each
/// other spec of its name. By a rule that is `Rule::Unread` no spec changes.
///
/// # Errors
///
/// An allocation failed.
///
/// # Memory
///
/// Allocates the lists, and an entry for each name while it runs. Texts are borrowed.
///
/// # Examples
///
/// A root with `{"dependencies": {"a": "^1", "b": "file:b"}, "peerDependencies": {"c": "*"}}` asks for `a` by `^1` and for `c` by `*`,
/// and `b` is left out. A version with these members asks for `c`, and by `Reach::Dependencies` for `a` too. With the rule `2` for `c`
/// both ask for `c` by `2`.
pub fn asks_of<'v>(
    alloc: Global,
    manifest: &'v Value,
    owner: Owner,
    rules: &Rules<'v>,
    omits: Omits,
) -> Result<Asks<'v>>
    ensures { IfOk result (λ found. AreAsks (view manifest.now) owner (rule_at rules.now) omits
        (map ask_value found.asks.items) (map ask_value found.left_out.items)) }
{
    let all = all_asks(alloc, manifest, owner, rules, omits)?;
    parted(alloc, &all)
}

/// What a manifest asks for, of a registry or not.
fn all_asks<'v>(
    alloc: Global,
    manifest: &'v Value,
    owner: Owner,
    rules: &Rules<'v>,
    omits: Omits,
) -> Result<Vec<Ask<'v>>>
    ensures { IfOk result (λ asks. AreAllAsks (view manifest.now) owner (rule_at rules.now) omits (map ask_value asks.items)) }
{
    let all = asked_of(alloc, manifest, !owner.is_root())?;
    let mut asks = Vec::new(alloc);
    for (name, asked) in all.iter() {
        let changed = overridden(rules, "", *name, *asked);
        add_ask(&mut asks, owner, omits, *name, changed)?;
    }
    Ok(asks)
}

/// Adds the ask of a name, if it counts.
fn add_ask<'v>(
    asks: &mut Vec<Ask<'v>>,
    owner: Owner,
    omits: Omits,
    name: &'v str,
    asked: Asked<'v>,
) -> Result<()>
    ensures { OnOk result (map ask_value asks.new.items
        ≡ map ask_value asks.old.items ++ Asking.asks_by owner omits name.now (asked_value asked.entry)) }
{
    if counts(owner, omits, asked) {
        asks.push(ask_of(owner, name, asked))?;
    }
    Ok(())
}

/// The ask of a name.
fn ask_of<'v>(owner: Owner, name: &'v str, asked: Asked<'v>) -> Ask<'v>
    ensures { ask_value result ≡ Asking.ask_of owner name.now (asked_value asked.entry) }
{
    Ask {
        name,
        spec: asked.spec,
        needed: asked.is_needed || (owner.is_root() && !asked.is_peer),
    }
}

/// Returns `true` for a dependency that counts.
fn counts(owner: Owner, omits: Omits, asked: Asked<'_>) -> bool
    ensures { result ≡ Asking.counts owner omits (asked_value asked.entry) }
{
    if asked.is_peer {
        return !omits.peer;
    }
    if !owner.has_dependencies() {
        return false;
    }
    if asked.is_dev {
        return !omits.dev;
    }
    asked.is_needed || !omits.optional
}

/// Those of a registry, and the others.
fn parted<'v>(alloc: Global, all: &[Ask<'v>]) -> Result<Asks<'v>>
    ensures asks { IfOk result (λ found. map ask_value found.asks.items ≡ filter is_registered (map ask_value all.now)) }
    ensures left_out { IfOk result (λ found. map ask_value found.left_out.items
        ≡ filter (λ ask. not (is_registered ask)) (map ask_value all.now)) }
{
    let mut asks = Vec::new(alloc);
    let mut left_out = Vec::new(alloc);
    for ask in all {
        if registry_spec(ask.name, ask.spec).is_some() {
            asks.push(*ask)?;
        } else {
            left_out.push(*ask)?;
        }
    }
    Ok(Asks { asks, left_out })
}
