//! What a package depends on.
ghost use Rattle.std.specs.Prelude.{◌≡◌, ℕ, List, IfOk, OnOk, unwrap_or, option_map};
ghost use Rattle.std.specs.Option.{option_or};
ghost use Rattle.serde_json.specs.View.{view};
ghost use Rattle.npm_packages.specs.Asked as Asks;
ghost use Rattle.npm_packages.specs.Names.{at_name};
ghost use Rattle.npm_packages.specs.Private.Groups.{is_needed_in};

use crate::Result;
use npm_texts::has_true;
use serde_json::Value;
use std::alloc::Global;
use std::collections::BTreeMap;

/// A dependency of a package on a name: the spec and its flags.
#[derive(Clone, Copy)]
pub struct Asked<'v> {
    pub spec: &'v str,
    /// It is a problem if the name is found nowhere.
    pub is_needed: bool,
    pub is_peer: bool,
    /// It counts in development alone.
    pub is_dev: bool,
    /// `overrides` change it in a way that is not read here.
    pub is_overridden: bool,
}

/// The dependencies of a package, by name.
pub type Names<'v> = BTreeMap<&'v str, Asked<'v>>;

/// Returns what a package depends on, by name. `peerDependencies`, `dependencies`, `optionalDependencies` and
/// `devDependencies` are read. If two of them have a name, the later one in this list counts. `devDependencies` count only
/// for a package that is not in a `node_modules`. What is no object, and a spec that is no string, is passed over.
///
/// # Errors
///
/// An allocation failed.
///
/// # Memory
///
/// Allocates an entry for each name. Names and specs are borrowed.
///
/// # Examples
///
/// For `{"peerDependencies": {"a": "^1"}, "dependencies": {"a": "^2"}}`: `a` by `^2`, which is no peer and is needed.
pub fn asked_of(alloc: Global, asker: &Value, is_installed: bool) -> Result<Names<'_>>
    ensures { IfOk result (λ all. (name : List ℕ)
        → at_name all name ≡ Asks.asked_of (view asker.now) is_installed name) }
{
    let mut all = BTreeMap::new(alloc);
    add_group(&mut all, asker, "peerDependencies", true, true, false)?;
    add_group(&mut all, asker, "dependencies", true, false, false)?;
    add_group(&mut all, asker, "optionalDependencies", false, false, false)?;
    if !is_installed {
        add_group(&mut all, asker, "devDependencies", true, false, true)?;
    }
    Ok(all)
}

/// Adds the dependencies in one group of a package.
fn add_group<'v>(
    all: &mut Names<'v>,
    asker: &'v Value,
    group: &str,
    is_needed: bool,
    is_peer: bool,
    is_dev: bool,
) -> Result<()>
    ensures { OnOk result ((name : List ℕ) → at_name all.new name
        ≡ option_or (Asks.asked_in (view asker.now) group.now name
        (is_needed_in (view asker.now) is_needed is_peer name) is_peer is_dev) (at_name all.old name)) }
{
    let Some(specs) = asker.get(group).and_then(Value::as_object) else {
        return Ok(());
    };
    for (name, spec) in specs.iter() {
        if let Some(spec) = spec.as_str() {
            let name = name.as_str();
            let is_needed = is_needed && !(is_peer && is_optional_peer(asker, name));
            let asked = Asked {
                spec,
                is_needed,
                is_peer,
                is_dev,
                is_overridden: false,
            };
            all.insert(name, asked)?;
        }
    }
    Ok(())
}

/// Returns `true` for a peer that may be missing, as `peerDependenciesMeta` says. Does not allocate.
pub fn is_optional_peer(asker: &Value, name: &str) -> bool
    ensures { result ≡ Asks.is_optional_peer (view asker.now) name.now }
{
    let peers = asker.get("peerDependenciesMeta");
    peers
        .and_then(|peers| peers.get(name))
        .is_some_and(|peer| has_true(peer, "optional"))
}

/// Returns the second spec that a package accepts for a name: the one in `acceptDependencies`. Does not allocate.
pub fn accepted_of<'v>(asker: &'v Value, name: &str) -> Option<&'v str>
    ensures { option_map (λ text. text.now) result ≡ Asks.accepted_of (view asker.now) name.now }
{
    asker.get("acceptDependencies")?.get(name)?.as_str()
}
