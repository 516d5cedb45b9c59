//! A tree of packages for manifests.

use crate::Result;
use crate::answer::{Answer, Conflict, Manifest, Unmet as Told};
use crate::builder::Builder;
use crate::finishing::kind_of;
use crate::known::Known;
use crate::options::Options;
use crate::search::Search;
use crate::settling::Unmet;
use crate::tops::{Top, add_workspaces, tops_of};
use crate::tree::Tree;
use npm_overrides::{Ask, Owner, Rules, asks_of, changed_of_root};
use npm_trees::Document;
use serde_json::{Map, Value};
use std::alloc::Global;
use std::collections::BTreeMap;

/// How often the work begins anew.
const ATTEMPTS: usize = 32;

/// Builds the tree of packages that npm would install for manifests, of which the first is the root's and the others are those of
/// workspaces, from documents of a registry. The versions of an older lock file stay where they can.
///
/// A package that meets a dependency is used where it is seen. Else npm's pick is placed in the outermost folder from which it is seen and
/// in which it fits, together with its peers: what sees it there must be met by it. If no folder takes npm's pick, all dependencies of the
/// package are placed again, with any versions. If that fails too, the nearest optional dependency that leads there is left out, or the
/// version of the package is refused for the dependency that it was placed for.
///
/// # Errors
///
/// An allocation failed.
///
/// # Memory
///
/// Allocates the tree, and for each document and for each spec its versions.
///
/// # Examples
///
/// For a root that asks for `a` and `b`, which ask for `x` by `1` and by `2`: `a`, `b` and `x` 1 in the folder of the root, and `x` 2 in
/// that of `b`.
///
/// # Source
///
/// npm's "folders", "package.json" and "npm install".
pub fn build<'d>(
    alloc: Global,
    manifests: &'d [Manifest<'d>],
    documents: &'d [Document<'d>],
    lock: Option<&'d Value>,
    options: Options<'d>,
) -> Result<Answer<'d>> {
    let Some(root) = manifests.first() else {
        return Ok(Answer::Undecided);
    };
    let rules = Rules::read(alloc, root.value)?;
    let asks = asks_of(alloc, &rules, root.value, Owner::Root, 0, 0)?;
    let known = Known::new(alloc, options, documents, packages_of(lock), rules)?;
    let mut builder = Builder {
        known,
        tree: Tree::new(alloc),
        search: Search::new(alloc, options.total_steps),
    };
    let tops = tops_of(alloc, &mut builder.known, manifests)?;
    let mut workspaces = BTreeMap::new(alloc);
    if let Some(name) = add_workspaces(&mut workspaces, &tops)? {
        return Ok(Answer::SameName(name));
    }
    if let Some(name) = changed_of_root(root.value, &others(alloc, &asks, &workspaces)?) {
        return Ok(Answer::Overridden(name));
    }
    builder.answer(&tops, manifests)
}

/// The packages of a lock file.
fn packages_of(lock: Option<&Value>) -> Option<&Map<String, Value>> {
    lock?.get("packages")?.as_object()
}

/// What the root asks for beside its workspaces.
fn others<'d>(
    alloc: Global,
    asks: &[Ask<'d>],
    workspaces: &BTreeMap<&'d str, usize>,
) -> Result<Vec<Ask<'d>>> {
    let mut others = Vec::new(alloc);
    for ask in asks {
        if workspaces.get(&ask.name).is_none() {
            others.push(*ask)?;
        }
    }
    Ok(others)
}

impl<'v> Builder<'v> {
    /// Builds a tree, and begins anew while something is learnt.
    fn answer(&mut self, tops: &[Top<'v>], manifests: &[Manifest<'v>]) -> Result<Answer<'v>> {
        for attempt in 0..ATTEMPTS {
            let unmet = self.attempt(tops)?;
            if self.search.total == 0 {
                return Ok(Answer::Undecided);
            }
            let Some(unmet) = unmet else {
                return Ok(Answer::Tree(self.finished(manifests)?));
            };
            let is_last = attempt.saturating_add(1) == ATTEMPTS;
            if is_last || !self.learn(&unmet)? {
                return Ok(Answer::Conflict(self.conflict(&unmet)?));
            }
        }
        Ok(Answer::Undecided)
    }

    /// What cannot be met.
    fn conflict(&mut self, unmet: &Unmet) -> Result<Conflict<'v>> {
        let alloc = self.known.alloc;
        let mut asks = Vec::new(alloc);
        for at in &unmet.asks {
            let ask = self.tree.ask(*at);
            let pick = match self.known.offered(ask.want, 0)? {
                Some(version) => Some(self.known.key(version)),
                None => None,
            };
            asks.push(Told {
                name: self.known.texts.text(ask.name),
                kind: kind_of(ask.kind),
                spec: self.known.texts.text(ask.spec),
                pick,
            })?;
        }
        let at = String::from_str(alloc, self.tree.folder(unmet.from))?;
        Ok(Conflict { at, asks })
    }
}
