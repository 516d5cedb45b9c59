//! The dependencies of a lock file that are outdated.
ghost use Rattle.std.specs.Prelude.{◌≡◌, IfErr, IfOk, map, option_map};
ghost use Rattle.std.specs.Fn.{FnReturnsAt};
ghost use Rattle.std.specs.List.{AllZip};
ghost use Rattle.serde_json.specs.View.{view};
ghost use Rattle.npm_packages.specs.Edges.{edge_value};
ghost use Rattle.npm_pick_reports.specs.Outdated as Rows;
ghost use Rattle.npm_pick_reports.specs.Outdated.{IsNeededFor, IsNeededForOne, IsOutcome, IsOutcomeOf, IsPickedAs, outcome_value};
ghost use Rattle.npm_pick_reports.specs.Loading.{IsLoadFailure};

use crate::load_error::LoadError;
use crate::run_error::RunError;
use npm_packages::Edge;
use npm_pick::{Options, PickError, pick};
use npm_texts::registry_spec;
use serde_json::Value;
use std::alloc::{AllocError, Global};

/// A dependency that is outdated: the installed version is not the wanted one, or the wanted one is not the latest.
#[derive(Drop)]
pub struct Row<'v> {
    pub edge: Edge<'v>,
    /// The version that npm would install.
    pub wanted: String,
    /// The version that npm would install for `*`.
    pub latest: String,
}

/// The outcome of a dependency.
#[derive(Drop)]
pub enum Outcome<'v> {
    Outdated(Row<'v>),
    /// There is no document of the package.
    Absent,
    /// It is current, or is not from a registry, or no version is picked for it.
    Passed,
}

impl<'v> Outcome<'v> {
    /// Returns `true` for a dependency that is outdated.
    pub fn is_outdated(&self) -> bool
        ensures { result ≡ Rows.is_outdated (outcome_value self.now) }
    {
        match self {
            Outcome::Outdated(_) => true,
            Outcome::Absent | Outcome::Passed => false,
        }
    }

    /// Returns `true` for a dependency that has no document.
    pub fn is_absent(&self) -> bool
        ensures { result ≡ Rows.is_absent (outcome_value self.now) }
    {
        match self {
            Outcome::Absent => true,
            Outcome::Outdated(_) | Outcome::Passed => false,
        }
    }
}

/// Returns the outcome of each of these dependencies. `load` returns the document of a package, if there is one. It fails if the
/// document of a package that one of them asks for is not read.
pub fn outcomes_of<'v, F: Fn(&str) -> Result<Option<Value>, LoadError>>(
    alloc: Global,
    edges: &[Edge<'v>],
    all: bool,
    options: &Options<'_>,
    load: F,
) -> Result<Vec<Outcome<'v>>, RunError>
    requires { F.IsAlwaysCallable load }
    ensures found { IfOk result (λ outcomes. AllZip (IsOutcome (FnReturnsAt F.Fn load) all options.now)
        (map edge_value edges.now) (map outcome_value outcomes.items)) }
    ensures failed { IfErr result (IsLoadFailure (IsNeededForOne all (map edge_value edges.now)) (FnReturnsAt F.Fn load)) }
{
    let mut outcomes = Vec::new(alloc);
    for edge in edges {
        let outcome = match outcome_of(alloc, *edge, all, options, &load) {
            Ok(outcome) => outcome,
            Err(error) => return Err(error),
        };
        match outcomes.push(outcome) {
            Ok(()) => {}
            Err(_) => return Err(RunError::Memory),
        }
    }
    Ok(outcomes)
}

/// The outcome of a dependency.
fn outcome_of<'v, F: Fn(&str) -> Result<Option<Value>, LoadError>>(
    alloc: Global,
    edge: Edge<'v>,
    all: bool,
    options: &Options<'_>,
    load: &F,
) -> Result<Outcome<'v>, RunError>
    requires { F.IsAlwaysCallable load.now }
    ensures found { IfOk result (λ outcome. IsOutcome (FnReturnsAt F.Fn load.now) all options.now
        (edge_value edge.entry) (outcome_value outcome)) }
    ensures failed { IfErr result (IsLoadFailure (IsNeededFor all (edge_value edge.entry)) (FnReturnsAt F.Fn load.now)) }
{
    if is_passed(&edge, all) {
        return Ok(Outcome::Passed);
    }
    let Some(request) = registry_spec(edge.name, edge.spec) else {
        return Ok(Outcome::Passed);
    };
    match load(request.name) {
        Ok(Some(packument)) => outcome_by_document(alloc, edge, &packument, request.text, options),
        Ok(None) => Ok(Outcome::Absent),
        Err(error) => Err(RunError::Load(error)),
    }
}

/// Returns `true` for a dependency that is left out: one of another package than the root, unless all count; one that
/// `overrides` change in a way that is not read; and, as npm does, one in development alone or a peer that is missing.
fn is_passed(edge: &Edge<'_>, all: bool) -> bool
    ensures { result ≡ Rows.is_passed all (edge_value edge.now) }
{
    if !all && !edge.from.is_empty() {
        return true;
    }
    if edge.is_overridden {
        return true;
    }
    edge.to.is_none() && edge.is_needed && (edge.is_peer || edge.is_dev)
}

/// The outcome of a dependency, by the document of its package.
fn outcome_by_document<'v>(
    alloc: Global,
    edge: Edge<'v>,
    packument: &Value,
    text: &str,
    options: &Options<'_>,
) -> Result<Outcome<'v>, RunError>
    ensures found { IfOk result (λ outcome. IsOutcomeOf (view packument.now) options.now text.now (edge_value edge.entry)
        (outcome_value outcome)) }
    ensures failed { IfErr result (λ error. error ≡ RunError.Memory) }
{
    let Some(wanted) = key_of(alloc, packument, text, options)? else {
        return Ok(Outcome::Passed);
    };
    let Some(latest) = key_of(alloc, packument, "*", options)? else {
        return Ok(Outcome::Passed);
    };
    if is_current(&edge, wanted, latest) {
        return Ok(Outcome::Passed);
    }
    let wanted = String::from_str(alloc, wanted)?;
    let latest = String::from_str(alloc, latest)?;
    Ok(Outcome::Outdated(Row {
        edge,
        wanted,
        latest,
    }))
}

/// The version that npm would install for a text.
fn key_of<'p>(
    alloc: Global,
    packument: &'p Value,
    text: &str,
    options: &Options<'_>,
) -> Result<Option<&'p str>, RunError>
    ensures found { IfOk result (λ key. IsPickedAs (view packument.now) options.now text.now
        (option_map (λ key. key.now) key)) }
    ensures failed { IfErr result (λ error. error ≡ RunError.Memory) }
{
    match pick(alloc, packument, text, options) {
        Ok(picked) => Ok(Some(picked.key)),
        Err(error) => match error {
            PickError::Memory => Err(RunError::Memory),
            _ => Ok(None),
        },
    }
}

/// Returns `true` if the wanted version is installed, and is the latest.
fn is_current(edge: &Edge<'_>, wanted: &str, latest: &str) -> bool
    ensures { result ≡ Rows.is_current (edge_value edge.now) wanted.now latest.now }
{
    match edge.version {
        Some(version) => version == wanted && wanted == latest,
        None => false,
    }
}
