//! What is wrong with one dependency, and with the version of Node.
ghost use Rattle.std.specs.Prelude.{◌≡◌, ◌&&◌, [], ◌∷◌, IfOk, OnOk, option_and_then, option_map, string_bytes};
ghost use Rattle.serde_json.specs.View.{view};
ghost use Rattle.npm_lock.specs.Findings.{IsNodeOutcome, finding_of};
ghost use Rattle.npm_lock.specs.Outcomes as Outcomes;
ghost use Rattle.npm_lock.specs.Outcomes.{IsOutcome, IsVerdictOn, dependency_value, problem_value, unknown, wrong};
ghost use Rattle.npm_lock.specs.Private.Adding.{Adds};
ghost use Rattle.npm_lock.specs.Private.JudgementValue.{judgement_value};
ghost use Rattle.npm_packages.specs.Edges as Edges;
ghost use Rattle.npm_packages.specs.Edges.{edge_value};
ghost use Rattle.npm_packages.specs.Packages as Packages;
ghost use Rattle.npm_packages.specs.PackageValue.{asked_value, package_value, packages_data};
ghost use Rattle.npm_packages.specs.Index.{IsIndexOf};
ghost use Rattle.npm_lock.specs.Private.Patterns.{ArePatternsOf};
ghost use Rattle.npm_packages.specs.Lookups.{IsOutermostFrom};

use crate::Result;
use crate::patterns::Patterns;
use crate::problem::{Dependency, Kind, Problem, Problems, Reason, Unchecked};
use crate::verdict::{Verdict, is_contained, verdict_of_both};
use crate::workspace::{Workspace, workspace_as};
use node_semver::Version;
use npm_packages::{Asked, Edge, Index, Lock, Package, version_of};
use npm_texts::{copied, has_true};
use serde_json::Value;
use std::alloc::Global;

/// What is found out about a dependency.
#[derive(Clone, Copy)]
pub(crate) enum Judgement<'v> {
    Fine,
    /// A problem, with the package that was found, if one was.
    Wrong(Kind, Option<Package<'v>>),
    /// It is not checked. The package was found.
    Unknown(Reason, Package<'v>),
}

/// A package whose dependencies are judged, and what is found out about it once for all of them.
#[derive(Clone, Copy)]
pub(crate) struct Asker<'a, 'v> {
    pub package: Package<'v>,
    pub patterns: &'a Patterns<'v>,
    /// The last folder in which names are looked up from that of the package.
    pub outermost: &'a str,
    pub is_installed: bool,
}

/// Returns the judgement of a dependency of a package.
pub(crate) fn judgement_of<'v>(
    lock: Lock<'v>,
    index: &Index<'v>,
    asker: &Asker<'_, 'v>,
    name: &'v str,
    asked: Asked<'v>,
) -> Result<Judgement<'v>>
    requires index { IsIndexOf (packages_data lock) index.now }
    requires patterns { ArePatternsOf asker.now.package.folder.now (view asker.now.package.member.now)
        asker.now.patterns.now }
    requires outermost { IsOutermostFrom asker.now.package.folder.now asker.now.outermost.now }
    ensures { IfOk result (λ judgement. IsOutcome (packages_data lock.entry) asker.now.package.folder.now
        (view asker.now.package.member.now) asker.now.is_installed name.now (asked_value asked.entry)
        (judgement_value judgement)) }
{
    let package = asker.package;
    let Some((found, is_own)) = lock.find(index, package.folder, asker.outermost, name) else {
        return Ok(if asked.is_needed {
            Judgement::Wrong(Kind::Missing, None)
        } else {
            Judgement::Fine
        });
    };
    if is_local_peer(asked, asker.is_installed, is_own) {
        return Ok(Judgement::Wrong(Kind::PeerLocal, Some(found)));
    }
    match verdict_on(lock, package, asker.patterns, name, asked, found)? {
        Verdict::Valid => Ok(Judgement::Fine),
        Verdict::Unchecked(reason) => Ok(Judgement::Unknown(reason, found)),
        Verdict::Invalid => Ok(Judgement::Wrong(Kind::Invalid, Some(found))),
    }
}

/// Returns `true` for a peer of an installed package that is found in that package's own `node_modules`.
fn is_local_peer(asked: Asked<'_>, is_installed: bool, is_own: bool) -> bool
    ensures { result ≡ (asked.entry.is_peer && (is_installed && is_own)) }
{
    asked.is_peer && is_installed && is_own
}

/// Adds the judgement of a dependency of a package. The usual one, that nothing is wrong, is added here, without the places that the
/// others take.
#[inline(always)]
pub(crate) fn add_judgement(
    problems: &mut Problems,
    alloc: Global,
    asker: Package<'_>,
    name: &str,
    asked: Asked<'_>,
    judgement: Judgement<'_>,
) -> Result<()>
    ensures { OnOk result (Adds problems.old problems.new (finding_of asker.entry.folder.now
        (view asker.entry.member.now) name.now (asked_value asked.entry) (judgement_value judgement.entry) ∷ [])) }
{
    match judgement {
        Judgement::Fine => {
            problems.add_fine();
            Ok(())
        }
        Judgement::Wrong(kind, found) => add_wrong(
            problems, alloc, asker, name, asked, kind, found,
        ),
        Judgement::Unknown(reason, found) => {
            add_unknown(problems, alloc, asker, name, asked, reason, found)
        }
    }
}

/// Adds a problem with a dependency of a package, for which this package was found, if one was.
#[inline(never)]
fn add_wrong(
    problems: &mut Problems,
    alloc: Global,
    asker: Package<'_>,
    name: &str,
    asked: Asked<'_>,
    kind: Kind,
    found: Option<Package<'_>>,
) -> Result<()>
    ensures { OnOk result (Adds problems.old problems.new (finding_of asker.entry.folder.now
        (view asker.entry.member.now) name.now (asked_value asked.entry)
        (wrong kind (option_map package_value found.entry)) ∷ [])) }
{
    let edge = edge_of(asker.folder, name, asked, found);
    let dependency = dependency_of(alloc, asker.member, &edge)?;
    problems.add_dependency(Some(Problem { kind, dependency }), None)
}

/// Adds a dependency of a package that is not checked, for which this package was found.
#[inline(never)]
fn add_unknown(
    problems: &mut Problems,
    alloc: Global,
    asker: Package<'_>,
    name: &str,
    asked: Asked<'_>,
    reason: Reason,
    found: Package<'_>,
) -> Result<()>
    ensures { OnOk result (Adds problems.old problems.new (finding_of asker.entry.folder.now
        (view asker.entry.member.now) name.now (asked_value asked.entry)
        (unknown reason (package_value found.entry)) ∷ [])) }
{
    let edge = edge_of(asker.folder, name, asked, Some(found));
    let dependency = dependency_of(alloc, asker.member, &edge)?;
    problems.add_dependency(None, Some(Unchecked { reason, dependency }))
}

/// A dependency of the package in a folder, for which this package was found, if one was.
pub(crate) fn edge_of<'v>(
    folder: &'v str,
    name: &'v str,
    asked: Asked<'v>,
    found: Option<Package<'v>>,
) -> Edge<'v>
    ensures { edge_value result
        ≡ Edges.edge_of folder.now name.now (asked_value asked.entry) (option_map package_value found.entry) }
{
    Edge {
        from: folder,
        name,
        spec: asked.spec,
        is_needed: asked.is_needed,
        is_peer: asked.is_peer,
        is_dev: asked.is_dev,
        is_overridden: asked.is_overridden,
        to: folder_in(found),
        version: version_in(found),
    }
}

fn folder_in<'v>(found: Option<Package<'v>>) -> Option<&'v str>
    ensures { option_map (λ text. text.now) result
        ≡ option_map (λ there. there.folder) (option_map package_value found.entry) }
{
    Some(found?.folder)
}

fn version_in<'v>(found: Option<Package<'v>>) -> Option<&'v str>
    ensures { option_map (λ text. text.now) result
        ≡ option_and_then (λ there. Packages.version_of there.member) (option_map package_value found.entry) }
{
    version_of(found?.member)
}

/// Returns a dependency with the version and the marks of the package that asks.
///
/// # Errors
///
/// An allocation failed.
pub fn dependency_of(alloc: Global, asker: &Value, edge: &Edge<'_>) -> Result<Dependency>
    ensures { IfOk result (λ dependency. dependency_value dependency
        ≡ Outcomes.dependency_of (view asker.now) (edge_value edge.now)) }
{
    Ok(Dependency {
        from: String::from_str(alloc, edge.from)?,
        from_version: copied(alloc, version_of(asker))?,
        name: String::from_str(alloc, edge.name)?,
        spec: String::from_str(alloc, edge.spec)?,
        to: copied(alloc, edge.to)?,
        version: copied(alloc, edge.version)?,
        dev: is_marked(asker, "dev", edge.is_dev),
        optional: is_marked(asker, "optional", !edge.is_needed),
        peer: is_marked(asker, "peer", edge.is_peer),
    })
}

/// The verdict on a package that was found. A workspace of the root is valid whatever the spec.
fn verdict_on<'v>(
    lock: Lock<'_>,
    asker: Package<'_>,
    patterns: &Patterns<'v>,
    name: &str,
    asked: Asked<'_>,
    found: Package<'v>,
) -> Result<Verdict>
    requires { ArePatternsOf asker.folder.now (view asker.member.now) patterns.now }
    ensures { IfOk result (IsVerdictOn asker.entry.folder.now
        (view asker.entry.member.now) name.now (asked_value asked.entry) (package_value found.entry)) }
{
    match workspace_as(asker, patterns, name, found) {
        Workspace::Is => Ok(Verdict::Valid),
        Workspace::Unread => Ok(Verdict::Unchecked(Reason::Workspace)),
        Workspace::IsNot if asked.is_overridden => Ok(Verdict::Unchecked(Reason::Override)),
        Workspace::IsNot => {
            let version = version_of(found.member);
            verdict_of_both(lock.alloc, asker.member, name, asked.spec, version)
        }
    }
}

/// The problem of a package whose `engines.node` does not admit the version of Node, if one is given.
pub(crate) fn engine_problem(
    alloc: Global,
    node: Option<&Version>,
    asker: Package<'_>,
) -> Result<Option<Problem>>
    ensures { IfOk result (λ problem. IsNodeOutcome (option_map (λ version. version.now) node.entry)
        asker.entry.folder.now (view asker.entry.member.now) (option_map problem_value problem)) }
{
    let Some(node) = node else {
        return Ok(None);
    };
    let Some(spec) = engine_of(asker.member) else {
        return Ok(None);
    };
    if is_contained(alloc, spec, node)? {
        return Ok(None);
    }
    let version = node.to_string(alloc)?;
    let edge = engine_edge(asker.folder, spec, Some(version.as_str()));
    let dependency = dependency_of(alloc, asker.member, &edge)?;
    let kind = Kind::Engine;
    Ok(Some(Problem { kind, dependency }))
}

/// The `engines.node` of the package in a folder as a dependency, for which this version of Node is found.
fn engine_edge<'v>(folder: &'v str, spec: &'v str, version: Option<&'v str>) -> Edge<'v>
    ensures { edge_value result
        ≡ Outcomes.engine_edge folder.now spec.now (option_map (λ text. text.now) version.entry) }
{
    let to = None;
    Edge {
        from: folder,
        name: "node",
        spec,
        is_needed: true,
        is_peer: false,
        is_dev: false,
        is_overridden: false,
        to,
        version,
    }
}

/// Returns `true` if the lock file marks the package so, or the dependency itself is so.
fn is_marked(member: &Value, mark: &str, is_so: bool) -> bool
    ensures { result ≡ Outcomes.is_marked mark.now (view member.now) is_so }
{
    has_true(member, mark) || is_so
}

/// What a package says of Node. Old packages have a list there, which says nothing, and an optional one is not asked.
fn engine_of(member: &Value) -> Option<&str>
    ensures { option_map (λ text. text.now) result ≡ Outcomes.engine_of (view member.now) }
{
    if has_true(member, "optional") {
        return None;
    }
    member.get("engines")?.get("node")?.as_str()
}
