//! The audit of installed packages.
ghost use Rattle.std.specs.Prelude.{◌≡◌, [], List, IfErr, IfOk, None, OnOk, Option, map};
ghost use Rattle.std.specs.List.{AllZip};
ghost use Rattle.std.specs.Option.{MatchOption};
ghost use Rattle.serde_json.specs.View.{view};
ghost use Rattle.node_semver.specs.Ranges.{IsRangeEnd};
ghost use Rattle.npm_advisories.specs.Advisories.{AdvisoryValue, about_name, about_value};
ghost use Rattle.npm_advisories.specs.Audit.{IsAudit, IsSpared, found_value, installed_value, names_of, version_or_least};
ghost use Rattle.npm_advisories.specs.Files.{IsAuditError, IsFileFault, advisories_of, is_among};
ghost use Rattle.npm_advisories.specs.Private.Auditing.{IsFoundOf, IsFoundWith};
ghost use Rattle.npm_advisories.specs.Private.Covering.{AreSteps};
ghost use Rattle.npm_advisories.specs.Index.{IsAdvisory, IsIndex, at_name};
ghost use Rattle.npm_advisories.specs.Private.Unions.{IsKnown};

use crate::index::Index;
use crate::names::names_of;
use crate::offer::offer_above;
use crate::read::read_file;
use crate::unions::Unions;
use crate::version::read_version;
use crate::{About, AuditError, Result, Severity};
use node_semver::{Version, VersionRef};
use semver_cuts::Span;
use serde_json::Value;
use std::alloc::Global;
use toml_datetime::Date;

/// An installed package.
#[derive(Drop)]
pub struct Installed<'v> {
    /// Where it is. The audit only repeats it.
    pub folder: &'v str,
    pub name: &'v str,
    /// `None`: the package has none, as one in a folder or in a repository may have none.
    pub version: Option<&'v str>,
    /// The range texts of its dependents.
    pub asked: Vec<&'v str>,
}

/// An installed package that is hit. Borrows from the advisories and from the installed package.
#[derive(Drop)]
pub struct Found<'f, 'v> {
    pub folder: &'v str,
    pub name: &'v str,
    pub version: Option<&'v str>,
    /// The advisories that hit it, in the order of the file.
    pub hits: Vec<About<'f>>,
    /// The least release above its version that no advisory about its name hits.
    pub least: Option<Version>,
    /// The least such release that each of the range texts admits.
    pub admitted: Option<Version>,
}

/// Returns the installed packages that an advisory hits, in their order.
///
/// The advisories are in npm's form or in OSV's: a list, or an object whose `id` is a string, is in OSV's form. An advisory is
/// about the package of its name. It hits a version that lies inside its range, prerelease or not, as npm does. Those that
/// are less severe than the level are left out of the hits. An advisory whose severity is unknown is never left out. The
/// offered versions are hit by none of them, whatever the severity.
///
/// An advisory in OSV's form that is withdrawn today or earlier hits nothing. One that is withdrawn on a later day counts until then.
///
/// A version is read as npm reads it: `=1.2.3` is 1.2.3. A version that is none is hit by each advisory about the name, since
/// nobody knows which one it is. Then the least releases of all are offered. A package without a version is hit by those that are
/// about each release, and no version is offered.
///
/// # Errors
///
/// - `Refused`: the value is no advisories in either form, with the first fault and its place. An advisory that cannot be about an
///   installed package is not read, and so has no fault.
/// - `Memory`: an allocation failed.
///
/// # Memory
///
/// Allocates an index of the advisories about installed packages, with their ranges, and for each name the versions and the
/// releases that these are about, and those of each half of more than eight. Of a package that is hit, allocates its hits and, for
/// the time of the call, the sets of the range texts.
pub fn audit<'f, 'v>(
    alloc: Global,
    file: &'f Value,
    today: Date,
    level: Severity,
    installed: &[Installed<'v>],
) -> Result<Vec<Found<'f, 'v>>, AuditError<'f>>
    ensures found { IfOk result (λ found. IsAudit level (advisories_of today (view file.now))
        (map installed_value installed.now) (map found_value found.items)) }
    ensures sound { OnOk result (IsFileFault today (names_of (map installed_value installed.now)) (view file.now) None) }
    ensures refused { IfErr result
        (IsAuditError today (names_of (map installed_value installed.now)) (view file.now)) }
{
    let names = names_of(alloc, installed)?;
    let index = read_file(alloc, today, &names, file)?;
    Ok(found_in(alloc, &index, level, installed)?)
}

/// The installed packages that an advisory of the index hits.
fn found_in<'f, 'v>(
    alloc: Global,
    index: &Index<'f>,
    level: Severity,
    installed: &[Installed<'v>],
) -> Result<Vec<Found<'f, 'v>>>
    ensures { IfOk result (λ found. (values : List AdvisoryValue)
        → IsIndex (is_among (names_of (map installed_value installed.now))) values index.now
        → IsAudit level values (map installed_value installed.now) (map found_value found.items)) }
{
    let mut all = Vec::new(alloc);
    let mut unions = Unions::new(alloc);
    for one in installed {
        unions.add(alloc, index, one.name)?;
        if let Some(found) = found_of(alloc, index, &unions, level, one)? {
            all.push(found)?;
        }
    }
    Ok(all)
}

/// What is found of an installed package, if an advisory of the index hits it.
fn found_of<'f, 'v>(
    alloc: Global,
    index: &Index<'f>,
    unions: &Unions<'f, 'v>,
    level: Severity,
    installed: &Installed<'v>,
) -> Result<Option<Found<'f, 'v>>>
    requires { IsKnown index.now unions.now installed.now.name.now }
    ensures { IfOk result (λ found. (values : List AdvisoryValue)
        → AllZip IsAdvisory (about_name installed.now.name.now values) (at_name index.now installed.now.name.now)
        → MatchOption found
        (IsSpared level (about_name installed.now.name.now values) (installed_value installed.now))
        (IsFoundOf level values installed.now)) }
{
    let Some(advisories) = index.at(installed.name) else {
        return Ok(None);
    };
    let Some(union) = unions.at(installed.name) else {
        return Ok(None);
    };
    match installed.version {
        Some(text) => {
            let version = read_version(text);
            let hits = union.hits(alloc, advisories, level, &version)?;
            found_with(alloc, installed, union.covered(), &version, hits)
        }
        None => {
            let hits = union.hits_of_each(alloc, level)?;
            found_with(alloc, installed, union.covered(), &None, hits)
        }
    }
}

/// What is found of an installed package that these advisories hit, if there are some. The spans are the releases that any advisory about
/// its name is about.
fn found_with<'f, 'v>(
    alloc: Global,
    installed: &Installed<'v>,
    covered: &[Span<Version>],
    version: &Option<VersionRef<'_>>,
    hits: Vec<About<'f>>,
) -> Result<Option<Found<'f, 'v>>>
    requires end { IsRangeEnd (version_or_least version.now) }
    requires covered { AreSteps covered.now }
    ensures { IfOk result (λ found. MatchOption found (map about_value hits.entry.items ≡ [])
        (λ found. IsFoundWith covered.now (installed_value installed.now) version.now (map about_value hits.entry.items) (found_value found))) }
{
    if hits.as_slice().is_empty() {
        return Ok(None);
    }
    let offer = offer_above(alloc, version, covered, &installed.asked)?;
    Ok(Some(Found {
        folder: installed.folder,
        name: installed.name,
        version: installed.version,
        hits,
        least: offer.least,
        admitted: offer.admitted,
    }))
}
