//! Which advisories hit a version.
ghost use Rattle.std.specs.Prelude.{◌↔◌, IfOk, IsTrue, map};
ghost use Rattle.npm_advisories.specs.Hits.{AreKept};
ghost use Rattle.npm_advisories.specs.Advisories.{about_value};
ghost use Rattle.npm_advisories.specs.Private.Spans.{IsHitBy, IsIn};

use crate::advisory::Advisory;
use crate::{About, Result, Severity};
use node_semver::VersionRef;
use std::alloc::Global;

/// What the advisories of a list that hit a version say of themselves; all of the level if there is no version.
pub(crate) fn hits_of<'v>(
    alloc: Global,
    advisories: &[Advisory<'v>],
    level: Severity,
    version: &Option<VersionRef<'_>>,
) -> Result<Vec<About<'v>>>
    ensures { IfOk result (λ hits. AreKept (IsHitBy level version.now) (λ advisory. about_value advisory.about)
        advisories.now (map about_value hits.items)) }
{
    let mut hits = Vec::new(alloc);
    for advisory in advisories {
        if is_hit(advisory, level, version) {
            hits.push(advisory.about)?;
        }
    }
    Ok(hits)
}

fn is_hit(advisory: &Advisory<'_>, level: Severity, version: &Option<VersionRef<'_>>) -> bool
    ensures { IsTrue result ↔ IsHitBy level version.now advisory.now }
{
    advisory.about.severity.is_at_least(level) && is_in(advisory, version)
}

fn is_in(advisory: &Advisory<'_>, version: &Option<VersionRef<'_>>) -> bool
    ensures { IsTrue result ↔ IsIn advisory.now version.now }
{
    match version {
        Some(version) => advisory.is_about(version),
        None => true,
    }
}
