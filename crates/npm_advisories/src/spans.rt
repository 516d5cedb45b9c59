//! Spans of the versions that advisories are about, and of the releases that a range does not admit.
ghost use Rattle.std.specs.Prelude.{◌≡◌, ◌↔◌, IfOk, OnOk};
ghost use Rattle.std.specs.Bool.{OnFalse, OnTrue};
ghost use Rattle.std.specs.List.{AllByRecursion};
ghost use Rattle.node_semver.specs.Ranges.{IsRangeSet, RangeAdmits, RangeContains};
ghost use Rattle.node_semver.specs.Versions.{IsPrerelease, VersionValue};
ghost use Rattle.npm_advisories.specs.Offers.{IsAskedFor};
ghost use Rattle.npm_advisories.specs.Lemmas.Spans.{Have};
ghost use Rattle.npm_advisories.specs.Private.Spans.{IsInRange};

use crate::Result;
use crate::advisory::Advisory;
use node_semver::{Range, Version};
use npm_semver::NpmOptions;
use semver_cuts::Span;
use std::alloc::{AllocError, Global};

/// npm reads the range of a dependent so.
const ASKED: NpmOptions = NpmOptions {
    loose: true,
    include_prerelease: false,
};

/// The spans of the versions that the advisories are about.
pub(crate) fn sets_of(alloc: Global, advisories: &[Advisory<'_>]) -> Result<Vec<Span<Version>>>
    ensures { IfOk result (λ sets. Have sets.items (IsInRange advisories.now)) }
{
    let mut all = Vec::new(alloc);
    for advisory in advisories {
        let mut sets = advisory.sets(alloc)?;
        all.append(&mut sets)?;
    }
    Ok(all)
}

/// Adds spans of all releases that a range text does not admit. Returns `false` if the text is no range, and so admits
/// none.
pub(crate) fn add_outside(alloc: Global, spans: &mut Vec<Span<Version>>, text: &str) -> Result<bool>
    requires { AllByRecursion IsRangeSet spans.old.items }
    ensures holds { OnOk result (AllByRecursion IsRangeSet spans.new.items) }
    ensures range { IfOk result (λ is_range. OnTrue is_range ((v : VersionValue) → ¬ IsPrerelease v
        → (¬ RangeContains spans.new.items v) ↔ ((¬ RangeContains spans.old.items v) × IsAskedFor text.now v))) }
    ensures none { IfOk result (λ is_range. OnFalse is_range ((v : VersionValue) → ¬ IsAskedFor text.now v)) }
{
    let range = match npm_semver::parse_range(alloc, text, ASKED) {
        Ok(range) => range,
        Err(error) if error.is_out_of_memory() => return Err(AllocError),
        Err(_) => return Ok(false),
    };
    let mut sets = sets_outside(alloc, &range)?;
    spans.append(&mut sets)?;
    Ok(true)
}

/// The sets that have all releases which the range does not admit, and no other release.
fn sets_outside(alloc: Global, range: &Range) -> Result<Vec<Span<Version>>>
    ensures holds { IfOk result (λ sets. AllByRecursion IsRangeSet sets.items) }
    ensures releases { IfOk result (λ sets. (v : VersionValue) → ¬ IsPrerelease v
        → RangeContains sets.items v ↔ (¬ RangeAdmits range.now v)) }
{
    match Range::any(alloc)?.difference(alloc, range)? {
        Some(outside) => outside.sets(alloc),
        None => Ok(Vec::new(alloc)),
    }
}
