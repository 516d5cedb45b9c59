//! A list of advisories in halves, so that a search passes over those that do not hit a version.
ghost use Rattle.std.specs.Prelude.{◌≡◌, ◌++◌, ◌↔◌, IfOk, IsTrue, List, OnOk, map};
ghost use Rattle.node_semver.specs.RangeAlgebra.{sets_of_answer};
ghost use Rattle.node_semver.specs.Ranges.{RangeContains};
ghost use Rattle.node_semver.specs.Versions.{VersionValue};
ghost use Rattle.npm_advisories.specs.Advisories.{about_value};
ghost use Rattle.npm_advisories.specs.Hits.{AreKept};
ghost use Rattle.npm_advisories.specs.Private.Halves.{AreHalves, IsRangeAbout};
ghost use Rattle.npm_advisories.specs.Private.Spans.{IsHitBy, IsPast};
ghost use Rattle.npm_advisories.specs.declared.advisory.About.{About};
ghost use Rattle.npm_advisories.specs.declared.advisory.Advisory.{Advisory};

use crate::advisory::Advisory;
use crate::hits::hits_of;
use crate::spans::sets_of;
use crate::{About, Result, Severity};
use node_semver::{Range, VersionRef};
use npm_semver::range_from_sets;
use std::alloc::Global;

/// A list with at most so many advisories is not halved.
const FEW: usize = 8;

/// How a list of advisories is searched.
#[derive(Drop)]
pub(crate) enum Halves {
    /// One after another.
    Whole,
    /// Not at all, if the version is outside the range, which has all versions that they are about; otherwise its two halves.
    Halved(Option<Range>, Box<Halves>, Box<Halves>),
}

impl Halves {
    pub(crate) fn of(alloc: Global, advisories: &[Advisory<'_>]) -> Result<Halves>
        ensures { IfOk result (AreHalves advisories.now) }
    {
        if advisories.len() <= FEW {
            return Ok(Halves::Whole);
        }
        let all = range_about(alloc, advisories)?;
        let (ones, others) = advisories.split_at(advisories.len() / 2);
        let first = Halves::of(alloc, ones)?;
        let second = Halves::of(alloc, others)?;
        Ok(Halves::Halved(all, Box::new(alloc, first)?, Box::new(alloc, second)?))
    }

    /// Adds what the advisories that hit a version say of themselves; all of the level if there is no version.
    pub(crate) fn add_hits<'v>(
        &self,
        alloc: Global,
        advisories: &[Advisory<'v>],
        level: Severity,
        version: &Option<VersionRef<'_>>,
        hits: &mut Vec<About<'v>>,
    ) -> Result<()>
        requires { AreHalves advisories.now self.now }
        ensures { OnOk result ((more : List About) × (hits.new.items ≡ hits.old.items ++ more)
            × AreKept (IsHitBy level version.now) (λ advisory. about_value advisory.about) advisories.now
            (map about_value more)) }
    {
        match self {
            Halves::Whole => {
                let mut few = hits_of(alloc, advisories, level, version)?;
                hits.append(&mut few)
            }
            Halves::Halved(all, first, second) => {
                if is_past(all, version) {
                    return Ok(());
                }
                let (ones, others) = advisories.split_at(advisories.len() / 2);
                first.add_hits(alloc, ones, level, version, hits)?;
                second.add_hits(alloc, others, level, version, hits)
            }
        }
    }
}

/// All versions that the advisories are about; `None` if there are none.
pub(crate) fn range_about(alloc: Global, advisories: &[Advisory<'_>]) -> Result<Option<Range>>
    ensures { IfOk result (IsRangeAbout advisories.now) }
{
    range_from_sets(alloc, &sets_of(alloc, advisories)?)
}

/// Returns `true` if it is known that no advisory is about the version. If the version is not known, nothing is.
fn is_past(all: &Option<Range>, version: &Option<VersionRef<'_>>) -> bool
    ensures { (advisories : List Advisory) → IsRangeAbout advisories all.now → IsTrue result
        → IsPast advisories version.now }
{
    match (version, all) {
        (Some(version), Some(all)) => !all.contains(version),
        (Some(_), None) => true,
        (None, _) => false,
    }
}
