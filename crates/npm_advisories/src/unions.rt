//! All versions that the advisories about one package are about, merged once: copies of the package are searched in them.
ghost use Rattle.std.specs.Prelude.{◌≡◌, IfOk, OnOk, filter, map, option_map};
ghost use Rattle.npm_advisories.specs.Advisories.{about_value};
ghost use Rattle.npm_advisories.specs.Hits.{AreKept};
ghost use Rattle.npm_advisories.specs.Private.Spans.{IsHitBy};
ghost use Rattle.npm_advisories.specs.Private.Unions.{AreUnions, IsKnown, IsUnion, union_at};
ghost use Rattle.npm_advisories.specs.Severities.{is_at_least};
ghost use Rattle.npm_advisories.specs.declared.index.Index.{Index};

use crate::advisory::Advisory;
use crate::covered::covered_by;
use crate::each::{about_each, of_level};
use crate::halves::Halves;
use crate::index::Index;
use crate::spans::sets_of;
use crate::{About, Result, Severity};
use node_semver::{Version, VersionRef};
use semver_cuts::Span;
use std::alloc::Global;
use std::collections::BTreeMap;

/// All versions that advisories are about.
#[derive(Drop)]
pub(crate) struct Union<'f> {
    /// The versions of the list and of its halves.
    halves: Halves,
    /// All releases among them.
    covered: Vec<Span<Version>>,
    /// What the advisories that are about each release say of themselves.
    each: Vec<About<'f>>,
}

impl<'f> Union<'f> {
    /// Those of the advisories of a list.
    fn of(alloc: Global, advisories: &[Advisory<'f>]) -> Result<Union<'f>>
        ensures { IfOk result (IsUnion advisories.now) }
    {
        let halves = Halves::of(alloc, advisories)?;
        let sets = sets_of(alloc, advisories)?;
        let covered = covered_by(alloc, &sets)?;
        let each = about_each(alloc, advisories, &covered)?;
        Ok(Union {
            halves,
            covered,
            each,
        })
    }

    /// What the advisories of the list that hit a version say of themselves; all of the level if there is no version.
    pub(crate) fn hits(
        &self,
        alloc: Global,
        advisories: &[Advisory<'f>],
        level: Severity,
        version: &Option<VersionRef<'_>>,
    ) -> Result<Vec<About<'f>>>
        requires { IsUnion advisories.now self.now }
        ensures { IfOk result (λ hits. AreKept (IsHitBy level version.now) (λ advisory. about_value advisory.about)
            advisories.now (map about_value hits.items)) }
    {
        let mut hits = Vec::new(alloc);
        self.halves
            .add_hits(alloc, advisories, level, version, &mut hits)?;
        Ok(hits)
    }

    /// What the advisories of the list that are about each release say of themselves: they hit a package without a version.
    pub(crate) fn hits_of_each(&self, alloc: Global, level: Severity) -> Result<Vec<About<'f>>>
        ensures { IfOk result (λ hits. map about_value hits.items
            ≡ filter (λ about. is_at_least level about.severity) (map about_value self.now.each.items)) }
    {
        of_level(alloc, &self.each, level)
    }

    /// All releases among the versions, as spans.
    pub(crate) fn covered(&self) -> &[Span<Version>]
        ensures { result.now ≡ self.now.covered.items }
    {
        &self.covered
    }
}

/// The unions by the names of packages.
#[derive(Drop)]
pub(crate) struct Unions<'f, 'v> {
    by_name: BTreeMap<&'v str, Union<'f>>,
}

impl<'f, 'v> Unions<'f, 'v> {
    pub(crate) fn new(alloc: Global) -> Unions<'f, 'v>
        ensures { (index : Index) → AreUnions index result }
    {
        Unions {
            by_name: BTreeMap::new(alloc),
        }
    }

    /// Adds the union of the advisories about a package, unless it is there.
    pub(crate) fn add(&mut self, alloc: Global, index: &Index<'f>, name: &'v str) -> Result<()>
        ensures all { OnOk result (AreUnions index.now self.old → AreUnions index.now self.new) }
        ensures here { OnOk result (AreUnions index.now self.old → IsKnown index.now self.new name.now) }
    {
        if self.by_name.contains_key(name) {
            return Ok(());
        }
        let Some(advisories) = index.at(name) else {
            return Ok(());
        };
        let all = Union::of(alloc, advisories)?;
        self.by_name.insert(name, all)?;
        Ok(())
    }

    /// The union of the advisories about a package, if it was added.
    pub(crate) fn at(&self, name: &str) -> Option<&Union<'f>>
        ensures { option_map (λ union. union.now) result ≡ union_at self.now name.now }
    {
        self.by_name.get(name)
    }
}
