//! Which versions lie inside the sets of a range.
ghost use Rattle.std.specs.Prelude.{◌↔◌, IsTrue};
ghost use Rattle.semver_sets.specs.Meaning.{RangeContains};
ghost use Rattle.semver_sets.specs.Searching.{IsShortSearchInside};

use crate::{AsVersion, Comparisons, Range};

impl Range {
    /// Returns `true` if the version lies inside one of the range's sets. A prerelease is treated as a release is.
    ///
    /// So each version that satisfies the range is contained in it, and each release that it contains satisfies it.
    /// [`Range::satisfies`] turns other prereleases away, unless an end of a set is a prerelease of the same triple.
    ///
    /// The version can be of any type with the trait [`AsVersion`].
    ///
    /// # Memory
    ///
    /// Does not allocate.
    ///
    /// # Examples
    ///
    /// `^1.2.3-rc.4 || >=3` contains `1.9.0`, `1.2.4-rc.6` and `4.0.0-rc.1`, and only the first of them satisfies it. It
    /// contains neither `2.0.0`, nor `2.0.0-rc.1`, nor `3.0.0-rc.1`, which is less than `3.0.0`.
    ///
    /// # Source
    ///
    /// npm's `semver`: `satisfies` with `includePrerelease`, for the sets of this range. With that option npm also reads
    /// some texts as other sets: `^1.2` then begins at `1.2.0-0`.
    pub fn contains<V: AsVersion>(&self, version: &V) -> bool
        ensures { IsTrue result ↔ RangeContains self.now (V.seen version.now) }
    {
        self.contains_counted(version, &mut Comparisons::new())
    }

    /// Returns `true` if the version lies inside one of the range's sets, as [`Range::contains`] does, and counts the
    /// comparisons.
    ///
    /// Each version, also a prerelease, is found by binary search among the merged spans of the sets. The bound is that
    /// of [`Range::satisfies_counted`] for a release.
    ///
    /// # Memory
    ///
    /// Does not allocate.
    ///
    /// # Examples
    ///
    /// In `1 || 3 || 5` each version takes at most three comparisons, and in `1 || 1.5 - 3 || 2` at most two.
    #[inline]
    pub fn contains_counted<V: AsVersion>(&self, version: &V, comparisons: &mut Comparisons) -> bool
        ensures answer { IsTrue result ↔ RangeContains self.now (V.seen version.now) }
        ensures short { IsShortSearchInside self.now (V.seen version.now) comparisons.old comparisons.new }
    {
        self.sets.contains(version, comparisons)
    }
}
