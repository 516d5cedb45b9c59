//! Ranges: which versions a range text admits.
//!
//! `Drop` is written by hand, since a derived one adds branches to every owner's proof.
ghost use Rattle.std.specs.Prelude.{◌≡◌, ◌⊎◌, ◌↔◌, ◌∷◌, [], IfOk, IfSome, IsTrue, MatchResult};
ghost use Rattle.std.specs.List.{AllByRecursion};
ghost use Rattle.semver_sets.specs.Meaning.{IsRefused, RangeAdmits};
ghost use Rattle.semver_sets.specs.Merging.{all_cuts};
ghost use Rattle.semver_sets.specs.RangeSets.{IsRangeSet, IsRangeValue, sets_seen};
ghost use Rattle.semver_sets.specs.Searching.{IsShortSearch};
ghost use Rattle.semver_sets.specs.declared.read.Unread.TheVariants.{Refused};
ghost use Rattle.semver_versions.specs.Error.{IsOutOfMemory, IsRefusalAt, no_valid_ranges};
ghost use Rattle.node_semver.specs.RangeAlgebra.{sets_of_answer};
ghost use Rattle.node_semver.specs.RangeAnswer.{IsRangeAnswer};

mod algebra;
mod all_of;
mod contained;
mod equality;
mod greatest;
mod least;
mod prereleases;
mod print;
mod sets;

use crate::{AsVersion, Comparisons, SemverError, SemverErrorKind, Version};
pub use all_of::AllOf;
pub use equality::ranges_are_equal_where_their_cuts_are;
pub use greatest::{max_satisfying, min_satisfying};
pub use prereleases::WithPrereleases;
use semver_cuts::{Cut, Span};
use semver_sets::laws::{a_text_means_its_sets, prints_are_read_back};
use semver_sets::read::Unread;
use semver_sets::read::full::{full_set, read_full};
use semver_sets::set_list::Sets;
use semver_sets::set_list::gathered::Gathered;
use semver_texts::end::EndVersion;
use semver_versions::Admits;
use std::alloc::{AllocError, Global};
use std::marker::Model;

/// The versions that a range text admits: npm's ranges, in their loose form.
///
/// A range text consists of alternatives with `||` between them, and an alternative of words with blanks between them.
/// A word can be a comparator, which limits the versions:
///
/// | word | limits |
/// |---|---|
/// | `>=1.2` | `>=1.2.0` |
/// | `>1.2`, `<1.2`, `<=1.2` | `>=1.3.0`, `<1.2.0-0`, `<=1.2.0-0` |
/// | `=1.2`, `1.2`, `1.2.x` | `>=1.2.0 <1.3.0-0` |
/// | `1.2.3-pre` | `>=1.2.3-pre <=1.2.3-pre` |
/// | `~1.2.3-pre` | `>=1.2.3-pre <1.3.0-0` |
/// | `^1.2.3-pre`, `^0.2.3`, `^0.0.3` | `>=1.2.3-pre <2.0.0-0`, `>=0.2.3 <0.3.0-0`, `>=0.0.3 <0.0.4-0` |
/// | `1.2 - 3` | `>=1.2.0 <4.0.0-0` |
/// | `*` | `>=0.0.0` |
///
/// `docs/GRAMMAR.md` has all of them. `x`, `X` and `*` are written for an absent component. A `v` and blanks can come
/// before the numbers, and blanks after an operator: `>= v 1.0`. A build can come at the end, and changes nothing.
/// Every other word is ignored: `foo >=1.0.0` is `>=1.0.0`, and so is `| >=1.0.0`. Spaces and tabs are blanks, newlines
/// are not.
///
/// A range is the list of its sets. Each alternative with a comparator gives one set: from the greatest lower end of
/// its comparators to their least upper end, if a cut lies there. Sets are not joined: `1||1` has two.
///
/// # Source
///
/// npm's `semver`, "Ranges" and "Range Grammar", in loose mode.
#[derive(Debug)]
pub struct Range {
    sets: Sets,
}

// `Drop` is written by hand so that dropping a `Range` is one call in a caller's proof; the derived one adds a branch
// for each form of each end. `inline(always)`: the code is then as fast as the derived one.
impl Drop for Range {
    #[inline(always)]
    fn drop(self) {
        let Range { sets: _ } = self;
    }
}

impl Model for Range {
    ghost use Rattle.std.specs.Prelude.{List};
    ghost use Rattle.semver_cuts.specs.Ends.{Ends};
    ghost use Rattle.semver_sets.specs.RangeSets.{IsRangeValue, sets_seen};
    ghost use Rattle.semver_texts.specs.Version.{VersionValue};

    ghost Value = { List (Ends VersionValue) };

    ghost view = { λ r. sets_seen r.sets };

    ghost invariant = { λ r. IsRangeValue (sets_seen r.sets) };
}

impl Range {
    /// Reads a range from a text of any length.
    ///
    /// Equal ends can differ in the build. Of equal lower ends, the last is kept, and of equal upper ends the first:
    /// `>=1.0.0+a >=1.0.0+b` is `>=1.0.0+b`.
    ///
    /// The print of a range that was read is read as an equal range, if no set contains all cuts and no number of an
    /// end is greater than `MAX_SAFE_INTEGER`.
    ///
    /// # Errors
    ///
    /// Returns the kind of the fault and its byte offset, which is always 0:
    ///
    /// - the empty text, `foo`, `~*`, `||`: `NoValidRanges` at 0, no word is a comparator.
    /// - `>4 <3`, `2 - 1`: `NoValidRanges` at 0, in no alternative a cut lies in all comparators. One does for
    ///   `>1.0.0-a <1.0.0-a.0`, which is read, though no version lies there.
    /// - any text: `OutOfMemory` at 0, with an empty text, if an allocation fails.
    ///
    /// # Memory
    ///
    /// Allocates the prereleases and builds that the text writes at ends, and a list if there are several sets.
    /// Does not allocate for a word that is ignored, or for the `-0` of an end such as `<2.0.0-0`. An error holds a
    /// copy of the text.
    ///
    /// # Examples
    ///
    /// `^1.2.3`, `1.2 - 3`, `foo >= v 1.0.0` and `foo || 2` are read. `foo` is not read.
    // Most ranges are a full version after `^`, `~` or nothing. They are read here: through `Sets::read` their set would
    // be copied once more. `inline(always)`: the range is built in the place of the caller's result.
    #[inline(always)]
    pub fn parse(alloc: Global, text: &str) -> Result<Range, SemverError>
        ensures { IsRangeAnswer text.now result }
    {
        a_text_means_its_sets();
        prints_are_read_back();
        let bytes = text.as_bytes();
        match read_full(bytes) {
            Some((form, major, minor, patch)) => {
                Ok(Range::of_sets(Sets::One(full_set(form, major, minor, patch))))
            }
            None => match Sets::read(alloc, bytes) {
                Ok(sets) => Ok(Range { sets }),
                Err(unread) => Err(unread_error(alloc, text, unread)),
            },
        }
    }

    /// Returns the range of one set, which contains all cuts.
    ///
    /// Every release satisfies it, and no prerelease does, because it has no end.
    ///
    /// # Errors
    ///
    /// Never fails. The `Result` is that of each call that makes a range.
    ///
    /// # Memory
    ///
    /// Does not allocate.
    ///
    /// # Examples
    ///
    /// It prints as `*`. The text `*` is read as `>=0.0.0`, which is another range.
    ///
    /// # Source
    ///
    /// The Rust crate `node-semver` 2.2.0.
    #[tactic(auto, using(semver_sets::specs::Lemmas::Bounds::all_cuts_bounded))]
    pub fn any(_alloc: Global) -> Result<Range, AllocError>
        ensures all { IfOk result (λ r. r ≡ all_cuts ∷ []) }
        ensures holds { IfOk result IsRangeValue }
    {
        Ok(Range::of_sets(Sets::One(Span::between(Cut::Start, Cut::End))))
    }

    /// Returns `true` if the version satisfies the range.
    ///
    /// A version satisfies the range if it lies inside one of its sets and, if it is a prerelease, an end of that set
    /// is a prerelease of the same triple. So `1.0.1-0` and `1.0.0` satisfy `<1.0.1-beta`, and `1.0.0-a` does not.
    ///
    /// The version can be of any type with the trait [`AsVersion`].
    ///
    /// # Memory
    ///
    /// Does not allocate.
    ///
    /// # Examples
    ///
    /// `1.9.0`, `3.0.0` and `1.2.3-rc.5` satisfy `^1.2.3-rc.4 || >=3`. `2.0.0` does not, and `1.2.4-rc.6`, a prerelease
    /// of another triple, does not.
    ///
    /// # Source
    ///
    /// npm's `semver`, "Prerelease Tags".
    pub fn satisfies<V: AsVersion>(&self, version: &V) -> bool
        ensures { IsTrue result ↔ RangeAdmits self.now (V.seen version.now) }
    {
        self.satisfies_counted(version, &mut Comparisons::new())
    }

    /// Returns `true` if the version satisfies the range, as [`Range::satisfies`] does, and counts the comparisons.
    ///
    /// Each comparison of the version with a cut, an end of a set, adds 1 to `comparisons`. A release is found by
    /// binary search among the merged spans of the sets. This takes at most as many comparisons as the number of these
    /// spans has binary digits, plus one. The number of merged spans is the number of sets whose lower end no earlier
    /// set has, and that no set reaches from below. A prerelease is looked for in the sets with an end that is a
    /// prerelease of its triple, with at most two comparisons for each. A version that satisfies the range takes at
    /// least two.
    ///
    /// # Memory
    ///
    /// Does not allocate.
    ///
    /// # Examples
    ///
    /// The sets of `1 || 3 || 5` have three merged spans, so a release takes at most three comparisons. The sets of
    /// `1 || 1.5 - 3 || 2` have one, `>=1.0.0 <4.0.0-0`, so a release takes at most two.
    #[inline]
    pub fn satisfies_counted<V: AsVersion>(
        &self,
        version: &V,
        comparisons: &mut Comparisons,
    ) -> bool
        ensures answer { IsTrue result ↔ RangeAdmits self.now (V.seen version.now) }
        ensures short { IsShortSearch self.now (V.seen version.now) comparisons.old comparisons.new }
    {
        self.sets.admits(version, comparisons)
    }

    /// Returns the range of these sets. Does not allocate.
    // `inline(always)` here and below: the range is built in the place of the caller's result.
    #[inline(always)]
    pub fn of_sets(sets: Sets) -> Range
        requires { IsRangeValue (sets_seen sets) }
        ensures { result ≡ sets_seen sets }
    {
        Range { sets }
    }

    /// Returns the range of these sets, or `None` if there are none.
    ///
    /// # Errors
    ///
    /// Fails with `AllocError` if an allocation fails.
    ///
    /// # Memory
    ///
    /// For several sets, allocates what finds a version in them.
    #[inline(always)]
    pub fn of_gathered(sets: Gathered) -> Result<Option<Range>, AllocError>
        requires { AllByRecursion IsRangeSet sets }
        ensures sets { IfOk result (λ answer. sets_of_answer answer ≡ sets) }
        ensures holds { IfOk result (λ answer. IfSome answer IsRangeValue) }
    {
        match sets.into_sets() {
            Ok(Some(sets)) => Ok(Some(Range { sets })),
            Ok(None) => Ok(None),
            Err(error) => Err(error),
        }
    }
}

// The error for a text that is not read. It only calls `error_of`: where `parse` calls that itself, it clears the stack
// slot of an error for each text, and with this function in between only for a text that is refused.
#[inline(always)]
fn unread_error(alloc: Global, text: &str, unread: Unread) -> SemverError
    requires { unread ≡ Refused → IsRefused text.now }
    ensures { IsOutOfMemory result ⊎ (IsRefusalAt text.now no_valid_ranges 0 result × IsRefused text.now) }
{
    error_of(alloc, text, unread)
}

// The error for a text that is not read, out of line. `inline(never)`: few texts are refused.
#[inline(never)]
fn error_of(alloc: Global, text: &str, unread: Unread) -> SemverError
    requires { unread ≡ Refused → IsRefused text.now }
    ensures { IsOutOfMemory result ⊎ (IsRefusalAt text.now no_valid_ranges 0 result × IsRefused text.now) }
{
    match unread {
        Unread::Refused => SemverError::new(alloc, text, 0, SemverErrorKind::NoValidRanges),
        Unread::OutOfMemory => SemverError::out_of_memory(alloc),
    }
}

/// Returns a copy: a range of the same sets, with the builds of their ends.
///
/// # Errors
///
/// Returns `AllocError` if an allocation fails.
///
/// # Memory
///
/// Allocates the identifiers of the ends, and a list if there are several sets.
impl Clone for Range {
    ghost is_clone = { λ r copy. copy ≡ r };

    fn clone(&self) -> Result<Range, AllocError>
        ensures cases { MatchResult result (λ copy. copy ≡ self.now) (λ _. ¬ ⊥) }
        ensures copy { IfOk result (λ copy. copy ≡ self.now) }
    {
        Ok(Range {
            sets: self.sets.copy()?,
        })
    }
}

/// What [`Version::satisfies`] checks: `version.satisfies(&range)` is `range.satisfies(&version)`.
impl Admits for Range {
    ghost admits = { RangeAdmits };

    // `inline(always)`: `version.satisfies(&range)` then takes no longer than `range.satisfies(&version)`.
    #[inline(always)]
    fn admits_version<V: AsVersion>(&self, version: &V) -> bool {
        self.satisfies(version)
    }
}
