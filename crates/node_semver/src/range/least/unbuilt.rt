//! Versions that are compared before any memory is allocated for them.
//!
//! `#[inline(always)]` and `#[inline(never)]`: versions of different triples, and releases, are compared without a
//! call, and the rare others by one.
ghost use Rattle.std.specs.Prelude.{◌≡◌, ◌↔◌, ◌++◌, [], ◌∷◌, IfOk, IsTrue};
ghost use Rattle.std.specs.declared.cmp.Ordering.TheVariants.{Less};
ghost use Rattle.semver_cuts.specs.Ends.{IsCutBelow};
ghost use Rattle.semver_cuts.specs.declared.cut.Cut.TheVariants.{Before};
ghost use Rattle.semver_texts.specs.Comparison.{prerelease_cmp, version_cmp};
ghost use Rattle.semver_texts.specs.Identifier.{value_of, values_of};
ghost use Rattle.semver_texts.specs.IdentifierValue.{numeric};
ghost use Rattle.node_semver.specs.Private.LeastViews.{IsInsideOrNone, with_zeros};

use crate::{Identifier, Version};
use semver_cuts::Cut;
use semver_texts::AsVersion;
use semver_texts::end::{BorrowedIdentifiers, EndVersion, Zero};
use semver_texts::identifier::copy::{copies_of, copies_with_zero};
use semver_texts::identifier::order::cmp_prereleases;
use std::alloc::{AllocError, Global};
use std::cmp::Ordering;
use std::marker::Model;

// A version with borrowed lists. Its prerelease is the list of identifiers, followed by a 0 if `zero` is true.
#[derive(Drop)]
pub(crate) struct Unbuilt<'a> {
    pub(crate) major: u64,
    pub(crate) minor: u64,
    pub(crate) patch: u64,
    pub(crate) identifiers: BorrowedIdentifiers<'a>,
    pub(crate) zero: bool,
    pub(crate) build: &'a [Identifier],
}

impl<'a> Model for Unbuilt<'a> {
    ghost use Rattle.semver_texts.specs.Identifier.{values_of};
    ghost use Rattle.semver_texts.specs.EndViews.{borrowed_seen};
    ghost use Rattle.node_semver.specs.Private.LeastViews.{with_zeros};
    ghost use Rattle.semver_texts.specs.Version.{VersionValue};

    ghost Value = { VersionValue };

    ghost view = { λ v. record {
      major = v.major;
      minor = v.minor;
      patch = v.patch;
      pre_release = with_zeros (borrowed_seen v.identifiers) v.zero;
      build = values_of v.build.now;
    } };
}

impl<'a> Unbuilt<'a> {
    // The version of an end.
    #[inline(always)]
    pub(crate) fn at_end(end: &'a EndVersion) -> Unbuilt<'a>
        ensures { result ≡ end.now }
    {
        Unbuilt {
            major: end.major,
            minor: end.minor,
            patch: end.patch,
            identifiers: end.pre_release(),
            zero: false,
            build: end.build(),
        }
    }

    // The version of an end, with a 0 after its identifiers. For a prerelease, this is the next version.
    #[inline(always)]
    pub(crate) fn after_end(end: &'a EndVersion) -> Unbuilt<'a>
        ensures { result ≡ record end.now { pre_release = end.now.pre_release ++ numeric 0 ∷ [] } }
    {
        Unbuilt {
            major: end.major,
            minor: end.minor,
            patch: end.patch,
            identifiers: end.pre_release(),
            zero: true,
            build: end.build(),
        }
    }

    // Returns `true` if the version is below the cut: if it lies in a span that ends there and begins at or below it.
    #[inline]
    pub(crate) fn is_inside(&self, upper: &Cut<EndVersion>) -> bool
        ensures { IsTrue result ↔ IsCutBelow version_cmp (Before self.now) upper.now }
    {
        match upper {
            Cut::Start => false,
            Cut::Before(end) => self.is_below(&Unbuilt::at_end(end)),
            Cut::After(end) => !self.is_above(end),
            Cut::End => true,
        }
    }

    // The version if it is below the cut, or `None`.
    #[inline]
    pub(crate) fn if_inside(self, upper: &Cut<EndVersion>) -> Option<Unbuilt<'a>>
        ensures { IsInsideOrNone upper.now self.entry result }
    {
        if self.is_inside(upper) {
            Some(self)
        } else {
            None
        }
    }

    #[inline]
    pub(crate) fn is_below(&self, other: &Unbuilt<'_>) -> bool
        ensures { IsTrue result ↔ (version_cmp self.now other.now ≡ Less) }
    {
        match self.triple().cmp(&other.triple()) {
            Ordering::Less => true,
            Ordering::Equal => self.is_prerelease_below(other),
            Ordering::Greater => false,
        }
    }

    // Returns `true` if the version of an end is less than this one.
    #[inline(always)]
    pub(crate) fn is_above(&self, end: &EndVersion) -> bool
        ensures { IsTrue result ↔ (version_cmp end.now self.now ≡ Less) }
    {
        match end.triple().cmp(&self.triple()) {
            Ordering::Less => true,
            Ordering::Equal => self.is_prerelease_above(end),
            Ordering::Greater => false,
        }
    }

    // Returns `true` if the version of an end is less than this one, if both have the same triple.
    #[inline(never)]
    fn is_prerelease_above(&self, end: &EndVersion) -> bool
        ensures { IsTrue result ↔ (prerelease_cmp end.now.pre_release self.now.pre_release ≡ Less) }
    {
        Unbuilt::at_end(end).is_prerelease_below(self)
    }

    // Returns `true` if this version is less than the other, if both have the same triple.
    #[inline(never)]
    pub(crate) fn is_prerelease_below(&self, other: &Unbuilt<'_>) -> bool
        ensures { IsTrue result ↔ (prerelease_cmp self.now.pre_release other.now.pre_release ≡ Less) }
    {
        let zero = Zero::new();
        are_identifiers_below(
            self.identifiers.as_slice(&zero),
            self.zero,
            other.identifiers.as_slice(&zero),
            other.zero,
        )
    }

    // Builds the version, with lists of its own. Most are releases without build, which need no allocation.
    #[inline(always)]
    pub(crate) fn built(&self, alloc: Global) -> Result<Version, AllocError>
        ensures { IfOk result (λ v. v ≡ self.now) }
    {
        if !self.zero && self.identifiers.is_empty() && self.build.is_empty() {
            return Ok(Version::new(alloc, self.major, self.minor, self.patch));
        }
        self.built_with_lists(alloc)
    }

    #[inline(never)]
    fn built_with_lists(&self, alloc: Global) -> Result<Version, AllocError>
        ensures { IfOk result (λ v. v ≡ self.now) }
    {
        let zero = Zero::new();
        let identifiers = self.identifiers.as_slice(&zero);
        Ok(Version {
            major: self.major,
            minor: self.minor,
            patch: self.patch,
            pre_release: if self.zero {
                copies_with_zero(alloc, identifiers)?
            } else {
                copies_of(alloc, identifiers)?
            },
            build: copies_of(alloc, self.build)?,
        })
    }
}

// The order of two prereleases of one triple, where a 0 can follow each list. No list is between a list and the same
// list with one more 0. So the identifiers decide, unless one list is the other with one more 0.
fn are_identifiers_below(
    one: &[Identifier],
    zero: bool,
    other: &[Identifier],
    other_zero: bool,
) -> bool
    ensures { IsTrue result ↔
        (prerelease_cmp (with_zeros (values_of one.now) zero) (with_zeros (values_of other.now) other_zero) ≡ Less) }
{
    match (zero, other_zero) {
        (false, false) => cmp_prereleases(one, other).is_lt(),
        (false, true) => !one.is_empty() && one.cmp(other).is_le(),
        (true, false) => other.is_empty() || (one.cmp(other).is_lt() && !is_with_zero(other, one)),
        (true, true) => one.cmp(other).is_lt(),
    }
}

// Returns `true` if the first list is the second with one more 0.
fn is_with_zero(longer: &[Identifier], shorter: &[Identifier]) -> bool
    ensures { IsTrue result ↔ (values_of longer.now ≡ values_of shorter.now ++ numeric 0 ∷ []) }
{
    let Some((last, front)) = longer.split_last() else {
        return false;
    };
    is_zero(last) && front.cmp(shorter).is_eq()
}

fn is_zero(identifier: &Identifier) -> bool
    ensures { IsTrue result ↔ (value_of identifier.now ≡ numeric 0) }
{
    match identifier {
        Identifier::Numeric(n) => *n == 0,
        Identifier::AlphaNumeric(_) => false,
    }
}
