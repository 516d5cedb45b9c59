//! The two ends of a comparator, as a word writes them. Their versions are built only when the comparator is merged.
//!
//! `#[inline(always)]`: which ends a row gives is known where it gives them, so no test of them is left.
ghost use Rattle.std.specs.Prelude.{◌≡◌, ◌≤◌, IfOk};
ghost use Rattle.semver_sets.specs.Comparator as Comparators;
ghost use Rattle.semver_sets.specs.WordEnds.{cut_seen, ends_seen, version_seen, written};
ghost use Rattle.semver_texts.specs.Version.{without_build};

use semver_cuts::Cut;
use semver_texts::MAX_SAFE_INTEGER;
use semver_texts::end::EndVersion;
use semver_texts::identifier::borrowed::borrow_extras;
use semver_texts::parse::is_clean_end;
use std::alloc::{AllocError, Global};

/// A version at an end of a comparator. A text of extras begins with the prerelease and the build of a version.
#[derive(Clone, Copy)]
pub enum WordVersion<'a> {
    /// `1.2.3`
    Release(u64, u64, u64),
    /// `1.2.3-0`, the least version of a triple
    Least(u64, u64, u64),
    /// `1.2.3-a+b`, a triple with its text of extras
    Full(u64, u64, u64, &'a [u8]),
    /// `1.2.3-a`, the same without the build
    Bare(u64, u64, u64, &'a [u8]),
}

/// Where a comparator begins or ends.
#[derive(Clone, Copy)]
pub enum WordCut<'a> {
    /// nothing is below
    Start,
    /// just before a version
    Before(WordVersion<'a>),
    /// just after a version
    After(WordVersion<'a>),
    /// nothing is above
    End,
}

/// The two ends of a comparator.
#[derive(Clone, Copy)]
pub struct WordEnds<'a> {
    /// where it begins
    pub lower: WordCut<'a>,
    /// where it ends
    pub upper: WordCut<'a>,
}

// `>=1.2.3`
#[inline(always)]
pub(crate) fn at_least<'a>(version: WordVersion<'a>) -> WordEnds<'a>
    ensures { ends_seen result ≡ Comparators.at_least (version_seen version.entry) }
{
    WordEnds {
        lower: WordCut::Before(version),
        upper: WordCut::End,
    }
}

// `>1.2.3`
#[inline(always)]
pub(crate) fn above<'a>(version: WordVersion<'a>) -> WordEnds<'a>
    ensures { ends_seen result ≡ Comparators.above (version_seen version.entry) }
{
    WordEnds {
        lower: WordCut::After(version),
        upper: WordCut::End,
    }
}

// `<=1.2.3`
#[inline(always)]
pub(crate) fn at_most<'a>(version: WordVersion<'a>) -> WordEnds<'a>
    ensures { ends_seen result ≡ Comparators.at_most (version_seen version.entry) }
{
    WordEnds {
        lower: WordCut::Start,
        upper: WordCut::After(version),
    }
}

// `<1.2.3`
#[inline(always)]
pub(crate) fn below<'a>(version: WordVersion<'a>) -> WordEnds<'a>
    ensures { ends_seen result ≡ Comparators.below (version_seen version.entry) }
{
    WordEnds {
        lower: WordCut::Start,
        upper: WordCut::Before(version),
    }
}

// `>=1.2.3 <=1.2.3`
#[inline(always)]
pub(crate) fn exactly<'a>(version: WordVersion<'a>) -> WordEnds<'a>
    ensures { ends_seen result ≡ Comparators.exactly (version_seen version.entry) }
{
    WordEnds {
        lower: WordCut::Before(version),
        upper: WordCut::After(version),
    }
}

// `>=1.2.3 <2.0.0-0`
#[inline(always)]
pub(crate) fn from_up_to<'a>(lower: WordVersion<'a>, upper: WordVersion<'a>) -> WordEnds<'a>
    ensures { ends_seen result
        ≡ Comparators.from_up_to (version_seen lower.entry) (version_seen upper.entry) }
{
    WordEnds {
        lower: WordCut::Before(lower),
        upper: WordCut::Before(upper),
    }
}

// All versions with this major: `>=1.0.0 <2.0.0-0`
#[inline(always)]
pub(crate) fn with_major(major: u64) -> WordEnds<'static>
    requires { major ≤ MAX_SAFE_INTEGER }
    ensures { ends_seen result ≡ Comparators.with_major major }
{
    from_up_to(
        WordVersion::Release(major, 0, 0),
        WordVersion::Least(major + 1, 0, 0),
    )
}

// All versions with this major and this minor: `>=1.2.0 <1.3.0-0`
#[inline(always)]
pub(crate) fn with_minor(major: u64, minor: u64) -> WordEnds<'static>
    requires { minor ≤ MAX_SAFE_INTEGER }
    ensures { ends_seen result ≡ Comparators.with_minor major minor }
{
    from_up_to(
        WordVersion::Release(major, minor, 0),
        WordVersion::Least(major, minor + 1, 0),
    )
}

impl<'a> WordCut<'a> {
    // Builds the cut. Allocates only for a prerelease and a build.
    #[inline(always)]
    pub(crate) fn cut(&self, alloc: Global) -> Result<Cut<EndVersion>, AllocError>
        ensures { IfOk result (λ cut. cut ≡ cut_seen self.now) }
    {
        match self {
            WordCut::Start => Ok(Cut::Start),
            WordCut::Before(version) => Ok(Cut::Before(version.end(alloc)?)),
            WordCut::After(version) => Ok(Cut::After(version.end(alloc)?)),
            WordCut::End => Ok(Cut::End),
        }
    }
}

impl<'a> WordVersion<'a> {
    // Builds the version. Most have no extras, and then nothing is allocated.
    #[inline(always)]
    fn end(&self, alloc: Global) -> Result<EndVersion, AllocError>
        ensures { IfOk result (λ end. end ≡ version_seen self.now) }
    {
        match self {
            WordVersion::Release(major, minor, patch) => {
                Ok(EndVersion::release(*major, *minor, *patch))
            }
            WordVersion::Least(major, minor, patch) => {
                Ok(EndVersion::least(*major, *minor, *patch))
            }
            WordVersion::Full(major, minor, patch, extras) => {
                full_end(alloc, (*major, *minor, *patch), extras)
            }
            WordVersion::Bare(major, minor, patch, extras) => {
                bare_end(alloc, (*major, *minor, *patch), extras)
            }
        }
    }
}

// Builds the version of a triple and its text of extras.
#[inline(always)]
#[tactic(auto, using(semver_texts::specs::Lemmas::Public::clean_extras))]
fn full_end(alloc: Global, triple: (u64, u64, u64), extras: &[u8]) -> Result<EndVersion, AllocError>
    ensures { IfOk result (λ end. end ≡ written triple.0 triple.1 triple.2 extras.now) }
{
    if is_clean_end(extras) {
        Ok(EndVersion::release(triple.0, triple.1, triple.2))
    } else {
        end_with_extras(alloc, triple, extras)
    }
}

// Builds the version of a triple and its text of extras, without the build.
#[inline(always)]
#[tactic(auto, using(semver_texts::specs::Lemmas::Public::clean_extras))]
fn bare_end(alloc: Global, triple: (u64, u64, u64), extras: &[u8]) -> Result<EndVersion, AllocError>
    ensures { IfOk result (λ end. end ≡ without_build (written triple.0 triple.1 triple.2 extras.now)) }
{
    if is_clean_end(extras) {
        Ok(EndVersion::release(triple.0, triple.1, triple.2))
    } else {
        end_with_prerelease(alloc, triple, extras)
    }
}

// `inline(never)`: few versions have extras, and the others then need no stack for them.
#[inline(never)]
#[tactic(auto, unfolding(semver_texts::specs::Reading::read_extras))]
fn end_with_extras(
    alloc: Global,
    triple: (u64, u64, u64),
    extras: &[u8],
) -> Result<EndVersion, AllocError>
    ensures { IfOk result (λ end. end ≡ written triple.0 triple.1 triple.2 extras.now) }
{
    let (pre_release, build, _) = borrow_extras(extras);
    EndVersion::with_extras(
        alloc,
        triple,
        pre_release.to_vec(alloc)?,
        build.to_vec(alloc)?,
    )
}

// Builds a version with extras, without the build. `inline(never)`: few versions have extras, as at `end_with_extras`.
#[inline(never)]
#[tactic(auto, unfolding(semver_texts::specs::Reading::read_extras))]
fn end_with_prerelease(
    alloc: Global,
    triple: (u64, u64, u64),
    extras: &[u8],
) -> Result<EndVersion, AllocError>
    ensures { IfOk result (λ end. end ≡ without_build (written triple.0 triple.1 triple.2 extras.now)) }
{
    let (pre_release, _, _) = borrow_extras(extras);
    EndVersion::with_extras(alloc, triple, pre_release.to_vec(alloc)?, Vec::new(alloc))
}
