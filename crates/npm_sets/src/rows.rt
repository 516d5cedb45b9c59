//! The rows of npm's tables: which comparator a lead and a partial give, and a hyphen range.
//!
//! Each row has a parameter `pre`: whether prereleases are included.
ghost use Rattle.std.specs.Prelude.{◌≡◌, ◌≤◌};
ghost use Rattle.semver_sets.specs.Comparator as Comparators;
ghost use Rattle.semver_sets.specs.Merging.{all_cuts};
ghost use Rattle.semver_texts.specs.Version as Versions;
ghost use Rattle.semver_texts.specs.Version.{without_build};
ghost use Rattle.semver_sets.specs.PartialText.{zeroed};
ghost use Rattle.semver_texts.specs.Reading.{read_extras};
ghost use Rattle.npm_sets.specs.Rows as Rows;
ghost use Rattle.npm_sets.specs.Private.ReadViews.{AreSmall, AreSmallEnds, IsSmallCut, IsSmallVersion};
ghost use Rattle.npm_sets.specs.Private.ReadViews.{full_version, has_some};
ghost use Rattle.semver_sets.specs.WordEnds.{IsSound, cut_seen, ends_seen, partial_seen, version_seen};

use crate::words::Lead;
use semver_sets::partial::Partial;
use semver_sets::word::ends::{WordCut, WordEnds, WordVersion};
use semver_texts::MAX_SAFE_INTEGER;
use semver_texts::identifier::borrowed::borrow_extras;

// `1.2.0`, or `1.2.0-0` if prereleases are included
#[inline(always)]
fn first_of(pre: bool, major: u64, minor: u64, patch: u64) -> WordVersion<'static>
    ensures version { version_seen result ≡ Rows.first_of pre major minor patch }
    ensures small { AreSmall major minor patch → IsSmallVersion result }
{
    if pre {
        WordVersion::Least(major, minor, patch)
    } else {
        WordVersion::Release(major, minor, patch)
    }
}

// every version
#[inline(always)]
pub(crate) fn all_cuts() -> WordEnds<'static>
    ensures ends { ends_seen result ≡ all_cuts }
    ensures small { AreSmallEnds result }
{
    WordEnds {
        lower: WordCut::Start,
        upper: WordCut::End,
    }
}

// `<2.0.0-0`
#[inline(always)]
fn below_least(major: u64, minor: u64) -> WordEnds<'static>
    ensures ends { ends_seen result ≡ Comparators.below (Versions.least_of major minor 0) }
    ensures small { AreSmall major minor 0 → AreSmallEnds result }
{
    WordEnds {
        lower: WordCut::Start,
        upper: WordCut::Before(WordVersion::Least(major, minor, 0)),
    }
}

// `>=1.2.3`
#[inline(always)]
fn at_least(version: WordVersion) -> WordEnds
    ensures ends { ends_seen result ≡ Comparators.at_least (version_seen version.entry) }
    ensures small { IsSmallVersion version.entry → AreSmallEnds result }
{
    WordEnds {
        lower: WordCut::Before(version),
        upper: WordCut::End,
    }
}

// `>=1.2.3 <2.0.0-0`
#[inline(always)]
fn from_up_to(version: WordVersion, major: u64, minor: u64, patch: u64) -> WordEnds
    ensures ends { ends_seen result
        ≡ Comparators.from_up_to (version_seen version.entry) (Versions.least_of major minor patch) }
    ensures small { IsSmallVersion version.entry → AreSmall major minor patch → AreSmallEnds result }
{
    WordEnds {
        lower: WordCut::Before(version),
        upper: WordCut::Before(WordVersion::Least(major, minor, patch)),
    }
}

// `1.2.3-beta`; or `1.2.3`, or `1.2.3-0` if prereleases are included
fn prerelease_or_first<'a>(
    pre: bool,
    major: u64,
    minor: u64,
    patch: u64,
    extras: &'a [u8],
) -> WordVersion<'a>
    ensures version { let z = full_version major minor patch extras.now in
        version_seen result ≡ Rows.prerelease_or_first pre z z.pre_release }
    ensures small { AreSmall major minor patch → IsSmallVersion result }
{
    if has_prerelease(extras) {
        WordVersion::Bare(major, minor, patch, extras)
    } else {
        first_of(pre, major, minor, patch)
    }
}

// `<=1.2.3-beta`; or `<=1.2.3`, or `<1.2.4-0` if prereleases are included
fn right_full<'a>(pre: bool, major: u64, minor: u64, patch: u64, extras: &'a [u8]) -> WordCut<'a>
    requires { patch ≤ MAX_SAFE_INTEGER }
    ensures cut { let z = full_version major minor patch extras.now in
        cut_seen result ≡ Rows.right_full pre z z.pre_release }
    ensures small { AreSmall major minor patch → IsSmallCut result }
{
    if pre && !has_prerelease(extras) {
        WordCut::Before(WordVersion::Least(major, minor, patch + 1))
    } else {
        WordCut::After(WordVersion::Bare(major, minor, patch, extras))
    }
}

// Returns `true` if a text of extras begins with a prerelease.
fn has_prerelease(extras: &[u8]) -> bool
    ensures { result ≡ has_some (read_extras extras.now).0.0 }
{
    !borrow_extras(extras).0.is_empty()
}

// `1.2.3`, `1.2`, `1`, `*`
#[inline(always)]
fn equal_ends(pre: bool, partial: Partial) -> WordEnds
    requires { IsSound partial }
    ensures ends { let p = partial_seen partial.entry in
        ends_seen result ≡ Rows.equal_row pre p.major p.minor p.patch (without_build (zeroed p)) }
    ensures small { AreSmallEnds result }
{
    match (partial.major, partial.minor, partial.patch) {
        (None, _, _) => all_cuts(),
        (Some(major), None, _) => from_up_to(first_of(pre, major, 0, 0), major + 1, 0, 0),
        (Some(major), Some(minor), None) => {
            from_up_to(first_of(pre, major, minor, 0), major, minor + 1, 0)
        }
        (Some(major), Some(minor), Some(patch)) => {
            let version = WordVersion::Bare(major, minor, patch, partial.extras);
            WordEnds {
                lower: WordCut::Before(version),
                upper: WordCut::After(version),
            }
        }
    }
}

// `>=1.2.3`, `>=1.2`, `>=1`, `>=*`
#[inline(always)]
fn at_least_ends(pre: bool, partial: Partial) -> WordEnds
    requires { IsSound partial }
    ensures ends { let p = partial_seen partial.entry in
        ends_seen result ≡ Rows.at_least_row pre p.major p.minor p.patch (without_build (zeroed p)) }
    ensures small { AreSmallEnds result }
{
    match (partial.major, partial.minor, partial.patch) {
        (None, _, _) => all_cuts(),
        (Some(major), None, _) => at_least(first_of(pre, major, 0, 0)),
        (Some(major), Some(minor), None) => at_least(first_of(pre, major, minor, 0)),
        (Some(major), Some(minor), Some(patch)) => {
            at_least(WordVersion::Bare(major, minor, patch, partial.extras))
        }
    }
}

// `>1.2.3`, `>1.2`, `>1`, `>*`
#[inline(always)]
fn above_ends(pre: bool, partial: Partial) -> WordEnds
    requires { IsSound partial }
    ensures ends { let p = partial_seen partial.entry in
        ends_seen result ≡ Rows.above_row pre p.major p.minor p.patch (without_build (zeroed p)) }
    ensures small { AreSmallEnds result }
{
    match (partial.major, partial.minor, partial.patch) {
        (None, _, _) => below_least(0, 0),
        (Some(major), None, _) => at_least(first_of(pre, major + 1, 0, 0)),
        (Some(major), Some(minor), None) => at_least(first_of(pre, major, minor + 1, 0)),
        (Some(major), Some(minor), Some(patch)) => WordEnds {
            lower: WordCut::After(WordVersion::Bare(major, minor, patch, partial.extras)),
            upper: WordCut::End,
        },
    }
}

// `<1.2.3`, `<1.2`, `<1`, `<*`
#[inline(always)]
fn below_ends(partial: Partial) -> WordEnds
    requires { IsSound partial }
    ensures ends { let p = partial_seen partial.entry in
        ends_seen result ≡ Rows.below_row p.major p.minor p.patch (without_build (zeroed p)) }
    ensures small { AreSmallEnds result }
{
    match (partial.major, partial.minor, partial.patch) {
        (None, _, _) => below_least(0, 0),
        (Some(major), None, _) => below_least(major, 0),
        (Some(major), Some(minor), None) => below_least(major, minor),
        (Some(major), Some(minor), Some(patch)) => WordEnds {
            lower: WordCut::Start,
            upper: WordCut::Before(WordVersion::Bare(major, minor, patch, partial.extras)),
        },
    }
}

// `<=1.2.3`, `<=1.2`, `<=1`, `<=*`
#[inline(always)]
fn at_most_ends(partial: Partial) -> WordEnds
    requires { IsSound partial }
    ensures ends { let p = partial_seen partial.entry in
        ends_seen result ≡ Rows.at_most_row p.major p.minor p.patch (without_build (zeroed p)) }
    ensures small { AreSmallEnds result }
{
    match (partial.major, partial.minor, partial.patch) {
        (None, _, _) => all_cuts(),
        (Some(major), None, _) => below_least(major + 1, 0),
        (Some(major), Some(minor), None) => below_least(major, minor + 1),
        (Some(major), Some(minor), Some(patch)) => WordEnds {
            lower: WordCut::Start,
            upper: WordCut::After(WordVersion::Bare(major, minor, patch, partial.extras)),
        },
    }
}

// `~1.2.3`, `~1.2`, `~1`, `~*`
#[inline(always)]
fn tilde_ends(partial: Partial) -> WordEnds
    requires { IsSound partial }
    ensures ends { let p = partial_seen partial.entry in
        ends_seen result ≡ Rows.tilde_row p.major p.minor p.patch (without_build (zeroed p)) }
    ensures small { AreSmallEnds result }
{
    match (partial.major, partial.minor, partial.patch) {
        (None, _, _) => all_cuts(),
        (Some(major), None, _) => from_up_to(WordVersion::Release(major, 0, 0), major + 1, 0, 0),
        (Some(major), Some(minor), None) => {
            from_up_to(WordVersion::Release(major, minor, 0), major, minor + 1, 0)
        }
        (Some(major), Some(minor), Some(patch)) => {
            let version = WordVersion::Bare(major, minor, patch, partial.extras);
            from_up_to(version, major, minor + 1, 0)
        }
    }
}

// `^1.2.3`, `^1.2`, `^1`, `^*`, `^0.2.3`, `^0.0.3`, `^0.2`, `^0`
#[inline(always)]
fn caret_ends(pre: bool, partial: Partial) -> WordEnds
    requires { IsSound partial }
    ensures ends { let p = partial_seen partial.entry in
        ends_seen result ≡ Rows.caret_row pre p.major p.minor p.patch (without_build (zeroed p)) }
    ensures small { AreSmallEnds result }
{
    match (partial.major, partial.minor, partial.patch) {
        (None, _, _) => all_cuts(),
        (Some(major), None, _) => from_up_to(first_of(pre, major, 0, 0), major + 1, 0, 0),
        (Some(0), Some(minor), None) => from_up_to(first_of(pre, 0, minor, 0), 0, minor + 1, 0),
        (Some(major), Some(minor), None) => {
            from_up_to(first_of(pre, major, minor, 0), major + 1, 0, 0)
        }
        (Some(0), Some(0), Some(patch)) => {
            from_up_to(
                prerelease_or_first(pre, 0, 0, patch, partial.extras),
                0,
                0,
                patch + 1,
            )
        }
        (Some(0), Some(minor), Some(patch)) => {
            from_up_to(
                prerelease_or_first(pre, 0, minor, patch, partial.extras),
                0,
                minor + 1,
                0,
            )
        }
        (Some(major), Some(minor), Some(patch)) => {
            let version = WordVersion::Bare(major, minor, patch, partial.extras);
            from_up_to(version, major + 1, 0, 0)
        }
    }
}

// ---- hyphen ranges

// `1.2.3 - `, `1.2 - `, `1 - `, `* - `
fn left_cut(pre: bool, partial: Partial) -> WordCut
    requires { IsSound partial }
    ensures cut { let p = partial_seen partial.entry in
        cut_seen result ≡ Rows.left_row pre p.major p.minor p.patch (without_build (zeroed p)) }
    ensures small { IsSmallCut result }
{
    match (partial.major, partial.minor, partial.patch) {
        (None, _, _) => WordCut::Start,
        (Some(major), None, _) => WordCut::Before(first_of(pre, major, 0, 0)),
        (Some(major), Some(minor), None) => WordCut::Before(first_of(pre, major, minor, 0)),
        (Some(major), Some(minor), Some(patch)) => {
            WordCut::Before(prerelease_or_first(pre, major, minor, patch, partial.extras))
        }
    }
}

// ` - 1.2.3`, ` - 1.2`, ` - 1`, ` - *`
fn right_cut(pre: bool, partial: Partial) -> WordCut
    requires { IsSound partial }
    ensures cut { let p = partial_seen partial.entry in
        cut_seen result ≡ Rows.right_row pre p.major p.minor p.patch (without_build (zeroed p)) }
    ensures small { IsSmallCut result }
{
    match (partial.major, partial.minor, partial.patch) {
        (None, _, _) => WordCut::End,
        (Some(major), None, _) => WordCut::Before(WordVersion::Least(major + 1, 0, 0)),
        (Some(major), Some(minor), None) => {
            WordCut::Before(WordVersion::Least(major, minor + 1, 0))
        }
        (Some(major), Some(minor), Some(patch)) => right_full(
            pre,
            major,
            minor,
            patch,
            partial.extras,
        ),
    }
}

// ---- partials

// The ends of the comparator that a lead and a partial give.
#[inline(always)]
pub(crate) fn lead_ends<'a>(pre: bool, lead: Lead, partial: Partial<'a>) -> WordEnds<'a>
    requires { IsSound partial }
    ensures ends { ends_seen result ≡ Rows.lead_comparator pre lead (partial_seen partial.entry) }
    ensures small { AreSmallEnds result }
{
    match lead {
        Lead::Nothing | Lead::Equal => equal_ends(pre, partial),
        Lead::AtLeast => at_least_ends(pre, partial),
        Lead::Above => above_ends(pre, partial),
        Lead::Below => below_ends(partial),
        Lead::AtMost => at_most_ends(partial),
        Lead::Tilde => tilde_ends(partial),
        Lead::Caret => caret_ends(pre, partial),
    }
}

// The ends of a hyphen range: `1.2 - 3`
pub(crate) fn hyphen_ends<'a>(pre: bool, left: Partial<'a>, right: Partial<'a>) -> WordEnds<'a>
    requires left { IsSound left }
    requires right { IsSound right }
    ensures ends { ends_seen result
        ≡ Rows.hyphen_comparator pre (partial_seen left.entry) (partial_seen right.entry) }
    ensures small { AreSmallEnds result }
{
    WordEnds {
        lower: left_cut(pre, left),
        upper: right_cut(pre, right),
    }
}
