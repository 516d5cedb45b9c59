//! Partials: versions of which some components can be absent. Nothing is built: a partial keeps the text of its extras.
//! That text is passed over once, to find where the word ends, and read only if the word's versions are built.
//!
//! `#[inline(always)]` makes one function of the readers of a word, so that numbers and shapes stay in registers.
ghost use Rattle.std.specs.Prelude.{◌≡◌, ◌≤◌, IfSome};
ghost use Rattle.semver_texts.specs.Characters.{is_blank, is_partial_mark};
ghost use Rattle.semver_texts.specs.Reading.{read_extras, rest_of, skip_one};
ghost use Rattle.semver_texts.specs.Version.{least_of, without_build};
ghost use Rattle.semver_sets.specs.PartialText.{zeroed};
ghost use Rattle.semver_sets.specs.WordEnds.{version_seen};
ghost use Rattle.semver_sets.specs.WordEnds.{IsSound, partial_seen};
ghost use Rattle.semver_sets.specs.Private.WordReading as Reading;
ghost use Rattle.semver_sets.specs.Private.WordViews.{component_seen, read_partial_seen};

use crate::word::ends::WordVersion;
use semver_texts::MAX_SAFE_INTEGER;
use semver_texts::parse::extras::skip_extras;
use semver_texts::parse::number::{is_digit, read_number};
use semver_texts::parse::{is_clean_end, skip_blanks};

/// The partial of a word, as `1.2.x` of `>=1.2.x-alpha <2`: its components, each a number or `None`, and the text that
/// begins with its extras.
#[derive(Clone, Copy)]
pub struct Partial<'a> {
    /// the first number
    pub major: Option<u64>,
    /// the second number
    pub minor: Option<u64>,
    /// the third number
    pub patch: Option<u64>,
    /// the prerelease and the build, and what follows them; empty unless there are three components
    pub extras: &'a [u8],
}

// `1` and `.2` of `1.2`; an absent number and `.2` of `x.2`
#[inline(always)]
#[tactic(auto, unfolding(crate::specs::Private::WordReading::read_component))]
fn read_component(text: &[u8]) -> Option<(Option<u64>, &[u8])>
    ensures read { component_seen result ≡ Reading.read_component text.now }
    ensures sound { IfSome result (λ r. IfSome r.0 (λ n. n ≤ MAX_SAFE_INTEGER)) }
{
    if let Ok((number, rest)) = read_number(text) {
        return Some((Some(number), rest));
    }
    match text {
        [b'x' | b'X' | b'*', rest @ ..] => Some((None, rest)),
        _ => None,
    }
}

// The partial of three components, and of the text that begins with its extras.
#[inline(always)]
fn partial_of<'a>(
    major: Option<u64>,
    minor: Option<u64>,
    patch: Option<u64>,
    extras: &'a [u8],
) -> Partial<'a>
    ensures seen { partial_seen result ≡ Reading.with_extras major minor patch (read_extras extras.now).0 }
    ensures parts { (result.major ≡ major) × (result.minor ≡ minor) × (result.patch ≡ patch) }
{
    Partial {
        major,
        minor,
        patch,
        extras,
    }
}

impl<'a> Partial<'a> {
    // The numbers, with 0 for each absent one.
    #[inline(always)]
    fn numbers(self) -> (u64, u64, u64)
        ensures { let z = zeroed (partial_seen self.entry) in
            result ≡ (z.major, z.minor, z.patch) }
    {
        (
            self.major.unwrap_or(0),
            self.minor.unwrap_or(0),
            self.patch.unwrap_or(0),
        )
    }

    // The version with 0 for each absent number: `1.2.0-a+b` of `1.2.x-a+b`
    #[inline(always)]
    pub(crate) fn full(self) -> WordVersion<'a>
        ensures { version_seen result ≡ zeroed (partial_seen self.entry) }
    {
        let (major, minor, patch) = self.numbers();
        WordVersion::Full(major, minor, patch, self.extras)
    }

    // The version with 0 for each absent number, without the build: `1.2.0-a` of `1.2.x-a+b`
    #[inline(always)]
    pub(crate) fn bare(self) -> WordVersion<'a>
        ensures { version_seen result ≡ without_build (zeroed (partial_seen self.entry)) }
    {
        let (major, minor, patch) = self.numbers();
        WordVersion::Bare(major, minor, patch, self.extras)
    }

    // The least version with these numbers: `1.2.0-0` of `1.2.x-a+b`
    #[inline(always)]
    pub(crate) fn least(self) -> WordVersion<'a>
        ensures { let z = zeroed (partial_seen self.entry) in
            version_seen result ≡ least_of z.major z.minor z.patch }
    {
        let (major, minor, patch) = self.numbers();
        WordVersion::Least(major, minor, patch)
    }
}

// `1.2.x` and ` <2` of `1.2.x-alpha <2`
#[inline(always)]
#[tactic(auto, unfolding(crate::specs::Private::WordReading::read_components))]
fn read_components(text: &[u8]) -> Option<(Partial, &[u8])>
    ensures read { read_partial_seen result ≡ Reading.read_components text.now }
    ensures sound { IfSome result (λ r. IsSound r.0) }
{
    let (major, rest) = read_component(text)?;
    let [b'.', after @ ..] = rest else {
        return Some((partial_of(major, None, None, b""), rest));
    };
    let (minor, rest) = read_component(after)?;
    let [b'.', after @ ..] = rest else {
        return Some((partial_of(major, minor, None, b""), rest));
    };
    let (patch, extras) = read_component(after)?;
    Some((partial_of(major, minor, patch, extras), skip_extras(extras)))
}

// `1.2` of `v 1.2`: the text after an optional `v` and blanks. Most texts begin with a digit.
#[inline(always)]
#[tactic(auto, unfolding(semver_texts::specs::Reading::skip_one))]
fn skip_to_components(text: &[u8]) -> &[u8]
    ensures { result.now ≡ rest_of is_blank (skip_one is_partial_mark text.now) }
{
    match text {
        [first, ..] if is_digit(*first) => text,
        [b'v', rest @ ..] => skip_blanks(rest),
        _ => skip_blanks(text),
    }
}

// `v 1.2.x` and ` <2` of `v 1.2.x-alpha <2`, if the text goes on at a clean end
#[inline(always)]
#[tactic(auto, unfolding(crate::specs::Private::WordReading::read_partial))]
pub(crate) fn read_clean_partial(text: &[u8]) -> Option<(Partial, &[u8])>
    ensures read { read_partial_seen result ≡ Reading.up_to_clean (Reading.read_partial text.now) }
    ensures sound { IfSome result (λ r. IsSound r.0) }
{
    let (partial, rest) = read_components(skip_to_components(text))?;
    if is_clean_end(rest) {
        Some((partial, rest))
    } else {
        None
    }
}
