//! Partials as npm reads them, in strict and in loose form. Nothing is built: a partial keeps the text of its extras.
ghost use Rattle.std.specs.Prelude.{◌≡◌, ◌≤◌, [], IfOk, IfSome, None};
ghost use Rattle.semver_texts.specs.Reading.{seen};
ghost use Rattle.npm_sets.specs.PartialTexts as Texts;
ghost use Rattle.npm_sets.specs.Private.ReadViews.{read_partial_seen, result_seen, some_seen};
ghost use Rattle.semver_sets.specs.WordEnds.{IsSound, partial_seen};

use crate::words::after_marks;
use semver_sets::partial::Partial;
use semver_texts::parse::Fault;
use semver_texts::parse::extras::skip_extras;
use semver_texts::parse::identifiers::begins_identifier;
use semver_texts::parse::number::{is_digit, read_number};
use semver_texts::parse::skip::split;
use semver_texts::{MAX_LENGTH, MAX_SAFE_INTEGER};

// ---- strict form

// `01`, `00.1`
#[inline(always)]
fn has_leading_zero(text: &[u8]) -> bool
    ensures { result ≡ Texts.has_leading_zero text.now }
{
    match text {
        [b'0', second, ..] => is_digit(*second),
        _ => false,
    }
}

// `01.a`, but not `01a`
fn is_padded(text: &[u8]) -> bool
    ensures { result ≡ Texts.is_padded text.now }
{
    has_leading_zero(text) && !begins_identifier(split(text, is_digit).1)
}

// Returns `false` if an identifier after a dot, before a build, is a number with a leading zero.
#[tactic(auto, unfolding(crate::specs::PartialTexts::has_none_padded))]
fn has_none_padded(text: &[u8]) -> bool
    ensures { result ≡ Texts.has_none_padded text.now }
{
    let mut rest = text;
    'bytes: while let Some((byte, others)) = rest.split_first() {
        if *byte == b'+' {
            return true;
        }
        if *byte == b'.' && is_padded(others) {
            return false;
        }
        rest = others;
    }
    true
}

// Returns `true` if the extras after three components are those of strict form, or none.
fn are_strict(text: &[u8]) -> bool
    ensures { result ≡ Texts.are_strict text.now }
{
    match text {
        [] => true,
        [b'-', rest @ ..] => !is_padded(rest) && has_none_padded(rest),
        [first, ..] => *first == b'+',
    }
}

// ---- components

// `12` and `.3` of `12.3`
#[inline(always)]
fn read_number_component(loose: bool, text: &[u8]) -> Result<(Option<u64>, &[u8]), Fault>
    ensures read { seen result ≡ Texts.number_component loose text.now }
    ensures sound { IfOk result (λ r. IfSome r.0 (λ n. n ≤ MAX_SAFE_INTEGER)) }
{
    if !loose && has_leading_zero(text) {
        return Err(Fault::Missing(text.len()));
    }
    let (number, rest) = read_number(text)?;
    Ok((Some(number), rest))
}

// `x` or a number, and the rest
#[inline(always)]
fn read_component(loose: bool, text: &[u8]) -> Result<(Option<u64>, &[u8]), Fault>
    ensures read { seen result ≡ Texts.read_component loose text.now }
    ensures sound { IfOk result (λ r. IfSome r.0 (λ n. n ≤ MAX_SAFE_INTEGER)) }
{
    match text {
        [] => Err(Fault::Missing(text.len())),
        [b'x' | b'X' | b'*', rest @ ..] => Ok((None, rest)),
        _ => read_number_component(loose, text),
    }
}

// `2` of `.2`
#[inline(always)]
fn after_dot(text: &[u8]) -> Option<&[u8]>
    ensures { some_seen result ≡ Texts.after_dot text.now }
{
    match text {
        [b'.', rest @ ..] => Some(rest),
        _ => None,
    }
}

// Three components, and the extras that follow.
#[inline(always)]
fn read_from_extras<'a>(
    loose: bool,
    major: Option<u64>,
    minor: Option<u64>,
    patch: Option<u64>,
    text: &'a [u8],
) -> Result<(Partial<'a>, &'a [u8]), Fault>
    ensures read { read_partial_seen result ≡ Texts.read_from_extras loose major minor patch text.now }
    ensures numbers { IfOk result (λ r. (r.0.major ≡ major) × (r.0.minor ≡ minor) × (r.0.patch ≡ patch)) }
{
    if !loose && !are_strict(text) {
        return Err(Fault::Missing(text.len()));
    }
    let partial = Partial {
        major,
        minor,
        patch,
        extras: text,
    };
    Ok((partial, skip_extras(text)))
}

// `.3-beta` of `1.2.3-beta`
#[inline(always)]
fn read_from_patch<'a>(
    loose: bool,
    major: Option<u64>,
    minor: Option<u64>,
    text: &'a [u8],
) -> Result<(Partial<'a>, &'a [u8]), Fault>
    requires major { IfSome major (λ n. n ≤ MAX_SAFE_INTEGER) }
    requires minor { IfSome minor (λ n. n ≤ MAX_SAFE_INTEGER) }
    ensures read { read_partial_seen result
        ≡ Texts.read_from_patch loose major minor text.now (Texts.after_dot text.now) }
    ensures sound { IfOk result (λ r. IsSound r.0) }
{
    match after_dot(text) {
        Some(rest) => {
            let (patch, extras) = read_component(loose, rest)?;
            read_from_extras(loose, major, minor, patch, extras)
        }
        None => Ok((plain(major, minor), text)),
    }
}

// A partial without extras.
#[inline(always)]
fn plain(major: Option<u64>, minor: Option<u64>) -> Partial<'static>
    ensures seen { partial_seen result ≡ Texts.with_extras major minor None [] }
    ensures numbers { (result.major ≡ major) × (result.minor ≡ minor) × (result.patch ≡ None) }
{
    Partial {
        major,
        minor,
        patch: None,
        extras: b"",
    }
}

// `.2.3-beta` of `1.2.3-beta`
#[inline(always)]
fn read_from_minor(loose: bool, major: Option<u64>, text: &[u8]) -> Result<(Partial, &[u8]), Fault>
    requires { IfSome major (λ n. n ≤ MAX_SAFE_INTEGER) }
    ensures read { read_partial_seen result
        ≡ Texts.read_from_minor loose major text.now (Texts.after_dot text.now) }
    ensures sound { IfOk result (λ r. IsSound r.0) }
{
    match after_dot(text) {
        Some(rest) => {
            let (minor, rest) = read_component(loose, rest)?;
            read_from_patch(loose, major, minor, rest)
        }
        None => Ok((plain(major, None), text)),
    }
}

// `1.2.3-beta` of `v1.2.3-beta`: one to three components, and extras after the third
#[inline(always)]
fn read_components(loose: bool, text: &[u8]) -> Result<(Partial, &[u8]), Fault>
    ensures read { read_partial_seen result ≡ Texts.read_components loose text.now }
    ensures sound { IfOk result (λ r. IsSound r.0) }
{
    let (major, rest) = read_component(loose, text)?;
    read_from_minor(loose, major, rest)
}

// ---- the whole operand

// The partial that a whole operand is: `v1.2.x`
#[inline(always)]
#[tactic(auto, unfolding(crate::specs::PartialTexts::partial_of))]
pub(crate) fn read_partial(loose: bool, text: &[u8]) -> Result<Partial, Fault>
    ensures read { result_seen result ≡ Texts.partial_of loose text.now }
    ensures sound { IfOk result IsSound }
{
    let (partial, rest) = read_components(loose, after_marks(text))?;
    if !rest.is_empty() {
        return Err(Fault::Missing(rest.len()));
    }
    if text.len() > MAX_LENGTH {
        return Err(Fault::TooLong(text.len()));
    }
    Ok(partial)
}

// The partial that a side of a hyphen range is, or an operand of a text that was refused. `inline(never)`: they are few.
#[inline(never)]
pub(crate) fn read_side(loose: bool, text: &[u8]) -> Result<Partial, Fault>
    ensures read { result_seen result ≡ Texts.partial_of loose text.now }
    ensures sound { IfOk result IsSound }
{
    read_partial(loose, text)
}
