//! A prerelease and a build as parts of the text. Nothing is built here.
//!
//! `#[inline(always)]`: what is short is part of the reader around it, and hands slices on in registers.
ghost use Rattle.std.specs.Prelude.{◌≡◌, ◌<◌, ℕ, IfSome, length};
ghost use Rattle.semver_texts.specs.IdentifierText.{IsListed, identifiers_of};
ghost use Rattle.semver_texts.specs.Private.ListedViews.{IsFirstSplit, IsListSplit, IsNumberSplit, is_inner};
ghost use Rattle.semver_texts.specs.Reading as Reading;

use crate::parse::extras::skip_identifiers;
use crate::parse::identifiers::{begins_identifier, skip_hyphen, skip_plus};
use crate::parse::number::read_number;
use crate::parse::skip::split;

// `alpha.1` and `+5` of `alpha.1+5`; if there is no list, nothing and `otherwise`.
#[inline(always)]
fn split_list<'a>(otherwise: &'a [u8], text: &'a [u8]) -> (&'a [u8], &'a [u8])
    ensures { IsListSplit (Reading.read_list_or otherwise.now text.now) result.0.now result.1.now }
{
    if begins_identifier(text) {
        let rest = skip_identifiers(text);
        (&text[..text.len() - rest.len()], rest)
    } else {
        (&text[..0], otherwise)
    }
}

// `alpha.1` and `+5` of `-alpha.1+5`
#[inline(always)]
#[tactic(auto, unfolding(crate::specs::Reading::read_prerelease))]
fn split_prerelease(text: &[u8]) -> (&[u8], &[u8])
    ensures { IsListSplit (Reading.read_prerelease text.now) result.0.now result.1.now }
{
    split_list(text, skip_hyphen(text))
}

// `5` and ` <2` of `+5 <2`
#[inline(always)]
#[tactic(auto, unfolding(crate::specs::Reading::read_build))]
fn split_build(text: &[u8]) -> (&[u8], &[u8])
    ensures { IsListSplit (Reading.read_build text.now) result.0.now result.1.now }
{
    split_list(text, skip_plus(text))
}

/// Returns the text of an optional prerelease, that of an optional build, and the rest: `alpha`, `5` and ` <2` for
/// `-alpha+5 <2`. What is absent is empty.
// `inline(always)`: the parts stay in registers.
#[inline(always)]
#[tactic(auto, unfolding(crate::specs::Reading::read_extras))]
pub(crate) fn split_extras(text: &[u8]) -> (&[u8], &[u8], &[u8])
    ensures prerelease { identifiers_of result.0.now ≡ (Reading.read_extras text.now).0.0 }
    ensures prerelease_listed { IsListed result.0.now }
    ensures build { identifiers_of result.1.now ≡ (Reading.read_extras text.now).0.1 }
    ensures build_listed { IsListed result.1.now }
    ensures rest { result.2.now ≡ (Reading.read_extras text.now).1 }
{
    let (pre_release, rest) = split_prerelease(text);
    let (build, rest) = split_build(rest);
    (pre_release, build, rest)
}

// Not the dot that ends an identifier of a list.
#[inline(always)]
fn is_inner(byte: u8) -> bool
    ensures { result ≡ is_inner byte }
{
    byte != b'.'
}

// `alpha` and `1` of `alpha.1`: the first identifier, and those after it.
#[inline(always)]
pub fn split_first(text: &[u8]) -> (&[u8], &[u8])
    requires listed { IsListed text.now }
    requires some { 0 < length text.now }
    ensures split { IsFirstSplit text.now result.0.now result.1.now }
    ensures shorter { length result.1.now < length text.now }
{
    let (part, rest) = split(text, is_inner);
    match rest {
        [_, others @ ..] => (part, others),
        [] => (part, rest),
    }
}

// 1 and `alpha` of `1.alpha`: the number that is the first identifier, and the identifiers after it. `None` also if that
// number is greater than `MAX_SAFE_INTEGER`.
#[inline(always)]
pub(crate) fn split_number(text: &[u8]) -> Option<(u64, &[u8])>
    requires { IsListed text.now }
    ensures { IfSome result (λ n. IsNumberSplit text.now n.0 n.1.now) }
{
    let Ok((number, rest)) = read_number(text) else {
        return None;
    };
    match rest {
        [] => Some((number, rest)),
        [b'.', others @ ..] => Some((number, others)),
        _ => None,
    }
}
