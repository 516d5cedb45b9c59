//! Where a prerelease and a build end. The readers here only pass over them and build nothing.
ghost use Rattle.std.specs.Prelude.{◌≡◌, ◌∷◌, []};
ghost use Rattle.semver_texts.specs.Reading as Reading;

use crate::parse::identifiers::{
    begins_identifier, is_identifier_character, skip_hyphen, skip_plus,
};
use crate::parse::skip::is_clean_end;

// Returns `true` if a list of identifiers goes on here: with an identifier character, or a dot and one.
// `inline(always)`: the test of a loop.
#[inline(always)]
fn goes_on(text: &[u8]) -> bool
    ensures { result ≡ Reading.goes_on text.now }
{
    // Most bytes of a list are identifier characters.
    match text {
        [first, ..] if is_identifier_character(*first) => true,
        [b'.', rest @ ..] => begins_identifier(rest),
        _ => false,
    }
}

// Returns `true` if a list of identifiers goes on with these two bytes.
#[inline(always)]
fn goes_on_at(first: u8, next: u8) -> bool
    ensures { result ≡ Reading.goes_on (first ∷ next ∷ []) }
{
    is_identifier_character(first) || (first == b'.' && is_identifier_character(next))
}

// Passes over a list of identifiers, four bytes a turn, except for its end. One byte a turn takes half as long again.
#[inline(always)]
fn skip_fours(text: &[u8]) -> &[u8]
    ensures { Reading.list_rest result.now ≡ Reading.list_rest text.now }
{
    let mut rest = text;
    'fours: while let [a, b, c, d, e, ..] = rest {
        if !goes_on_at(*a, *b) {
            return rest;
        }
        if !goes_on_at(*b, *c) {
            return &rest[1..];
        }
        if !goes_on_at(*c, *d) {
            return &rest[2..];
        }
        if !goes_on_at(*d, *e) {
            return &rest[3..];
        }
        rest = &rest[4..];
    }
    rest
}

// `+5` of `alpha.1+5`. `inline(always)`: as a call it takes 18 instructions more.
#[inline(always)]
#[tactic(auto, unfolding(crate::specs::Reading::list_rest))]
pub(crate) fn skip_identifiers(text: &[u8]) -> &[u8]
    ensures { result.now ≡ Reading.list_rest text.now }
{
    let mut rest = skip_fours(text);
    'ones: while let Some((_, others)) = rest.split_first()
        && goes_on(rest)
    {
        rest = others;
    }
    rest
}

// What follows a list of identifiers, or `otherwise` if there is no list.
#[inline]
fn skip_list<'a>(otherwise: &'a [u8], text: &'a [u8]) -> &'a [u8]
    ensures { result.now ≡ (Reading.read_list_or otherwise.now text.now).1 }
{
    if begins_identifier(text) {
        skip_identifiers(text)
    } else {
        otherwise
    }
}

// `+5` of `-alpha.1+5`
#[inline]
#[tactic(auto, unfolding(crate::specs::Reading::read_prerelease))]
fn skip_prerelease(text: &[u8]) -> &[u8]
    ensures { result.now ≡ (Reading.read_prerelease text.now).1 }
{
    skip_list(text, skip_hyphen(text))
}

// ` <2` of `+5 <2`
#[inline]
#[tactic(auto, unfolding(crate::specs::Reading::read_build))]
fn skip_build(text: &[u8]) -> &[u8]
    ensures { result.now ≡ (Reading.read_build text.now).1 }
{
    skip_list(text, skip_plus(text))
}

// ` <2` of `-alpha.1+5 <2`: what follows an optional prerelease and an optional build. `inline(always)`: most words
// have neither, which is one test of a byte.
#[inline(always)]
pub fn skip_extras(text: &[u8]) -> &[u8]
    ensures { result.now ≡ (Reading.read_extras text.now).1 }
{
    if is_clean_end(text) {
        text
    } else {
        skip_some_extras(text)
    }
}

// `inline(never)`: most words have no extras.
#[inline(never)]
#[tactic(auto, unfolding(crate::specs::Reading::read_extras))]
fn skip_some_extras(text: &[u8]) -> &[u8]
    ensures { result.now ≡ (Reading.read_extras text.now).1 }
{
    skip_build(skip_prerelease(text))
}
