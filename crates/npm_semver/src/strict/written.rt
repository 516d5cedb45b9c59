//! Which version texts are strictly written.
//!
//! `#[inline(always)]`: the parts stay in registers.
ghost use Rattle.std.specs.Prelude.{◌≡◌, ◌-◌, ◌≤◌, ◌==◌, ◌∷◌, IfErr, IfNone, IfOk, IfSome, length};
ghost use Rattle.std.specs.List.{list_all};
ghost use Rattle.semver_texts.specs.Characters as Characters;
ghost use Rattle.semver_texts.specs.Characters.{BeginsWithNo};
ghost use Rattle.npm_semver.specs.Private.StrictViews as StrictViews;
ghost use Rattle.npm_semver.specs.Private.StrictViews.{IsStrictUpTo, IsUnstrictFrom};
ghost use Rattle.npm_semver.specs.StrictVersionText as StrictVersionText;
ghost use Rattle.npm_semver.specs.StrictVersionText.{IsStrictlyWritten, IsUnstrictAt};

use semver_texts::parse::number::is_digit;
use semver_texts::parse::skip::split;

// What stands between dots.
#[derive(Clone, Copy)]
enum Part {
    Number,
    Identifier,
}

#[inline(always)]
fn is_inner(part: Part, byte: u8) -> bool
    ensures { result ≡ StrictViews.is_inner part byte }
{
    match part {
        Part::Number => byte != b'-' && byte != b'+' && byte != b'.',
        Part::Identifier => byte != b'+' && byte != b'.',
    }
}

#[inline(always)]
fn are_digits(text: &[u8]) -> bool
    ensures { result ≡ list_all Characters.is_digit text.now }
{
    split(text, is_digit).1.is_empty()
}

#[inline(always)]
pub(crate) fn has_zero_in_front(text: &[u8]) -> bool
    ensures { result ≡ StrictVersionText.has_zero_in_front text.now }
{
    matches!(text, [b'0', _, ..])
}

#[inline(always)]
fn is_strict(part: Part, text: &[u8]) -> bool
    ensures { result ≡ StrictViews.is_strict part text.now }
{
    match part {
        Part::Number => !text.is_empty() && are_digits(text) && !has_zero_in_front(text),
        Part::Identifier => !has_zero_in_front(text) || !are_digits(text),
    }
}

// The text after this mark, if it begins with it.
#[inline(always)]
fn after_mark(mark: u8, text: &[u8]) -> Option<&[u8]>
    ensures some { IfSome result (λ rest. text.now ≡ mark ∷ rest.now) }
    ensures none { IfNone result (BeginsWithNo (λ b. b == mark) text.now) }
{
    match text {
        [first, rest @ ..] if *first == mark => Some(rest),
        _ => None,
    }
}

// What follows the parts, or how many bytes are left from the first one on that is not strictly written.
#[inline(always)]
fn skip_strict(part: Part, text: &[u8]) -> Result<&[u8], usize>
    ensures strict { IfOk result (λ rest. IsStrictUpTo part text.now rest.now) }
    ensures unstrict { IfErr result (λ left. IsUnstrictFrom part text.now left) }
{
    let mut rest = text;
    'parts: loop {
        let (first, others) = split(rest, |byte| is_inner(part, byte));
        if !is_strict(part, first) {
            return Err(rest.len());
        }
        match after_mark(b'.', others) {
            Some(next) => rest = next,
            None => return Ok(others),
        }
    }
}

// How many bytes are left from the first number or identifier on that is not strictly written, if there is one.
#[inline(always)]
pub(crate) fn unstrict_from(text: &[u8]) -> Option<usize>
    ensures none { IfNone result (IsStrictlyWritten text.now) }
    ensures within { IfSome result (λ left. left ≤ length text.now) }
    ensures some { IfSome result (λ left. IsUnstrictAt text.now (length text.now - left)) }
{
    let rest = match skip_strict(Part::Number, text) {
        Ok(rest) => rest,
        Err(left) => return Some(left),
    };
    let Some(identifiers) = after_mark(b'-', rest) else {
        return None;
    };
    match skip_strict(Part::Identifier, identifiers) {
        Ok(_) => None,
        Err(left) => Some(left),
    }
}
