//! Reading one piece of a range text: nothing, a hyphen range, or words. Comparators are merged as they are read.
ghost use Rattle.std.specs.Prelude.{◌≡◌, IfSome, None, Some};
ghost use Rattle.semver_texts.specs.Characters.{BeginsWith, BeginsWithNo};
ghost use Rattle.semver_texts.specs.Reading.{begins, is_hyphen};
ghost use Rattle.npm_sets.specs.NpmMeaning as Meaning;
ghost use Rattle.npm_sets.specs.WordTexts as Texts;
ghost use Rattle.npm_sets.specs.Private.ReadViews.{AreSmallEnds, IsRead, IsWordRead};
ghost use Rattle.npm_sets.specs.Private.ReadViews.{begins_comparator, hyphen_seen, is_sign, sides_seen};

use crate::NpmOptions;
use crate::partial::{read_partial, read_side};
use crate::rows::{hyphen_ends, lead_ends};
use crate::words::{Lead, read_word, skip_space, split_chunk};
use semver_cuts::Cut;
use semver_sets::read::Unread;
use semver_sets::read::alternative::CommonSpan;
use semver_sets::word::ends::WordEnds;
use semver_texts::parse::Fault;
use std::alloc::Global;

// Returns `false` only if no comparator begins with the first character. In strict form such a text is refused at once, and
// not divided into words.
#[inline(always)]
pub(crate) fn begins_comparator(text: &[u8]) -> bool
    ensures { result ≡ begins begins_comparator text.now }
{
    match text {
        [
            b'0'..=b'9' | b'<'..=b'>' | b'^' | b'~' | b'v' | b'x' | b'X' | b'*',
            ..
        ] => true,
        _ => false,
    }
}

// Merges the comparators of a piece. Returns `true` if there are any.
pub(crate) fn merge_piece(
    alloc: Global,
    piece: &[u8],
    options: NpmOptions,
    common: &mut CommonSpan,
) -> Result<bool, Unread>
    requires { common.old ≡ None }
    ensures { IsRead (Meaning.piece_comparators options piece.now) common.new result }
{
    let text = skip_space(piece);
    if text.is_empty() {
        common.narrow_to(Cut::Start, Cut::End);
        return Ok(true);
    }
    if !options.loose && !begins_comparator(text) {
        return Err(Unread::Refused);
    }
    match read_hyphen(text, options) {
        Some(ends) => {
            common.narrow(alloc, ends)?;
            Ok(true)
        }
        None => merge_words(alloc, text, options, common),
    }
}

// ---- hyphen ranges

// `-`
#[inline(always)]
fn is_dash(chunk: &[u8]) -> bool
    ensures { result ≡ Texts.is_dash chunk.now }
{
    match chunk {
        [b'-'] => true,
        _ => false,
    }
}

// Returns `true` if the first character is a `-`.
#[inline(always)]
fn begins_with_dash(text: &[u8]) -> bool
    ensures { result ≡ begins is_hyphen text.now }
{
    matches!(text, [b'-', ..])
}

// Returns `true` if the first character is a sign that begins no partial. Most pieces that come here begin so, and are not
// divided for a hyphen range.
#[inline(always)]
fn begins_with_sign(text: &[u8]) -> bool
    ensures { result ≡ begins is_sign text.now }
{
    matches!(text, [b'>' | b'<' | b'~' | b'^', ..])
}

// `1.2` and `3` of `1.2 - 3`
fn split_sides(text: &[u8]) -> Option<(&[u8], &[u8])>
    requires { BeginsWith Texts.is_solid text.now }
    ensures { sides_seen result ≡ Texts.sides_of (Texts.chunks_of text.now) }
{
    let (left, first) = split_chunk(text);
    if !begins_with_dash(first) {
        return None;
    }
    let (dash, second) = split_chunk(first);
    if !is_dash(dash) {
        return None;
    }
    let (right, third) = split_chunk(second);
    if right.is_empty() {
        return None;
    }
    if !third.is_empty() {
        return None;
    }
    Some((left, right))
}

// The ends of a piece that is a hyphen range of two partials. `inline(always)`: it has two callers, and only the one for
// texts that are read has to be fast.
#[inline(always)]
pub(crate) fn read_hyphen(text: &[u8], options: NpmOptions) -> Option<WordEnds>
    requires { BeginsWith Texts.is_solid text.now }
    ensures read { hyphen_seen result
        ≡ Meaning.hyphen_range options (Texts.sides_of (Texts.chunks_of text.now)) }
    ensures small { IfSome result (λ ends. AreSmallEnds ends) }
{
    if begins_with_sign(text) {
        return None;
    }
    let (left, right) = split_sides(text)?;
    read_sides(left, right, options)
}

// The ends of the hyphen range with these sides, if both are partials. With this function between, the toolchain clears
// the places of both only if there are two sides.
#[inline(always)]
fn read_sides<'a>(left: &'a [u8], right: &'a [u8], options: NpmOptions) -> Option<WordEnds<'a>>
    ensures read { hyphen_seen result ≡ Meaning.hyphen_range options (Some (left.now, right.now)) }
    ensures small { IfSome result (λ ends. AreSmallEnds ends) }
{
    let Ok(left) = read_side(options.loose, left) else {
        return None;
    };
    let Ok(right) = read_side(options.loose, right) else {
        return None;
    };
    Some(hyphen_ends(options.include_prerelease, left, right))
}

// ---- words

// Returns `true` for an operand that is no partial, and `false` for one above a limit.
#[inline(always)]
fn is_unknown(fault: Fault) -> bool
    ensures { result ≡ Meaning.is_unknown fault }
{
    match fault {
        Fault::Missing(_) | Fault::LeftOver(_) => true,
        Fault::TooLong(_) | Fault::TooLarge(_) => false,
    }
}

// Merges the comparator of a word. Returns `true` if it gives one, and `false` if it is ignored.
fn merge_word(
    alloc: Global,
    lead: Lead,
    operand: &[u8],
    options: NpmOptions,
    common: &mut CommonSpan,
) -> Result<bool, Unread>
    ensures { IsWordRead options.loose (Meaning.word_comparator options (lead, operand.now)) common.old common.new
        result }
{
    match read_partial(options.loose, operand) {
        Ok(partial) => {
            common.narrow(alloc, lead_ends(options.include_prerelease, lead, partial))?;
            Ok(true)
        }
        Err(fault) => {
            if options.loose && is_unknown(fault) {
                Ok(false)
            } else {
                Err(Unread::Refused)
            }
        }
    }
}

// Merges the comparators of the words of a piece. Returns `true` if there are any.
fn merge_words(
    alloc: Global,
    text: &[u8],
    options: NpmOptions,
    common: &mut CommonSpan,
) -> Result<bool, Unread>
    requires empty { common.old ≡ None }
    requires solid { BeginsWith Texts.is_solid text.now }
    ensures { IsRead (Meaning.comparators_of options (Texts.words_of (Texts.chunks_of text.now))) common.new result }
{
    let mut rest = text;
    let mut found = false;
    while !rest.is_empty() {
        let (lead, operand, others) = read_word(rest);
        match merge_word(alloc, lead, operand, options, common) {
            Ok(merged) => {
                if merged {
                    found = true;
                }
            }
            Err(unread) => return Err(unread),
        }
        rest = others;
    }
    Ok(found)
}
